//! What an endpoint does with a stranger's messages, its own clock and its consumer's confirmations, whatever happens.
#![tactic(auto)]

mod laws;

pub use laws::{
    a_confirmation_is_kept, a_failure_refuses, a_head_is_handed_out, a_push_mode_delivers,
    a_receipt_names_what_came, a_site_is_an_end_alone, a_step_uses_the_clock,
    a_tick_sets_the_clock, an_end_alone_is_part_of_a_world, an_end_is_timely,
    an_unknown_identifier_is_told, full_is_told_for_cause, full_needs_its_record,
    some_run_delivers, what_came_stays_from, what_came_was_brought, what_comes_is_taken,
    what_is_confirmed_is_kept, what_is_sent_belongs_to_its_event, what_is_settled_stays_from,
    what_no_mode_takes_is_refused,
};

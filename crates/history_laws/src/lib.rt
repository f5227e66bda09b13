//! What holds of every history of an office: over disks whose content isn't observable, from any end on, and over power
//! failures at any moment.
#![tactic(auto)]

mod gates;
mod inside;
mod laws;

pub use gates::{a_step_in_memory_waits_for_its_gate, a_step_stands_by_its_gate};
pub use inside::a_call_leaves_what_its_stop_would;
pub use laws::{
    a_cut_off_call_leaves_the_same, a_history_goes_on_with_a_run, a_history_is_turns,
    a_receipted_message_is_held_over_openings, after_a_stop_only_refusals_follow,
    an_end_is_safe_over_openings, an_unseen_history_may_happen, calls_join, calls_split,
    one_end_by_calls, sizes_rise, two_offices_deliver_once, what_came_is_shown,
    what_came_stays_from_any_start, what_is_asked_decides_the_history,
    what_is_left_reads_as_one_end, what_may_happen_is_a_turn,
};

//! Where the payloads of received messages are: laws about the records that have them.
#![tactic(auto)]

mod laws;

pub use laws::{
    a_confirmation_opens_no_entry, a_fold_moves_what_waits, a_record_brings_what_comes,
    bodies_at_gates_give_the_messages, other_effects_leave_the_places, what_stands_is_brought,
};

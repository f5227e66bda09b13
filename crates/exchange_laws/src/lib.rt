//! The guarantees of an exchange between two endpoints, whatever messages are lost, repeated or reordered.
#![tactic(auto)]

mod laws;

pub use laws::{
    a_receipt_settles, a_round_settles, an_ask_sends_a_pull_request,
    an_ask_with_a_receipt_sends_both, an_end_is_safe, messages_are_delivered_once, what_came_stays,
    what_is_handed_in_is_taken, what_is_handed_out_was_asked_for, what_is_sent_may_come,
    what_is_settled_stays, what_is_told_is_so,
};

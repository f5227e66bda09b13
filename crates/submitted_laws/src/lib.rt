//! What is submitted by a mode is short enough to be read back, and so are the signals about it.
#![tactic(auto)]

mod laws;

pub use laws::{
    a_long_conversation_is_too_long, a_pull_request_is_read_again, a_submission_is_read_again,
    a_submission_is_short, its_answer_is_read_again, its_error_signal_is_read_again,
    its_receipt_is_read_again, its_signals_are_short, the_local_door_submits_shortly,
    their_pair_is_read_again,
};

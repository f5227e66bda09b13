//! An endpoint's answer to a message is read back as that answer.
#![tactic(auto)]

mod laws;

pub use laws::{a_message_is_read_as_itself, its_answer_is_read_as_itself};

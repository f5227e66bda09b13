//! A message that is read may come: an endpoint can take it as an event.
#![tactic(auto)]

mod laws;

pub use laws::a_read_message_may_come;

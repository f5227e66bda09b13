//! The submissions of an endpoint and their states.
#![tactic(auto)]

mod counts;
mod failing;
mod marking;
mod numbers;
mod outbox;

pub use counts::Counts;
pub use outbox::Outbox;

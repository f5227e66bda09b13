//! Which submissions wait to be sent, in which queue, and when they are due.
#![tactic(auto)]

mod channels;
mod names;
mod places;
mod waiting;

pub use channels::Channels;
pub use waiting::{Place, Waiting};

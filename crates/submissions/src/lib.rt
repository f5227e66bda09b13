//! Makes submissions of the data that a producer submits.
#![tactic(auto)]

mod header;
mod intake;
mod limits;
mod naming;
mod parts;
mod payloads;

pub use intake::{Intake, submission};
pub use limits::are_too_large;

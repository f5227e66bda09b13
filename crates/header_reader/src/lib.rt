//! Reads the tree of an envelope as the message unit that it means.
#![tactic(auto)]

mod elements;
mod envelope;
mod made;
mod names;
mod parts;
mod read_signal;
mod read_user;
mod refusal;
mod values;

pub use envelope::{one_unit, read_unit};
pub use refusal::HeaderRefusal;

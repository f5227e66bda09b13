//! The machine's table determines what an endpoint does with an event: there is exactly one outcome.
#![tactic(auto)]

mod laws;

pub use laws::{an_event_has_an_outcome, an_event_has_one_outcome};

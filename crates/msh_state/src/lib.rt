//! The tables of one endpoint: its submissions, the queues of the waiting ones, the received messages, and the clock.
#![tactic(auto)]

mod applying;
mod questions;
mod queues;
mod reserving;
mod tables;
mod totals;
mod waiting;

pub use inbox::Held;
pub use queues::queue_for_kept;
pub use tables::{EndTables, MAX_SIZE};
pub use totals::Totals;

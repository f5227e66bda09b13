//! Workers: callers of one shared office, side by side.
//!
//!     serve        runs workers, each in a thread of its own, until their turns are made
//!     worker_turn  makes one turn of a worker
#![tactic(auto)]

mod guests;
mod job;
mod laws;
mod serving;
mod turn;

pub use job::{Job, Worker};
pub use laws::workers_make_their_turns;
pub use serving::{serve, worker_turn};
pub use turn::Turn;

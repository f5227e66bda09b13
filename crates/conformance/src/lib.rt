//! The runs of a conformance suite: messages are held against their check lines, HTTP streams against what they begin
//! with, and scripts of a drill against their transcripts. And messages are written out for other programs.
#![tactic(auto)]

mod checking;
mod exchange;
mod heads;
mod listing;
mod messages;
mod play;
mod rows;
mod streams;
mod suite;

pub use checking::run_vectors;
pub use exchange::{Exchange, run_exchanges};
pub use listing::{Listed, list_vectors};
pub use messages::{Case, Vector};
pub use play::{Play, run_plays};
pub use rows::VectorEnd;
pub use suite::{SuiteEnd, run_suite};

//! The journal of an endpoint: its records are the effects that led to the endpoint, and a crash at any moment leaves them.
//!
//!     open_end        reads the records, and gives the endpoint that their effects lead to
//!     append_effects  appends a record
//!     fetch_payloads  reads the payloads of a received message
//!     fold_end        replaces all records by those of the endpoint's compaction
#![tactic(auto)]

mod append;
mod fetch;
mod folding;
mod opening;
mod reading;

pub use append::{append_effects, frame_of};
pub use fetch::fetch_payloads;
pub use folding::{Compaction, fold_end};
pub use opening::open_end;

//! A journal of records that a crash at any moment leaves, with the newest record or without it.
#![tactic(auto)]

mod adding;
mod drill;
mod fault;
mod fetching;
mod folding;
mod frame;
mod journal;
mod leaf;
mod other;
mod passing;
mod picked_leaf;
mod reading;
mod records;
mod starting;
mod version;

pub use fault::{JournalFault, LeafRefusal};
pub use frame::Frame;
pub use journal::Journal;
pub use leaf::{leaf_records, lend_records, no_listed_leaf_is_broken};

//! One history of calls by several callers, and what each of them has seen of it.
#![tactic(auto)]

mod crossing;
mod keeper;
mod pass;
mod steps;
mod view;

pub use keeper::{Keeper, MAX_ENTRIES, Worn};
pub use pass::Pass;

//! One HTTP exchange over a link: a request goes out, and its response comes back.
#![tactic(auto)]

mod exchanging;

pub use exchanging::{Lost, exchange};

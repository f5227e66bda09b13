//! A written envelope and its payloads are read back.
#![tactic(auto)]

mod laws;

pub use laws::{envelope_is_read_again, package_is_read_again};

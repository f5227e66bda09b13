//! Packages: an envelope and payloads as one body of parts (RFC 2046, 2387).
#![tactic(auto)]

mod boundary;
mod write;

pub use boundary::free_boundary;
pub use write::{ENVELOPE_MEDIA, Wire, write_parts};

//! Sample messages and submissions, and the application of effects to tables, for the tests of other crates.
#![tactic(auto)]

mod acts;
mod effects;
mod headers;
mod parcels;

pub use acts::{act, act_at};
pub use effects::{carried, delivery, kept, pulled, submission};
pub use headers::{header, header_of, octets, text};
pub use parcels::{all_bytes, parcel};

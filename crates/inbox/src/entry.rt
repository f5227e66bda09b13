//! One entry of an inbox.

use as4_values::{Payload, Seq, UserHeader};
use shadow::Shadow;

/// A received message: its header, and where its payloads are.
#[derive(Drop)]
pub struct Entry {
    pub header: UserHeader,
    /// The gate of the journal's record that delivered it; 0 if the message was kept without payloads.
    pub gate: u64,
    /// The length of a record's body that delivers this message alone; 0 if it was kept.
    pub length: u64,
    /// The payloads, in proofs alone; none if it was kept.
    pub payloads: Shadow<Seq<Payload>>,
}

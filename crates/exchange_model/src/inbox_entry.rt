//! Entries of the inbox.

use as4_values::{Payload, Seq, UserHeader};

/// A received message.
#[derive(Drop)]
pub struct InboxEntry {
    pub header: UserHeader,
    /// Empty once the consumer has confirmed the message.
    pub payloads: Seq<Payload>,
}

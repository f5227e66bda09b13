//! Entries of the outbox.

use as4_effects::{Mark, Submission};

/// A submission and its state.
#[derive(Drop)]
pub struct Sent {
    pub submission: Submission,
    /// The number of times that it was sent.
    pub tries: u32,
    /// When it was last sent, in milliseconds since 1970-01-01T00:00:00Z; 0 where it was never sent.
    pub last: u64,
    pub mark: Mark,
}

/// The state of a submission, as reported to its producer.
#[derive(Clone, Copy, Debug, PartialEq, Eq)]
pub enum Standing {
    /// It was sent `tries` times, and has no receipt yet.
    Pending { tries: u32 },
    /// Its receipt was received.
    Receipted,
    /// It expired.
    Failed,
    /// The other endpoint refused it.
    Refused,
}

//! Waiting submissions and reservations, as contracts see them.

use as4_effects::Queue;

/// A submission that waits to be sent, as contracts see it.
#[derive(Drop)]
pub struct Waiting {
    pub queue: Queue,
    /// When it may be sent, in milliseconds since 1970-01-01T00:00:00Z.
    pub due: u64,
    /// The submission's number.
    pub number: u64,
}

/// A reservation: the queue in which a submission of this number may wait, as contracts see it.
#[derive(Drop)]
pub struct Place {
    pub queue: Queue,
    pub number: u64,
}

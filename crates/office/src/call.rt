//! The calls of an office, as entries of its history. No list of them is kept: it exists in proofs alone.
use as4_disk::FaultCounts;
use exchange_model::{Event, Reply};

/// A call that was entered into the history.
#[derive(Drop)]
pub enum Call {
    /// The event was made, and this was replied.
    Done {
        event: Event,
        reply: Reply,
    },
    /// The journal was folded, and has this many bytes since.
    Folded {
        size: u64,
    },
    /// The disk failed while this event was made, or, without one, while the journal was folded.
    Stop {
        event: Option<Event>,
        halt: FaultCounts,
    },
}

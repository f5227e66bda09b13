//! What an audit finds.

use as4_values::Seq;
use exchange_model::Event;

/// What an audit finds.
#[derive(Drop)]
pub enum Audit {
    /// The effects of the start fit, and each later record is what the machine writes for the next of these events.
    Yes {
        /// The number of records of the start: those that a compaction wrote.
        start: u64,
        events: Seq<Event>,
    },
    /// The record at this place, from 0, is the first that isn't right.
    No {
        index: u64,
    },
}

/// What an audit finds, without its events.
#[derive(Clone, Copy, Debug, PartialEq, Eq)]
pub enum Finding {
    /// The effects of the start fit, and the machine writes each later record for one event.
    Yes {
        /// The number of records of the start.
        start: u64,
        /// The number of events.
        events: u64,
    },
    /// The record at this place, from 0, is the first that isn't right.
    No {
        index: u64,
    },
}

/// Why a leaf isn't audited.
#[derive(Clone, Copy, Debug, PartialEq, Eq)]
pub enum AuditRefusal {
    /// The leaf is no journal; this is the place of the gate whose record is cut short, or 0 where the magic is wrong.
    NotJournal { at: u64 },
    /// Memory ran out.
    NoMemory,
}

//! Why a call of the journal gave no answer.
use as4_disk::ReadFault;
use thiserror::Error;

#[derive(Clone, Copy, Debug, PartialEq, Eq, Drop, Error)]
pub enum JournalFault {
    /// The picked leaf is no journal: at 0 neither magic stands there, else this is the place of a gate behind which no
    /// whole record stands.
    #[error("not a journal at {at}")]
    NotJournal { at: u64 },
    /// A record of `need` bytes more would pass what a leaf may have. Nothing was done.
    #[error("the journal is full: {size} bytes, and {need} more")]
    Full { size: u64, need: u64 },
    /// A device call failed: the disk's counts of faults before the call and after it. The journal is to be opened
    /// again.
    #[error("the disk failed: {before} faults before, {after} after")]
    Disk { before: u64, after: u64 },
    /// There was no memory for what was read. Nothing was done.
    #[error("out of memory")]
    NoMemory,
}

/// Why a leaf gave no records.
#[derive(Clone, Copy, Debug, PartialEq, Eq, Drop, Error)]
pub enum LeafRefusal {
    /// It is no journal: at 0 neither magic stands there, else this is the place of a gate behind which no whole record
    /// stands.
    #[error("not a journal at {at}")]
    NotJournal { at: u64 },
    #[error("out of memory")]
    NoMemory,
}

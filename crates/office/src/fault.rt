//! Why a call of the office gave no answer. Why it can't be opened is a fault of its journal.
use thiserror::Error;

#[derive(Clone, Copy, Debug, PartialEq, Eq, Drop, Error)]
pub enum OfficeFault {
    /// A device call failed: the disk's counts of faults before the call of the office and behind it. The journal is to
    /// be opened again.
    #[error("the disk failed: {before} faults before, {after} after")]
    Disk { before: u64, after: u64 },
    /// The disk failed in an earlier call, with these counts. The disk wasn't touched, and an event was entered with this
    /// reply.
    #[error("stopped since the disk failed: {before} faults before, {after} after")]
    Stopped { before: u64, after: u64 },
    /// The history has 2^63 entries. Nothing was done.
    #[error("the history is full")]
    Worn,
    /// There was no memory. The end and its journal are as before.
    #[error("out of memory")]
    NoMemory,
}

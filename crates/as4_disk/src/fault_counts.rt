//! The counts of faults around a call at which the disk failed.

/// A device call failed: how many faults the disk had met before the call that made it, and how many after.
#[derive(Clone, Copy, Debug, PartialEq, Eq)]
pub struct FaultCounts {
    pub before: u64,
    pub after: u64,
}

//! The state of a submission.

use as4_values::{Code, NoMemory, PlainData};
use std::alloc::Global;

/// The state of a submission.
#[derive(Drop)]
pub enum Mark {
    /// It has no receipt yet, and is neither expired nor refused.
    Pending,
    /// Its receipt was received.
    Receipted,
    /// It expired: no receipt was received in time (`EBMS:0301`).
    Failed,
    /// The other endpoint refused it with this error.
    Refused { code: Code },
}

impl PlainData for Mark {
    fn try_clone(&self, alloc: Global) -> Result<Mark, NoMemory> {
        match self {
            Mark::Pending => Ok(Mark::Pending),
            Mark::Receipted => Ok(Mark::Receipted),
            Mark::Failed => Ok(Mark::Failed),
            Mark::Refused { code } => Ok(Mark::Refused {
                code: code.try_clone(alloc)?,
            }),
        }
    }

    fn same(&self, other: &Mark) -> bool {
        match (self, other) {
            (Mark::Pending, Mark::Pending) => true,
            (Mark::Receipted, Mark::Receipted) => true,
            (Mark::Failed, Mark::Failed) => true,
            (Mark::Refused { code }, Mark::Refused { code: other }) => code.same(other),
            _ => false,
        }
    }
}

//! What device calls have done to a disk in memory, one change a call.
ghost use Rattle.std.specs.Prelude.{◌≡◌};

use crate::Part;
use as4_values::Octets;

/// A device call that has acted.
#[derive(Drop)]
pub enum Change {
    /// These bytes were written to the part.
    Wrote { part: Part, at: u64, bytes: Octets },
    /// The part was cut to this length.
    WasCut { part: Part, len: u64 },
    /// The part was synced.
    Synced { part: Part },
}

impl Change {
    ghost use Rattle.as4_disk.specs.Changes.{part_of, is_sync, is_sync_of};

    pub(crate) fn part(&self) -> Part
        ensures { result ≡ part_of self.now }
    {
        match self {
            Change::Wrote {
                part,
                at: _,
                bytes: _,
            } => *part,
            Change::WasCut { part, len: _ } => *part,
            Change::Synced { part } => *part,
        }
    }

    /// Whether it is a sync.
    pub(crate) fn is_sync(&self) -> bool
        ensures { result ≡ is_sync self.now }
    {
        matches!(self, Change::Synced { .. })
    }

    /// Whether it is a sync of this part.
    pub(crate) fn is_sync_of(&self, part: Part) -> bool
        ensures { result ≡ is_sync_of part self.now }
    {
        match self {
            Change::Wrote { .. } | Change::WasCut { .. } => false,
            Change::Synced { part: synced } => synced.is_same(part),
        }
    }
}

/// How a device call goes.
#[derive(Clone, Copy, Debug, PartialEq, Eq)]
pub enum Turn {
    /// It acts and answers Ok.
    Acts,
    /// It fails and does nothing.
    Fails,
    /// It acts, and then it fails.
    Stops,
}

/// Which of a disk's images a crash leaves.
#[derive(Clone, Copy, Debug, PartialEq, Eq)]
pub enum Pick {
    /// Each part as it was last synced.
    Old,
    /// Each part as it reads.
    New,
    /// Each part at the greatest length that it may have, and 0x37 in the place of each byte that may be anything.
    Other,
}

//! How a gate is passed: the record after an open one is read, and a closed one that isn't 0 is closed to 0.
ghost use Rattle.std.specs.Prelude.{◌≡◌, ◌++◌, ◌∷◌, ◌<◌, ◌^◌, length, IfOk, IsErrOf};
ghost use Rattle.as4_flow.specs.Flow.{Told};
ghost use Rattle.as4_disk.specs.Leaving.{CountsRead, LeavesOnly, Quiet};
ghost use Rattle.journal.specs.Leaf.{front_of, limit_of};
ghost use Rattle.journal.specs.Reading.{IsWithin, IsAhead};
ghost use Rattle.journal.specs.Store.{Reopens};
ghost use Rattle.journal.specs.Settled.{IsSettled};
ghost use Rattle.journal.specs.Passing.{Passes, IsQuiet};

use crate::picked_leaf::{leaf_part, write_picked};
use crate::reading::{Next, read_next};
use crate::version::Version;
use as4_disk::{Disk, ReadFault};
use std::alloc::Global;

/// Reads what is at a gate of the picked leaf, and closes a gate there that is neither 0 nor 1.
pub(crate) fn pass<D: Disk>(
    alloc: Global,
    disk: &mut D,
    is_second: bool,
    version: Version,
    gate: u64,
    ahead: Option<[u8; 9]>,
) -> Result<Next, ReadFault>
    requires { gate < 2 ^ 32 }
    ensures passes { IfOk result (λ next. (bodies : _) (byte : _) (rest : _) → gate ≡ length (front_of version bodies)
        → length (front_of version bodies) < limit_of version → IsAhead version (byte ∷ rest) ahead
        → IsSettled D.Disk disk.old is_second (front_of version bodies ++ byte ∷ rest)
        → Passes D.Disk disk.new is_second version bodies byte rest next) }
    ensures within { IfOk result (λ next. IsWithin version gate next) }
    ensures quiet { IfOk result (λ next. IsQuiet next
        (Quiet D.Disk disk.old disk.new)) }
    ensures starved { IsErrOf result ReadFault.NoMemory
        → Quiet D.Disk disk.old disk.new }

    ensures any_moment { (bodies : _) (byte : _) (rest : _) → gate ≡ length (front_of version bodies)
        → length (front_of version bodies) < limit_of version → IsAhead version (byte ∷ rest) ahead
        → IsSettled D.Disk disk.old is_second (front_of version bodies ++ byte ∷ rest)
        → Told (D.seen disk.old) (λ b. LeavesOnly D.Disk disk.old disk.new (Reopens b)) }
    ensures counts { CountsRead D.Disk disk.old disk.new result }
{
    match read_next(alloc, disk, leaf_part(is_second), version, gate, ahead)? {
        Next::Record(body, ahead) => Ok(Next::Record(body, ahead)),
        Next::Closed(0) => Ok(Next::Closed(0)),
        Next::Closed(byte) => {
            write_picked(disk, is_second, gate, &[0])?;
            Ok(Next::Closed(byte))
        }
        Next::Broken => Ok(Next::Broken),
    }
}

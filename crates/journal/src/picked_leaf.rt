//! What a journal does to its disk: writes to the picked leaf that are durable once they have answered.
ghost use Rattle.std.specs.Prelude.{◌≡◌, ℕ, ◌+◌, ◌<◌, ◌≤◌, ◌^◌, List, [], ◌∷◌, ◌++◌, length, drop, OnOk, is_ok};
ghost use Rattle.as4_flow.specs.Flow.{Told};
ghost use Rattle.as4_disk.specs.Bytes.{Torn};
ghost use Rattle.as4_disk.specs.Leaving.{Counts, LeavesOnly};
ghost use Rattle.as4_disk.specs.Runs.{MakesAll};
ghost use Rattle.as4_disk.specs.declared.change.Change.TheVariants.{Synced, Wrote};
ghost use Rattle.journal.specs.Calls.{record_calls};
ghost use Rattle.journal.specs.Store.{leaf_of, picked_leaf, InVersion, OpensToOneOf};
ghost use Rattle.journal.specs.Leaf.{front_of, limit_of};
ghost use Rattle.journal.specs.Settled.{IsSettled};

use crate::frame::Frame;
use crate::version::Version;
use as4_disk::{Disk, DiskFailed, Part, write_durably};

pub(crate) fn leaf_part(is_second: bool) -> Part
    ensures { result ≡ leaf_of is_second }
{
    if is_second { Part::Leaf1 } else { Part::Leaf0 }
}

/// Writes to the picked leaf durably.
pub(crate) fn write_picked<D: Disk>(
    disk: &mut D,
    is_second: bool,
    at: u64,
    bytes: &[u8],
) -> Result<(), DiskFailed>
    requires { Told (D.seen disk.old) (λ b. at ≤ length (b (leaf_of is_second))) }
    ensures settled { OnOk result ((front rest : List ℕ) → at ≡ length front
        → IsSettled D.Disk disk.old is_second (front ++ rest)
        → IsSettled D.Disk disk.new is_second (front ++ bytes.now ++ drop (length bytes.now) rest)) }
    ensures longer { OnOk result (Told (D.seen disk.new)
        (λ b. at + length bytes.now ≤ length (b (leaf_of is_second)))) }
    ensures any_moment { (leaf : List ℕ) → IsSettled D.Disk disk.old is_second leaf
        → LeavesOnly D.Disk disk.old disk.new
        (λ c. Torn at (length bytes.now) leaf (picked_leaf c)) }
    ensures calls { MakesAll D.makes (Wrote (leaf_of is_second) at bytes.now ∷ Synced (leaf_of is_second) ∷ [])
        disk.old disk.new (is_ok result) }
    ensures counts { Counts D.Disk disk.old disk.new result }
{
    write_durably(disk, leaf_part(is_second), at, bytes)?;
    Ok(())
}

/// Writes a record over the closed gate, its own gate last: two durable writes. The other bytes, with the gate 0 after
/// them, have to be on the disk first: after a gate that is torn open, what was there would count.
pub(crate) fn add_record<D: Disk>(
    disk: &mut D,
    is_second: bool,
    gate: u64,
    frame: &Frame,
) -> Result<(), DiskFailed>
    requires within { gate < 2 ^ 32 }
    requires there { Told (D.seen disk.old) (λ b. gate + 1 ≤ length (b (leaf_of is_second))) }
    ensures settled { OnOk result ((bodies : _) (rest : List ℕ) → gate ≡ length (front_of Version.Two bodies)
        → IsSettled D.Disk disk.old is_second (front_of Version.Two bodies ++ 0 ∷ rest)
        → (after : List ℕ) × IsSettled D.Disk disk.new is_second
        (front_of Version.Two (bodies ++ frame.now ∷ []) ++ 0 ∷ after)) }
    ensures any_moment { (bodies : _) (rest : List ℕ) → gate ≡ length (front_of Version.Two bodies)
        → length (front_of Version.Two (bodies ++ frame.now ∷ [])) < limit_of Version.Two
        → IsSettled D.Disk disk.old is_second (front_of Version.Two bodies ++ 0 ∷ rest)
        → LeavesOnly D.Disk disk.old disk.new
        (InVersion Version.Two (OpensToOneOf bodies frame.now)) }
    ensures calls { MakesAll D.makes (record_calls (leaf_of is_second) gate frame.now)
        disk.old disk.new (is_ok result) }
    ensures counts { Counts D.Disk disk.old disk.new result }
{
    write_picked(disk, is_second, gate + 1, frame.tail())?;
    write_picked(disk, is_second, gate, &[1])?;
    Ok(())
}

//! What a fold does to the disk: it fills the leaf that isn't picked, settles it, and then picks it.
ghost use Rattle.std.specs.Prelude.{◌≡◌, ◌⊎◌, ℕ, ◌≤◌, List, [], ◌∷◌, ◌++◌, not, length, OnOk};
ghost use Rattle.as4_flow.specs.Flow.{Told};
ghost use Rattle.as4_disk.specs.Bytes.{overwritten};
ghost use Rattle.as4_disk.specs.Leaving.{Counts, FirstThen, LeavesOnly};
ghost use Rattle.journal.specs.Leaf.{front_of};
ghost use Rattle.journal.specs.Store.{leaf_of, picked_leaf};
ghost use Rattle.journal.specs.Settled.{IsSettled, Reads, ReadsSettled};

use crate::picked_leaf::leaf_part;
use crate::version::Version;
use as4_disk::{Disk, DiskFailed, Part, write_durably};

/// Cuts the leaf that isn't picked to nothing.
pub(crate) fn cut_other<D: Disk>(disk: &mut D, is_second: bool) -> Result<(), DiskFailed>
    ensures kept { OnOk result ((leaf : List ℕ) → IsSettled D.Disk disk.old is_second leaf
        → IsSettled D.Disk disk.new is_second leaf × Reads D.Disk disk.new is_second []) }
    ensures any_moment { (leaf : List ℕ) → IsSettled D.Disk disk.old is_second leaf
        → LeavesOnly D.Disk disk.old disk.new (λ c. picked_leaf c ≡ leaf) }
    ensures counts { Counts D.Disk disk.old disk.new result }
{
    disk.cut(leaf_part(!is_second), 0)?;
    Ok(())
}

/// Writes to the leaf that isn't picked.
pub(crate) fn write_other<D: Disk>(
    disk: &mut D,
    is_second: bool,
    at: u64,
    bytes: &[u8],
) -> Result<(), DiskFailed>
    requires { Told (D.seen disk.old) (λ b. at ≤ length (b (leaf_of (not is_second)))) }
    ensures kept { OnOk result ((leaf other : List ℕ) → IsSettled D.Disk disk.old is_second leaf
        → Reads D.Disk disk.old is_second other
        → IsSettled D.Disk disk.new is_second leaf
        × Reads D.Disk disk.new is_second (overwritten at bytes.now other)) }
    ensures any_moment { (leaf : List ℕ) → IsSettled D.Disk disk.old is_second leaf
        → LeavesOnly D.Disk disk.old disk.new (λ c. picked_leaf c ≡ leaf) }
    ensures counts { Counts D.Disk disk.old disk.new result }
{
    disk.write_at(leaf_part(!is_second), at, bytes)?;
    Ok(())
}

/// Settles the leaf that isn't picked.
pub(crate) fn sync_other<D: Disk>(disk: &mut D, is_second: bool) -> Result<(), DiskFailed>
    ensures kept { OnOk result ((leaf other : List ℕ) → IsSettled D.Disk disk.old is_second leaf
        → Reads D.Disk disk.old is_second other
        → IsSettled D.Disk disk.new is_second leaf
        × ReadsSettled D.Disk disk.new is_second other) }
    ensures any_moment { (leaf : List ℕ) → IsSettled D.Disk disk.old is_second leaf
        → LeavesOnly D.Disk disk.old disk.new (λ c. picked_leaf c ≡ leaf) }
    ensures counts { Counts D.Disk disk.old disk.new result }
{
    disk.sync(leaf_part(!is_second))?;
    Ok(())
}

/// Picks the leaf that isn't picked, durably.
pub(crate) fn pick_other<D: Disk>(disk: &mut D, is_second: bool) -> Result<(), DiskFailed>
    ensures picked { OnOk result ((leaf other : List ℕ) → IsSettled D.Disk disk.old is_second leaf
        → ReadsSettled D.Disk disk.old is_second other
        → IsSettled D.Disk disk.new (not is_second) other) }
    ensures any_moment { (leaf other : List ℕ) → IsSettled D.Disk disk.old is_second leaf
        → ReadsSettled D.Disk disk.old is_second other
        → LeavesOnly D.Disk disk.old disk.new (λ c. (picked_leaf c ≡ leaf) ⊎ (picked_leaf c ≡ other)) }
    ensures counts { Counts D.Disk disk.old disk.new result }
{
    write_durably(disk, Part::Selector, 0, &[u8::from(!is_second)])?;
    Ok(())
}

/// The magic of version 2.
const MAGIC: [u8; 8] = *b"AS4JNL2\n";

/// Makes the leaf that isn't picked one without records, up to its first gate.
pub(crate) fn empty_other<D: Disk>(disk: &mut D, is_second: bool) -> Result<(), DiskFailed>
    ensures kept { OnOk result ((leaf : List ℕ) → IsSettled D.Disk disk.old is_second leaf
        → IsSettled D.Disk disk.new is_second leaf
        × Reads D.Disk disk.new is_second (front_of Version.Two [])) }
    ensures any_moment { (leaf : List ℕ) → IsSettled D.Disk disk.old is_second leaf
        → LeavesOnly D.Disk disk.old disk.new (λ c. picked_leaf c ≡ leaf) }
    ensures counts { Counts D.Disk disk.old disk.new result }
{
    cut_other(disk, is_second)?;
    write_other(disk, is_second, 0, &MAGIC)?;
    Ok(())
}

/// Closes the leaf that isn't picked by a gate 0, and settles it.
fn close_other<D: Disk>(disk: &mut D, is_second: bool, at: u64) -> Result<(), DiskFailed>
    requires { Told (D.seen disk.old) (λ b. at ≤ length (b (leaf_of (not is_second)))) }
    ensures kept { OnOk result ((leaf other : List ℕ) → at ≡ length other
        → IsSettled D.Disk disk.old is_second leaf → Reads D.Disk disk.old is_second other
        → IsSettled D.Disk disk.new is_second leaf
        × ReadsSettled D.Disk disk.new is_second (other ++ 0 ∷ [])) }
    ensures any_moment { (leaf other : List ℕ) → IsSettled D.Disk disk.old is_second leaf
        → Reads D.Disk disk.old is_second other
        → LeavesOnly D.Disk disk.old disk.new (λ c. picked_leaf c ≡ leaf) }
    ensures counts { Counts D.Disk disk.old disk.new result }
{
    write_other(disk, is_second, at, &[0])?;
    sync_other(disk, is_second)?;
    Ok(())
}

/// Closes the leaf that isn't picked by a gate 0, settles it, and picks it.
pub(crate) fn finish_other<D: Disk>(
    disk: &mut D,
    is_second: bool,
    at: u64,
) -> Result<(), DiskFailed>
    requires { Told (D.seen disk.old) (λ b. at ≤ length (b (leaf_of (not is_second)))) }
    ensures picked { OnOk result ((leaf other : List ℕ) → at ≡ length other
        → IsSettled D.Disk disk.old is_second leaf → Reads D.Disk disk.old is_second other
        → IsSettled D.Disk disk.new (not is_second) (other ++ 0 ∷ [])) }
    ensures any_moment { (leaf other : List ℕ) → at ≡ length other
        → IsSettled D.Disk disk.old is_second leaf → Reads D.Disk disk.old is_second other
        → FirstThen D.Disk disk.old disk.new
        (λ c. picked_leaf c ≡ leaf) (λ c. (picked_leaf c ≡ leaf) ⊎ (picked_leaf c ≡ other ++ 0 ∷ [])) }
    ensures counts { Counts D.Disk disk.old disk.new result }
{
    close_other(disk, is_second, at)?;
    pick_other(disk, is_second)?;
    Ok(())
}

//! How a leaf is picked, settled and known, before its records are read.
ghost use Rattle.std.specs.Prelude.{◌≡◌, [], IfOk, IfSome, IfNone, List, ℕ};
ghost use Rattle.as4_flow.specs.Flow.{Told};
ghost use Rattle.as4_disk.specs.Faults.{HasReadCause};
ghost use Rattle.as4_disk.specs.Leaving.{CountsRead, FirstThen, LeavesOnly, Quiet};
ghost use Rattle.journal.specs.Leaf.{magic_of, IsBroken, IsNew};
ghost use Rattle.journal.specs.Store.{KeepsLeaf, picked_leaf, picks, is_second_of};
ghost use Rattle.journal.specs.Settled.{IsSettled, IsStart};

use crate::picked_leaf::{leaf_part, write_picked};
use crate::version::Version;
use as4_disk::{Disk, Part, ReadFault, read_some};
use std::alloc::Global;

const MAGIC_ONE: [u8; 8] = *b"AS4JNL1\n";

/// The magic of version 2 and a closed gate.
const NEW_LEAF: [u8; 9] = *b"AS4JNL2\n\0";

/// Picks a leaf and settles it, and makes it where it is new. Answers which leaf is picked, and its version; or `None`
/// where it has neither magic.
pub(crate) fn start<D: Disk>(
    alloc: Global,
    disk: &mut D,
) -> Result<Option<(bool, Version)>, ReadFault>
    ensures read { IfOk result (λ found. IfSome found (λ s. Told (D.seen disk.old) (λ b.
        IsStart D.Disk disk.new s.0 s.1 × Told (D.seen disk.new) (KeepsLeaf b)))) }
    ensures none { IfOk result (λ found. IfNone found (Told (D.seen disk.old) (λ b. IsBroken 0 (picked_leaf b)))) }
    ensures quiet { IfOk result (λ found. IfSome found (λ _. Told (D.seen disk.old) (λ b. (IsNew (picked_leaf b) → ⊥)
        → Quiet D.Disk disk.old disk.new))) }
    ensures untouched { IfOk result (λ found. IfNone found
        (Quiet D.Disk disk.old disk.new)) }

    ensures any_moment { Told (D.seen disk.old) (λ b.
        FirstThen D.Disk disk.old disk.new (D.may_leave disk.old) (KeepsLeaf b)) }
    ensures counts { CountsRead D.Disk disk.old disk.new result }
{
    let is_second = settle(alloc, disk)?;
    match known(alloc, disk, is_second) {
        Ok(Some(version)) => Ok(Some((is_second, version))),
        Ok(None) => Ok(None),
        Err(fault) => Err(fault),
    }
}

/// Syncs the selector, reads which leaf it picks, and syncs that.
fn settle<D: Disk>(alloc: Global, disk: &mut D) -> Result<bool, ReadFault>
    ensures settled { IfOk result (λ is_second. Told (D.seen disk.old) (λ b.
        IsSettled D.Disk disk.new is_second (picked_leaf b))) }

    ensures quiet { Quiet D.Disk disk.old disk.new }
    ensures cause { HasReadCause (D.fault_count disk.old) (D.fault_count disk.new) result }
{
    disk.sync(Part::Selector)?;
    let is_second = read_selector(alloc, disk)?;
    disk.sync(leaf_part(is_second))?;
    Ok(is_second)
}

/// Whether the selector picks leaf 1.
fn read_selector<D: Disk>(alloc: Global, disk: &mut D) -> Result<bool, ReadFault>
    ensures picked { IfOk result (λ is_second. Told (D.seen disk.old) (λ b. is_second_of b ≡ is_second)) }

    ensures quiet { Quiet D.Disk disk.old disk.new }
    ensures cause { HasReadCause (D.fault_count disk.old) (D.fault_count disk.new) result }
{
    let Some(bytes) = read_some(alloc, disk, Part::Selector, 0, 1)? else {
        return Ok(false);
    };
    let is_second = is_odd(bytes.as_slice());
    drop(bytes);
    Ok(is_second)
}

fn is_odd(bytes: &[u8]) -> bool
    ensures { result ≡ picks bytes.now }
{
    match bytes {
        [byte, ..] => byte % 2 == 1,
        [] => false,
    }
}

/// The version of a leaf of more than 9 bytes, or `None` where it has neither magic. A shorter one is made new.
fn known<D: Disk>(
    alloc: Global,
    disk: &mut D,
    is_second: bool,
) -> Result<Option<Version>, ReadFault>
    ensures read { IfOk result (λ found. IfSome found (λ version. (leaf : List ℕ) → Told (D.seen disk.old) (λ b.
        IsSettled D.Disk disk.old is_second leaf
        → IsStart D.Disk disk.new is_second version × Told (D.seen disk.new) (KeepsLeaf b)))) }
    ensures none { IfOk result (λ found. IfNone found ((leaf : List ℕ)
        → IsSettled D.Disk disk.old is_second leaf → IsBroken 0 leaf)) }
    ensures quiet { IfOk result (λ found. IfSome found (λ _. (leaf : List ℕ) → Told (D.seen disk.old) (λ _.
        IsSettled D.Disk disk.old is_second leaf → (IsNew leaf → ⊥)
        → Quiet D.Disk disk.old disk.new))) }
    ensures untouched { IfOk result (λ found. IfNone found
        (Quiet D.Disk disk.old disk.new)) }

    ensures any_moment { (leaf : List ℕ) → Told (D.seen disk.old) (λ b.
        IsSettled D.Disk disk.old is_second leaf
        → LeavesOnly D.Disk disk.old disk.new (KeepsLeaf b)) }
    ensures counts { CountsRead D.Disk disk.old disk.new result }
{
    let Some(bytes) = read_some(alloc, disk, leaf_part(is_second), 0, 10)? else {
        write_picked(disk, is_second, 0, &NEW_LEAF)?;
        return Ok(Some(Version::Two));
    };
    let version = version_in(&bytes[..8]);
    drop(bytes);
    Ok(version)
}

pub(crate) fn version_in(magic: &[u8]) -> Option<Version>
    ensures some { IfSome result (λ version. magic.now ≡ magic_of version) }
    ensures none { IfNone result ((version : _) → magic.now ≡ magic_of version → ⊥) }
{
    if magic == MAGIC_ONE.as_slice() {
        return Some(Version::One);
    }
    if magic == &NEW_LEAF[..8] {
        return Some(Version::Two);
    }
    None
}

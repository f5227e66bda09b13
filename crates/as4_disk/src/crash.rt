//! What a crash leaves of a disk in memory: each part as it was synced last, and of the changes since what is picked.
ghost use Rattle.std.specs.Prelude.{◌≡◌, IfOk, OnOk};
ghost use Rattle.as4_disk.specs.Files.{image_of};
ghost use Rattle.as4_disk.specs.Changes.{bytes_after, bytes_by};
ghost use Rattle.as4_disk.specs.Picks.{left_by, left_after, left_by_all, pick_by, EndWithLastSync};

use crate::bytes::{apply_to, overwrite};
use crate::change::{Change, Pick};
use crate::{Files, Part};
use as4_values::{NoMemory, Octets};
use std::alloc::{AllocError, Global};

/// What the pick leaves of files that had these changes.
pub(crate) fn picked_files(
    alloc: Global,
    pick: Pick,
    changes: &[Change],
    first: Files,
) -> Result<Files, NoMemory>
    ensures { IfOk result (λ files. (q : _) → image_of files q ≡ pick_by pick q changes.now (image_of first q) (image_of first q)) }
{
    let Files {
        mut selector,
        mut leaf0,
        mut leaf1,
    } = first;
    leave(alloc, pick, Part::Selector, changes, &mut selector)?;
    leave(alloc, pick, Part::Leaf0, changes, &mut leaf0)?;
    leave(alloc, pick, Part::Leaf1, changes, &mut leaf1)?;
    Ok(Files {
        selector,
        leaf0,
        leaf1,
    })
}

// Makes of the first bytes of a part what the pick leaves of them.
fn leave(
    alloc: Global,
    pick: Pick,
    part: Part,
    changes: &[Change],
    octets: &mut Octets,
) -> Result<(), AllocError>
    ensures { OnOk result (octets.new ≡ pick_by pick part changes.now octets.old octets.old) }
{
    let (synced, since) = changes.split_at(last_sync(part, changes));
    replay(alloc, part, synced, octets)?;
    leave_since(alloc, pick, part, since, octets)
}

// How many changes there are up to the last sync of the part.
fn last_sync(part: Part, changes: &[Change]) -> usize
    ensures { EndWithLastSync part changes.now result }
{
    let mut synced = 0;
    for (i, change) in changes.iter().enumerate() {
        if change.is_sync_of(part) {
            synced = i + 1;
        }
    }
    synced
}

// Makes the changes of the part.
fn replay(
    alloc: Global,
    part: Part,
    changes: &[Change],
    octets: &mut Octets,
) -> Result<(), AllocError>
    ensures { OnOk result (octets.new ≡ bytes_by part changes.now octets.old) }
{
    for change in changes {
        replay_one(alloc, part, change, octets)?;
    }
    Ok(())
}

fn replay_one(
    alloc: Global,
    part: Part,
    change: &Change,
    octets: &mut Octets,
) -> Result<(), AllocError>
    ensures { OnOk result (octets.new ≡ bytes_after part change.now octets.old) }
{
    if !change.part().is_same(part) {
        return Ok(());
    }
    apply_to(alloc, octets, change)
}

// Makes of the changes of the part what is picked.
fn leave_since(
    alloc: Global,
    pick: Pick,
    part: Part,
    changes: &[Change],
    octets: &mut Octets,
) -> Result<(), AllocError>
    ensures { OnOk result (octets.new ≡ left_by_all pick part changes.now octets.old) }
{
    for change in changes {
        leave_one(alloc, pick, part, change, octets)?;
    }
    Ok(())
}

fn leave_one(
    alloc: Global,
    pick: Pick,
    part: Part,
    change: &Change,
    octets: &mut Octets,
) -> Result<(), AllocError>
    ensures { OnOk result (octets.new ≡ left_after pick part change.now octets.old) }
{
    if !change.part().is_same(part) {
        return Ok(());
    }
    match pick {
        Pick::Old => Ok(()),
        Pick::New => apply_to(alloc, octets, change),
        Pick::Other => fill(alloc, change, octets),
    }
}

// Puts 0x37 in the place of each byte that the change wrote.
fn fill(alloc: Global, change: &Change, octets: &mut Octets) -> Result<(), AllocError>
    ensures { OnOk result (octets.new ≡ left_by Pick.Other change.now octets.old) }
{
    match change {
        Change::Wrote { part: _, at, bytes } => {
            let others = vec![in alloc; 0x37; bytes.bytes().len()]?;
            overwrite(alloc, octets, *at as usize, &others)
        }
        Change::WasCut { .. } | Change::Synced { .. } => Ok(()),
    }
}

//! The bytes of a part in memory, changed in place.
ghost use Rattle.std.specs.Prelude.{◌≡◌, ◌+◌, ◌≤◌, length, take, drop, OnOk, OnErr};
ghost use Rattle.as4_disk.specs.Bytes.{overwritten};
ghost use Rattle.as4_disk.specs.Files.{image_of};
ghost use Rattle.as4_disk.specs.Changes.{done, bytes_after};

use crate::change::Change;
use crate::{Files, Part};
use as4_values::Octets;
use std::alloc::{AllocError, Global};
use std::mem;

/// Makes a change of three files.
pub(crate) fn apply(alloc: Global, files: &mut Files, change: &Change) -> Result<(), AllocError>
    ensures ok { OnOk result ((q : _) → image_of files.new q ≡ bytes_after q change.now (image_of files.old q)) }
    ensures err { OnErr result (files.new ≡ files.old) }
{
    match change.part() {
        Part::Selector => apply_to(alloc, &mut files.selector, change),
        Part::Leaf0 => apply_to(alloc, &mut files.leaf0, change),
        Part::Leaf1 => apply_to(alloc, &mut files.leaf1, change),
    }
}

/// Makes a change of the bytes of its part.
pub(crate) fn apply_to(
    alloc: Global,
    octets: &mut Octets,
    change: &Change,
) -> Result<(), AllocError>
    ensures ok { OnOk result (octets.new ≡ done change.now octets.old) }
    ensures err { OnErr result (octets.new ≡ octets.old) }
{
    match change {
        Change::Wrote { part: _, at, bytes } => {
            overwrite(alloc, octets, *at as usize, bytes.bytes())
        }
        Change::WasCut { part: _, len } => {
            shorten(alloc, octets, *len as usize);
            Ok(())
        }
        Change::Synced { part: _ } => Ok(()),
    }
}

/// Writes over what is there, and past the end. Where the bytes end before `at`, it writes behind their end.
pub(crate) fn overwrite(
    alloc: Global,
    octets: &mut Octets,
    at: usize,
    bytes: &[u8],
) -> Result<(), AllocError>
    ensures ok { OnOk result (octets.new ≡ overwritten at bytes.now octets.old) }
    ensures err { OnErr result (octets.new ≡ octets.old) }
{
    let mut items = take_items(alloc, octets);
    let written = overwrite_items(&mut items, at, bytes);
    *octets = Octets::of(items);
    written
}

fn shorten(alloc: Global, octets: &mut Octets, len: usize)
    ensures { octets.new ≡ take len octets.old }
{
    let mut items = take_items(alloc, octets);
    items.truncate(len);
    *octets = Octets::of(items);
}

/// Fills the room with the bytes from `at` on.
pub(crate) fn copy_out(bytes: &[u8], at: usize, room: &mut [u8])
    requires { at + length room.old ≤ length bytes.now }
    ensures { room.new ≡ take (length room.old) (drop at bytes.now) }
{
    let rest = &bytes[at..];
    room.copy_from_slice(&rest[..room.len()]);
}

// Takes the bytes out, without a copy, and leaves none.
fn take_items(alloc: Global, octets: &mut Octets) -> Vec<u8>
    ensures { result.items ≡ octets.old }
{
    mem::replace(octets, Octets::of(Vec::new(alloc))).into_vec()
}

fn overwrite_items(items: &mut Vec<u8>, at: usize, bytes: &[u8]) -> Result<(), AllocError>
    ensures ok { OnOk result (items.new.items ≡ overwritten at bytes.now items.old.items) }
    ensures err { OnErr result (items.new.items ≡ items.old.items) }
{
    let at = at.min(items.len());
    let (over, behind) = bytes.split_at(bytes.len().min(items.len() - at));
    items.extend_from_slice(behind)?;
    items[at..at + over.len()].copy_from_slice(over);
    Ok(())
}

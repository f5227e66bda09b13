//! Disks of a journal, and what a crash leaves of one.
use crate::ready::open_all;
use as4_disk::{Files, MemoryDisk, Pick};
use as4_values::{Octets, Seq};
use std::alloc::{AllocError, Global};

/// The bytes of selector, leaf 0 and leaf 1.
pub(crate) type Three = [&'static [u8]; 3];

/// The three picks.
pub(crate) const PICKS: [Pick; 3] = [Pick::Old, Pick::New, Pick::Other];

fn octets(alloc: Global, bytes: &[u8]) -> Result<Octets, AllocError> {
    Ok(Octets::of(bytes.to_vec(alloc)?))
}

/// A disk with these bytes, of which no call fails.
pub(crate) fn disk_of(alloc: Global, three: Three) -> Option<MemoryDisk> {
    match (
        octets(alloc, three[0]),
        octets(alloc, three[1]),
        octets(alloc, three[2]),
    ) {
        (Ok(selector), Ok(leaf0), Ok(leaf1)) => {
            let files = Files {
                selector,
                leaf0,
                leaf1,
            };
            Some(MemoryDisk::of(files, Seq::of(Vec::new(alloc))))
        }
        (selector, leaf0, leaf1) => {
            drop(selector);
            drop(leaf0);
            drop(leaf1);
            None
        }
    }
}

/// Whether the disk opens to these bodies, each with a `|` behind it.
pub(crate) fn opens_to(alloc: Global, disk: MemoryDisk, bodies: &[u8]) -> bool {
    let mut found = Vec::new(alloc);
    let is_open = match open_all(alloc, disk, &mut found) {
        Ok(journal) => {
            drop(journal);
            true
        }
        Err(disk) => {
            drop(disk);
            false
        }
    };
    let is_so = is_open && found.as_slice() == bodies;
    drop(found);
    is_so
}

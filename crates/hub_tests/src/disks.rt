//! Disks in memory.
use as4_disk::{Files, MemoryDisk, Pick};
use as4_values::{Octets, Seq};
use std::alloc::Global;

/// The three picks.
pub(crate) const PICKS: [Pick; 3] = [Pick::Old, Pick::New, Pick::Other];

/// A disk on which nothing was written.
pub(crate) fn empty(alloc: Global) -> MemoryDisk {
    let files = Files {
        selector: Octets::of(Vec::new(alloc)),
        leaf0: Octets::of(Vec::new(alloc)),
        leaf1: Octets::of(Vec::new(alloc)),
    };
    MemoryDisk::of(files, Seq::of(Vec::new(alloc)))
}

//! Disks of a journal as bytes that were typed by hand.
use as4_disk::{Files, MemoryDisk, Part, Pick};
use as4_values::{Octets, Seq};
use std::alloc::{AllocError, Global};

/// The bytes of selector, leaf 0 and leaf 1.
pub(crate) type Three = [&'static [u8]; 3];

/// A disk on which nothing was written.
pub(crate) const EMPTY: Three = [b"", b"", b""];

/// The three picks.
pub(crate) const PICKS: [Pick; 3] = [Pick::Old, Pick::New, Pick::Other];

/// A leaf without records.
pub(crate) const NEW_LEAF: [u8; 9] = *b"AS4JNL2\n\0";

/// A tick to 1,000, in version 1.
pub(crate) const OLD_TICK: [u8; 25] = *b"AS4JNL1\n\x01\0\0\0\x0b\0\x01\x02\0\0\0\0\0\0\x03\xe8\0";

/// A tick to 1,000.
pub(crate) const TICK_1000: [u8; 29] =
    *b"AS4JNL2\n\x01\0\0\0\0\0\0\0\x0b\0\x01\x02\0\0\0\0\0\0\x03\xe8\0";

/// A tick to 2,000.
pub(crate) const TICK_2000: [u8; 29] =
    *b"AS4JNL2\n\x01\0\0\0\0\0\0\0\x0b\0\x01\x02\0\0\0\0\0\0\x07\xd0\0";

/// Both.
pub(crate) const TWO_TICKS: [u8; 49] =
    *b"AS4JNL2\n\x01\0\0\0\0\0\0\0\x0b\0\x01\x02\0\0\0\0\0\0\x03\xe8\x01\0\0\0\0\0\0\0\x0b\0\x01\x02\0\0\0\0\0\0\x07\xd0\0";

/// A tick to 1,000, and behind a gate of 0x37 one to 2,000.
pub(crate) const PENDING: [u8; 49] =
    *b"AS4JNL2\n\x01\0\0\0\0\0\0\0\x0b\0\x01\x02\0\0\0\0\0\0\x03\xe8\x37\0\0\0\0\0\0\0\x0b\0\x01\x02\0\0\0\0\0\0\x07\xd0\0";

/// The same behind a gate of 0.
pub(crate) const CLOSED: [u8; 49] =
    *b"AS4JNL2\n\x01\0\0\0\0\0\0\0\x0b\0\x01\x02\0\0\0\0\0\0\x03\xe8\0\0\0\0\0\0\0\0\x0b\0\x01\x02\0\0\0\0\0\0\x07\xd0\0";

fn octets(alloc: Global, bytes: &[u8]) -> Result<Octets, AllocError> {
    Ok(Octets::of(bytes.to_vec(alloc)?))
}

fn files_of(alloc: Global, three: [&[u8]; 3]) -> Option<Files> {
    match (
        octets(alloc, three[0]),
        octets(alloc, three[1]),
        octets(alloc, three[2]),
    ) {
        (Ok(selector), Ok(leaf0), Ok(leaf1)) => Some(Files {
            selector,
            leaf0,
            leaf1,
        }),
        (selector, leaf0, leaf1) => {
            drop(selector);
            drop(leaf0);
            drop(leaf1);
            None
        }
    }
}

/// A disk with these bytes, of which the calls of these numbers fail.
pub(crate) fn disk_of(alloc: Global, three: [&[u8]; 3], failing: &[u64]) -> Option<MemoryDisk> {
    match (files_of(alloc, three), failing.to_vec(alloc)) {
        (Some(files), Ok(failing)) => Some(MemoryDisk::of(files, Seq::of(failing))),
        (files, failing) => {
            drop(files);
            drop(failing);
            None
        }
    }
}

/// The bytes of the leaf that is picked.
pub(crate) fn picked(disk: &MemoryDisk) -> &[u8] {
    let is_second = match disk.bytes(Part::Selector) {
        [byte, ..] => byte % 2 == 1,
        [] => false,
    };
    disk.bytes(if is_second { Part::Leaf1 } else { Part::Leaf0 })
}

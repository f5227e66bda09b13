//! Device calls as a table, and what a crash leaves after them.
use as4_disk::{Disk, Files, MemoryDisk, Part, Pick};
use as4_values::{Octets, Seq};
use std::alloc::{AllocError, Global};

/// A device call.
#[derive(Clone, Copy)]
pub(crate) enum Step {
    Write(Part, u64, &'static [u8]),
    Cut(Part, u64),
    Sync(Part),
}

/// The bytes of selector, leaf 0 and leaf 1.
pub(crate) type Three = [&'static [u8]; 3];

/// What every disk of these tests is made with.
pub(crate) const FIRST: Three = [b"", b"abcdef", b"xyz"];

fn octets(alloc: Global, bytes: &[u8]) -> Result<Octets, AllocError> {
    Ok(Octets::of(bytes.to_vec(alloc)?))
}

/// A disk of which the calls of these numbers fail.
pub(crate) fn disk_of(alloc: Global, failing: &[u64]) -> Option<MemoryDisk> {
    match (
        octets(alloc, FIRST[0]),
        octets(alloc, FIRST[1]),
        octets(alloc, FIRST[2]),
        failing.to_vec(alloc),
    ) {
        (Ok(selector), Ok(leaf0), Ok(leaf1), Ok(failing)) => {
            let files = Files {
                selector,
                leaf0,
                leaf1,
            };
            Some(MemoryDisk::of(files, Seq::of(failing)))
        }
        (selector, leaf0, leaf1, failing) => {
            drop(selector);
            drop(leaf0);
            drop(leaf1);
            drop(failing);
            None
        }
    }
}

/// Makes a call whose range the disk has, and says whether it answered Ok.
pub(crate) fn make(disk: &mut MemoryDisk, step: Step) -> bool {
    match step {
        Step::Write(part, at, bytes) => {
            at <= disk.bytes(part).len() as u64 && disk.write_at(part, at, bytes).is_ok()
        }
        Step::Cut(part, len) => {
            len <= disk.bytes(part).len() as u64 && disk.cut(part, len).is_ok()
        }
        Step::Sync(part) => disk.sync(part).is_ok(),
    }
}

/// Makes calls, and says how many answered Ok.
pub(crate) fn make_all(disk: &mut MemoryDisk, steps: &[Step]) -> u64 {
    let mut done: u64 = 0;
    for step in steps {
        if make(disk, *step) {
            done = done.saturating_add(1);
        }
    }
    done
}

/// Whether the disk reads so.
pub(crate) fn reads(disk: &MemoryDisk, three: Three) -> bool {
    disk.bytes(Part::Selector) == three[0]
        && disk.bytes(Part::Leaf0) == three[1]
        && disk.bytes(Part::Leaf1) == three[2]
}

/// Whether a crash leaves so.
pub(crate) fn leaves(disk: MemoryDisk, pick: Pick, three: Three) -> bool {
    match disk.crash(pick) {
        Ok(disk) => {
            let is = reads(&disk, three);
            drop(disk);
            is
        }
        Err(_) => false,
    }
}

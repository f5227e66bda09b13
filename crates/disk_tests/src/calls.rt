//! The two calls that stand on any disk.
use crate::steps::{FIRST, Step, disk_of, leaves, make};
use as4_disk::{Disk, Part, Pick, ReadFault, read_some, write_durably};
use std::alloc::Global;

/// Whether a durable write answers, and whether each pick then leaves it.
fn writes(alloc: Global, fails: u64, pick: Pick, leaf0: &'static [u8]) -> Option<(bool, bool)> {
    let mut disk = disk_of(alloc, &[fails])?;
    let is_done = disk.bytes(Part::Leaf0).len() >= 6
        && write_durably(&mut disk, Part::Leaf0, 6, b"gh").is_ok();
    Some((is_done, leaves(disk, pick, [FIRST[0], leaf0, FIRST[2]])))
}

/// The call that fails, the pick, what it leaves, and whether the write answers Ok.
static WRITES: [(u64, Pick, &[u8], bool); 7] = [
    (0, Pick::Old, b"abcdefgh", true),
    (0, Pick::New, b"abcdefgh", true),
    (0, Pick::Other, b"abcdefgh", true),
    (1, Pick::New, b"abcdef", false),
    (2, Pick::Old, b"abcdef", false),
    (2, Pick::New, b"abcdefgh", false),
    (2, Pick::Other, b"abcdef77", false),
];

fn first_other_write(alloc: Global) -> Option<usize> {
    for (row, (fails, pick, leaf0, is_done)) in WRITES.iter().enumerate() {
        if writes(alloc, *fails, *pick, leaf0) != Some((*is_done, true)) {
            return Some(row);
        }
    }
    None
}

#[test]
fn a_durable_write_is_left_by_each_crash(rt: HostRuntime) {
    assert_eq!(rt; first_other_write(rt.alloc()), None);
}

/// What is read of leaf 0 of a disk of which one call fails, and its faults.
fn reads_so(alloc: Global, fails: u64, at: u64, count: u64, answer: Answer) -> Option<bool> {
    let mut disk = disk_of(alloc, &[fails])?;
    let read = read_some(alloc, &mut disk, Part::Leaf0, at, count);
    let faults = disk.faults();
    drop(disk);
    Some(match read {
        Ok(Some(bytes)) => {
            let is_so = answer == Answer::Bytes(bytes.as_slice());
            drop(bytes);
            is_so && faults == 0
        }
        Ok(None) => answer == Answer::Fewer && faults == 0,
        Err(ReadFault::Disk) => answer == Answer::Fault && faults == 1,
        Err(ReadFault::NoMemory) => false,
    })
}

#[derive(Clone, Copy, PartialEq)]
enum Answer<'a> {
    Bytes(&'a [u8]),
    Fewer,
    Fault,
}

/// The call that fails, the place and the count, and the answer.
static READS: [(u64, u64, u64, Answer<'static>); 9] = [
    (0, 0, 6, Answer::Bytes(b"abcdef")),
    (0, 2, 3, Answer::Bytes(b"cde")),
    (0, 6, 0, Answer::Bytes(b"")),
    (0, 2, 5, Answer::Fewer),
    (0, 7, 0, Answer::Fewer),
    (0, u64::MAX, 2, Answer::Fewer),
    (1, 0, 6, Answer::Fault),
    (2, 0, 6, Answer::Fault),
    (3, 0, 6, Answer::Bytes(b"abcdef")),
];

fn first_other_read(alloc: Global) -> Option<usize> {
    for (row, (fails, at, count, answer)) in READS.iter().enumerate() {
        if reads_so(alloc, *fails, *at, *count, *answer) != Some(true) {
            return Some(row);
        }
    }
    None
}

#[test]
fn bytes_are_read_where_the_part_has_them(rt: HostRuntime) {
    assert_eq!(rt; first_other_read(rt.alloc()), None);
}

/// The lengths of the parts after a cut, as device calls give them, and how many faults that took.
fn lengths(alloc: Global) -> Option<([Option<u64>; 3], u64)> {
    let mut disk = disk_of(alloc, &[4])?;
    let _ = make(&mut disk, Step::Cut(Part::Leaf0, 4));
    let selector = disk.len(Part::Selector).ok();
    let leaf0 = disk.len(Part::Leaf0).ok();
    let leaf1 = disk.len(Part::Leaf1).ok();
    let faults = disk.faults();
    drop(disk);
    Some(([selector, leaf0, leaf1], faults))
}

#[test]
fn a_length_is_a_device_call(rt: HostRuntime) {
    assert_eq!(rt; lengths(rt.alloc()), Some(([Some(0), Some(4), None], 1)));
}

//! Payloads are read back from the disk byte for byte.
use crate::desk::{after, after_a_stop, after_opening};
use crate::disks::{EMPTY, PICKS, disk_of, picked};
use crate::old_leaf::old_leaf;
use crate::steps::{Parcel, Said, Step, Steps};
use as4_disk::Pick;
use std::alloc::Global;

/// Both messages come, between ticks. A tick's record has 20 bytes. The record of a message without a payload has 141.
/// Here the identifier has 3 bytes, not 42. The part info adds 14 bytes, the payload 23 and its content 3 or 10,240. So
/// the record of the short message has 142 bytes and that of the long one 10,379.
const COME: Steps = &[
    (Step::Tick(1000), Said::Ticked(0)),
    (Step::Brings(Parcel::Short), Said::Receipt),
    (Step::Tick(2000), Said::Ticked(0)),
    (Step::Brings(Parcel::Long), Said::Receipt),
    (Step::Tick(3000), Said::Ticked(0)),
];

const BOTH: Steps = &[
    (Step::Unpack(1), Said::Holds(Parcel::Long)),
    (Step::Unpack(0), Said::Holds(Parcel::Short)),
    (Step::Unpack(2), Said::NoEntry),
    (Step::Unpack(1), Said::Holds(Parcel::Long)),
    (Step::Inbox, Said::Count(2)),
];

/// Each message is read as soon as it came.
const AT_ONCE: Steps = &[
    (Step::Brings(Parcel::Short), Said::Receipt),
    (Step::Unpack(0), Said::Holds(Parcel::Short)),
    (Step::Brings(Parcel::Long), Said::Receipt),
    (Step::Unpack(1), Said::Holds(Parcel::Long)),
    (Step::Unpack(0), Said::Holds(Parcel::Short)),
];

/// The compacted journal has one tick in place of three: 9 + 20 + 142 + 10,379 bytes.
const FOLDED: Steps = &[
    (Step::Checkpoint, Said::Count(10_550)),
    (Step::Unpack(0), Said::Holds(Parcel::Short)),
    (Step::Unpack(1), Said::Holds(Parcel::Long)),
];

/// The journal is compacted to 9 + 20 + 142 bytes before the second message comes.
const FOLDED_BETWEEN: Steps = &[
    (Step::Tick(1000), Said::Ticked(0)),
    (Step::Tick(2000), Said::Ticked(0)),
    (Step::Brings(Parcel::Short), Said::Receipt),
    (Step::Checkpoint, Said::Count(171)),
    (Step::Brings(Parcel::Long), Said::Receipt),
    (Step::Unpack(1), Said::Holds(Parcel::Long)),
    (Step::Unpack(0), Said::Holds(Parcel::Short)),
];

/// The first message is confirmed.
const CONFIRMED: Steps = &[
    (Step::Confirm(0), Said::Confirmed(0)),
    (Step::Unpack(0), Said::Gone),
    (Step::Unpack(1), Said::Holds(Parcel::Long)),
];

/// The second message is still read, and the first is known when it comes again.
const SECOND: Steps = &[
    (Step::Unpack(1), Said::Holds(Parcel::Long)),
    (Step::Unpack(0), Said::Gone),
    (Step::Brings(Parcel::Short), Said::Receipt),
    (Step::Inbox, Said::Count(2)),
];

/// The compacted journal keeps 112 bytes of the first message: 142 without the payload of 26 and the count of 4.
const CONFIRMED_AND_FOLDED: Steps = &[
    (Step::Checkpoint, Said::Count(10_520)),
    (Step::Unpack(0), Said::Gone),
    (Step::Unpack(1), Said::Holds(Parcel::Long)),
];

/// The steps of successive openings of one disk.
struct Row {
    what: &'static str,
    openings: &'static [Steps],
}

static ROWS: [Row; 6] = [
    Row {
        what: "at once",
        openings: &[AT_ONCE, BOTH],
    },
    Row {
        what: "opened again",
        openings: &[COME, BOTH, BOTH],
    },
    Row {
        what: "compacted",
        openings: &[COME, FOLDED, BOTH],
    },
    Row {
        what: "compacted before the second comes",
        openings: &[FOLDED_BETWEEN, BOTH],
    },
    Row {
        what: "confirmed",
        openings: &[COME, CONFIRMED, SECOND],
    },
    Row {
        what: "confirmed and compacted",
        openings: &[COME, CONFIRMED, CONFIRMED_AND_FOLDED, SECOND],
    },
];

/// Whether each answer is the expected one, on a disk that is empty at first.
fn goes(alloc: Global, openings: &[Steps]) -> Option<bool> {
    let mut disk = disk_of(alloc, EMPTY, &[])?;
    for steps in openings {
        disk = after(alloc, disk, *steps)?;
    }
    drop(disk);
    Some(true)
}

fn first_other_row(alloc: Global) -> Option<&'static str> {
    for row in &ROWS {
        if goes(alloc, row.openings) != Some(true) {
            return Some(row.what);
        }
    }
    None
}

#[test]
fn payloads_are_read_as_they_came(rt: HostRuntime) {
    assert_eq!(rt; first_other_row(rt.alloc()), None);
}

/// The device calls of this compaction: seven for one record, one for each further record, and three for each record
/// that is read.
const FOLD_CALLS: u64 = 15;

/// The sixteenth call isn't made.
const FOLDED_IN_15: Steps = &[
    (Step::Tick(1000), Said::Ticked(0)),
    (Step::Brings(Parcel::Short), Said::Receipt),
    (Step::Tick(2000), Said::Ticked(0)),
    (Step::Brings(Parcel::Long), Said::Receipt),
    (Step::Tick(3000), Said::Ticked(0)),
    (Step::Stop(16), Said::Done),
    (Step::Checkpoint, Said::Count(10_550)),
];

/// Whether both messages are read after a stop at this device call of the compaction, and a crash.
fn are_read_after(alloc: Global, call: u64, pick: Pick) -> Option<bool> {
    let disk = disk_of(alloc, EMPTY, &[])?;
    let disk = after_a_stop(alloc, disk, COME, Step::Checkpoint, call, pick)?;
    let disk = after(alloc, disk, BOTH)?;
    drop(disk);
    Some(true)
}

/// The first device call of the compaction for which this isn't so.
fn first_other_call(alloc: Global) -> Option<u64> {
    for call in 0..=FOLD_CALLS {
        for pick in &PICKS {
            if are_read_after(alloc, call, *pick) != Some(true) {
                return Some(call);
            }
        }
    }
    None
}

#[test]
fn payloads_are_read_after_a_stop_in_a_checkpoint(rt: HostRuntime) {
    assert_eq!(rt; first_other_call(rt.alloc()), None);
}

#[test]
fn a_checkpoint_reads_each_payload_in_three_calls(rt: HostRuntime) {
    assert_eq!(rt; goes(rt.alloc(), &[FOLDED_IN_15, BOTH]), Some(true));
}

/// The leaf that both messages leave, in version 1.
fn both_in_version_1(alloc: Global) -> Option<Vec<u8>> {
    let disk = after(alloc, disk_of(alloc, EMPTY, &[])?, COME)?;
    let old = old_leaf(alloc, picked(&disk));
    drop(disk);
    old
}

/// Opening makes fewer device calls.
const CALLS: u64 = 40;

/// Whether both messages are read after a stop at this device call of opening the leaf of version 1, and a crash.
fn are_opened_after(alloc: Global, leaf: &[u8], call: u64, pick: Pick) -> Option<bool> {
    let disk = disk_of(alloc, [b"", leaf, b""], &[])?;
    let disk = after_opening(alloc, disk, call, pick)?;
    let disk = after(alloc, disk, BOTH)?;
    drop(disk);
    Some(true)
}

fn first_other_opening(alloc: Global, leaf: &[u8]) -> Option<u64> {
    for call in 0..=CALLS {
        for pick in &PICKS {
            if are_opened_after(alloc, leaf, call, *pick) != Some(true) {
                return Some(call);
            }
        }
    }
    None
}

/// The first device call of opening for which this isn't so; 99 if the leaf wasn't made.
fn first_other_old(alloc: Global) -> Option<u64> {
    let Some(leaf) = both_in_version_1(alloc) else {
        return Some(99);
    };
    let found = first_other_opening(alloc, leaf.as_slice());
    drop(leaf);
    found
}

#[test]
fn payloads_are_read_after_a_stop_in_opening_version_1(rt: HostRuntime) {
    assert_eq!(rt; first_other_old(rt.alloc()), None);
}

/// Opening compacted the journal, so a checkpoint does nothing.
const OPENED: Steps = &[
    (Step::Stop(0), Said::Done),
    (Step::Checkpoint, Said::Count(10_550)),
];

/// Whether the leaf of version 1 is opened in fewer than `CALLS` device calls, becomes one of version 2, and both
/// messages are read.
fn is_migrated(alloc: Global, leaf: &[u8]) -> Option<bool> {
    let mut disk = disk_of(alloc, [b"", leaf, b""], &[])?;
    disk.stop_at(CALLS);
    let disk = after(alloc, disk, OPENED)?;
    let is_so = picked(&disk).starts_with(b"AS4JNL2\n");
    let disk = after(alloc, disk, BOTH)?;
    drop(disk);
    Some(is_so)
}

fn is_read_of_version_1(alloc: Global) -> Option<bool> {
    let leaf = both_in_version_1(alloc)?;
    let is_so = is_migrated(alloc, leaf.as_slice());
    drop(leaf);
    is_so
}

#[test]
fn payloads_are_read_after_version_1_was_opened(rt: HostRuntime) {
    assert_eq!(rt; is_read_of_version_1(rt.alloc()), Some(true));
}

/// A submission has at most 62,914,560 bytes. A larger one makes no device call, and this one makes four.
const SUBMITTED: Steps = &[
    (Step::Stop(0), Said::Done),
    (Step::Submits(62_914_561), Said::TooLarge),
    (Step::Stop(5), Said::Done),
    (Step::Submits(62_914_560), Said::Submitted(0)),
    (Step::Seen, Said::Count(2)),
];

#[test]
fn a_submission_has_62914560_bytes_at_most(rt: HostRuntime) {
    assert_eq!(rt; goes(rt.alloc(), &[SUBMITTED]), Some(true));
}

//! A disk that stops at each device call in turn, and what each pick then opens to.
use crate::desk::{after, after_a_stop, after_opening};
use crate::disks::{EMPTY, OLD_TICK, PENDING, PICKS, Three, disk_of, picked};
use crate::steps::{AT_1000, AT_2000, Said, Step, Steps};
use as4_disk::Pick;
use std::alloc::Global;

const TWO: Steps = &[
    (Step::Tick(1000), Said::Ticked(0)),
    (Step::Tick(2000), Said::Ticked(0)),
];

/// How many bytes the leaf has that is picked once a fold of two ticks was stopped at that call, where the clock is right.
fn size_after(alloc: Global, call: u64, pick: Pick) -> Option<usize> {
    let disk = disk_of(alloc, EMPTY, &[])?;
    let disk = after_a_stop(alloc, disk, TWO, Step::Checkpoint, call, pick)?;
    let disk = after(alloc, disk, AT_2000)?;
    let size = picked(&disk).len();
    drop(disk);
    Some(size)
}

/// The fold of 29 bytes counts once the selector may be written, else the two ticks do with their 49.
fn size_of(call: u64, pick: Pick) -> usize {
    match pick {
        Pick::Old => 49,
        Pick::New | Pick::Other => { if call < 6 { 49 } else { 29 } }
    }
}

/// The first of the seven device calls of a fold at which a stop leaves anything else.
fn first_other_fold(alloc: Global) -> Option<u64> {
    for call in 1..=7 {
        for pick in &PICKS {
            if size_after(alloc, call, *pick) != Some(size_of(call, *pick)) {
                return Some(call);
            }
        }
    }
    None
}

#[test]
fn a_stop_in_a_fold_leaves_the_records_or_the_fold(rt: HostRuntime) {
    assert_eq!(rt; first_other_fold(rt.alloc()), None);
}

const CAME: Steps = &[
    (Step::Read(0), Said::Entry),
    (Step::Came, Said::Receipt),
    (Step::Inbox, Said::Count(1)),
    (Step::Read(0), Said::Entry),
];

const COMES_YET: Steps = &[
    (Step::Read(0), Said::NoEntry),
    (Step::Came, Said::Receipt),
    (Step::Inbox, Said::Count(1)),
    (Step::Read(0), Said::Entry),
];

/// The message has come where the record's gate was written and reads so.
fn steps_after(call: u64, pick: Pick) -> Steps {
    match pick {
        Pick::New => { if call < 3 { COMES_YET } else { CAME } }
        Pick::Old | Pick::Other => COMES_YET,
    }
}

/// Whether a stop at that call, while the message comes, leaves what the steps say.
fn is_so_after(alloc: Global, call: u64, pick: Pick) -> Option<bool> {
    let disk = disk_of(alloc, EMPTY, &[])?;
    let disk = after_a_stop(alloc, disk, &[], Step::Came, call, pick)?;
    let disk = after(alloc, disk, steps_after(call, pick))?;
    drop(disk);
    Some(true)
}

/// The first of the four device calls of a record at which a stop leaves anything else.
fn first_other_record(alloc: Global) -> Option<u64> {
    for call in 1..=4 {
        for pick in &PICKS {
            if is_so_after(alloc, call, *pick) != Some(true) {
                return Some(call);
            }
        }
    }
    None
}

#[test]
fn a_stop_in_a_record_leaves_it_whole_or_not_at_all(rt: HostRuntime) {
    assert_eq!(rt; first_other_record(rt.alloc()), None);
}

/// A store whose clock stands at 1,000, however opening it is stopped. A gate of 0x37 becomes none of 1 by any pick.
struct Row {
    what: &'static str,
    store: Three,
}

static ROWS: [Row; 3] = [
    Row {
        what: "a journal of version 1",
        store: [b"", &OLD_TICK, b""],
    },
    Row {
        what: "a journal of version 1 whose closed gate is 0x37",
        store: [
            b"",
            b"AS4JNL1\n\x01\0\0\0\x0b\0\x01\x02\0\0\0\0\0\0\x03\xe8\x37",
            b"junk",
        ],
    },
    Row {
        what: "a pending record",
        store: [b"", &PENDING, b""],
    },
];

/// No opening of these makes so many device calls.
const CALLS: u64 = 40;

/// Whether the clock stands at 1,000 after a stop at that call.
fn is_opened_after(alloc: Global, store: Three, call: u64, pick: Pick) -> Option<bool> {
    let disk = disk_of(alloc, store, &[])?;
    let disk = after_opening(alloc, disk, call, pick)?;
    let disk = after(alloc, disk, AT_1000)?;
    drop(disk);
    Some(true)
}

fn first_other_row(alloc: Global) -> Option<(&'static str, u64)> {
    for row in &ROWS {
        for call in 0..=CALLS {
            for pick in &PICKS {
                if is_opened_after(alloc, row.store, call, *pick) != Some(true) {
                    return Some((row.what, call));
                }
            }
        }
    }
    None
}

#[test]
fn a_stop_in_opening_leaves_the_records(rt: HostRuntime) {
    assert_eq!(rt; first_other_row(rt.alloc()), None);
}

//! A disk that stops at each device call in turn, and what each pick then opens to.
ghost use Rattle.std.specs.Prelude.{◌≤◌, length};

use crate::ready::{fold_to_one, open_all};
use crate::steps::{PICKS, Three, disk_of, opens_to};
use as4_disk::{MemoryDisk, Pick};
use journal::{Frame, Journal, JournalFault};
use std::alloc::Global;

/// A store with a pending record `new` behind the record `old`.
const PENDING: Three = [
    b"",
    b"AS4JNL2\n\x01\0\0\0\0\0\0\0\x03old\x37\0\0\0\0\0\0\0\x03new\0",
    b"junk",
];

/// A store with the record `old`.
const OLD: Three = [b"", b"AS4JNL2\n\x01\0\0\0\0\0\0\0\x03old\0", b"junk"];

/// Opens a store on a disk that stops, appends a record, and gives the disk back.
fn appended(alloc: Global, disk: MemoryDisk, frame: &Frame) -> MemoryDisk {
    let mut found = Vec::new(alloc);
    let opened = open_all(alloc, disk, &mut found);
    drop(found);
    match opened {
        Ok(mut journal) => {
            if journal.version() == 2 {
                let _ = journal.append(frame);
            }
            journal.into_disk()
        }
        Err(disk) => disk,
    }
}

#[derive(Clone, Copy)]
enum Work {
    Append,
    Fold,
}

/// What is done to a store, what a crash may leave of it, and what is there at the end.
struct Row {
    what: &'static str,
    store: Three,
    work: Work,
    left: [&'static [u8]; 3],
    done: &'static [u8],
}

static ROWS: [Row; 4] = [
    Row {
        what: "a record behind another",
        store: OLD,
        work: Work::Append,
        left: [b"old|", b"old|add|", b"old|add|"],
        done: b"old|add|",
    },
    Row {
        what: "a record over a pending one",
        store: PENDING,
        work: Work::Append,
        left: [b"old|", b"old|new|", b"old|add|"],
        done: b"old|add|",
    },
    Row {
        what: "a record in a new journal",
        store: [b"", b"777", b""],
        work: Work::Append,
        left: [b"", b"add|", b"add|"],
        done: b"add|",
    },
    Row {
        what: "a fold",
        store: OLD,
        work: Work::Fold,
        left: [b"old|", b"add|", b"add|"],
        done: b"add|",
    },
];

/// A record with this body, which is written where it is to stand.
fn frame_in_place(alloc: Global, body: &[u8]) -> Option<Frame>
    requires { length body.now ≤ 100 }
{
    let mut bytes = Frame::begin(alloc, body.len()).ok()?;
    bytes.extend_from_slice(body).ok()?;
    Frame::end(bytes).ok()
}

/// Does the work on a disk that stops at that call, and gives it back as a crash leaves it by the pick.
fn crashed(alloc: Global, row: &Row, stop: u64, pick: Pick) -> Option<MemoryDisk> {
    let mut disk = disk_of(alloc, row.store)?;
    disk.stop_at(stop);
    let Some(frame) = frame_in_place(alloc, b"add") else {
        drop(disk);
        return None;
    };
    let disk = match row.work {
        Work::Append => appended(alloc, disk, &frame),
        Work::Fold => fold_to_one(alloc, disk, &frame),
    };
    drop(frame);
    disk.crash(pick).ok()
}

/// Whether a crash at that call leaves one of the three lists of records.
fn leaves_so(alloc: Global, row: &Row, stop: u64, pick: Pick) -> bool {
    row.left.iter().any(|bodies| match crashed(alloc, row, stop, pick) {
        Some(disk) => opens_to(alloc, disk, bodies),
        None => false,
    })
}

/// No work of these makes so many device calls.
const CALLS: u64 = 40;

/// The first row and call at which some pick leaves anything else.
fn first_other_stop(alloc: Global) -> Option<(&'static str, u64)> {
    for row in &ROWS {
        for stop in 0..CALLS {
            for pick in &PICKS {
                if !leaves_so(alloc, row, stop, *pick) {
                    return Some((row.what, stop));
                }
            }
        }
        for pick in &PICKS {
            let is_done = match crashed(alloc, row, CALLS, *pick) {
                Some(disk) => opens_to(alloc, disk, row.done),
                None => false,
            };
            if !is_done {
                return Some((row.what, CALLS));
            }
        }
    }
    None
}

#[test]
fn a_stop_leaves_the_records_with_the_new_one_or_without(rt: HostRuntime) {
    assert_eq!(rt; first_other_stop(rt.alloc()), None);
}

/// Whether a journal that is stopped makes no device call, and says so with the disk's counts.
fn stops_at_once(alloc: Global) -> Option<bool> {
    let disk = disk_of(alloc, OLD)?;
    match Journal::open(alloc, disk) {
        Ok(mut journal) => {
            journal.stop_at(0);
            let fault = journal.next_record(alloc);
            let is_so = match fault {
                Err(JournalFault::Disk { before, after }) => before == 0 && after == 1,
                Ok(next) => {
                    drop(next);
                    false
                }
                Err(_) => false,
            };
            drop(journal);
            Some(is_so)
        }
        Err((_, disk)) => {
            drop(disk);
            None
        }
    }
}

#[test]
fn a_stopped_journal_gives_the_counts(rt: HostRuntime) {
    assert_eq!(rt; stops_at_once(rt.alloc()), Some(true));
}

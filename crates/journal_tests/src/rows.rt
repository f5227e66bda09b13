//! Leaves as bytes that were typed by hand, and what they open to.
use crate::ready::open_all;
use crate::steps::{Three, disk_of, opens_to};
use as4_disk::Part;
use journal::{Frame, Journal, JournalFault, LeafRefusal, leaf_records};
use std::alloc::Global;

/// A tick to 1,000, as a body of 11 bytes.
const TICK: [u8; 11] = [0, 1, 2, 0, 0, 0, 0, 0, 0, 3, 0xe8];

const ONE_TICK: [u8; 25] = *b"AS4JNL1\n\x01\0\0\0\x0b\0\x01\x02\0\0\0\0\0\0\x03\xe8\0";

const OPEN_END: [u8; 25] = *b"AS4JNL1\n\x01\0\0\0\x0b\0\x01\x02\0\0\0\0\0\0\x03\xe8\x37";

const TWO_TICKS: [u8; 29] = *b"AS4JNL2\n\x01\0\0\0\0\0\0\0\x0b\0\x01\x02\0\0\0\0\0\0\x03\xe8\0";

/// What a store opens to, or where it is no journal.
struct Row {
    what: &'static str,
    store: Three,
    answer: Result<(u8, u64, &'static [u8]), u64>,
}

static ROWS: [Row; 8] = [
    Row {
        what: "nothing is a new journal",
        store: [b"", b"", b""],
        answer: Ok((2, 9, b"")),
    },
    Row {
        what: "nine bytes are a new journal",
        store: [b"", b"777777777", b""],
        answer: Ok((2, 9, b"")),
    },
    Row {
        what: "ten bytes without a magic are no journal",
        store: [b"", b"7777777777", b""],
        answer: Err(0),
    },
    Row {
        what: "a record of version 1",
        store: [b"", &ONE_TICK, b""],
        answer: Ok((1, 25, b"\0\x01\x02\0\0\0\0\0\0\x03\xe8|")),
    },
    Row {
        what: "a gate of 0x37 is closed",
        store: [b"", &OPEN_END, b""],
        answer: Ok((1, 25, b"\0\x01\x02\0\0\0\0\0\0\x03\xe8|")),
    },
    Row {
        what: "a record of version 2 in the leaf that is picked",
        store: [b"\x37", b"", &TWO_TICKS],
        answer: Ok((2, 29, b"\0\x01\x02\0\0\0\0\0\0\x03\xe8|")),
    },
    Row {
        what: "an even selector picks leaf 0",
        store: [b"\x02\x01", b"", &TWO_TICKS],
        answer: Ok((2, 9, b"")),
    },
    Row {
        what: "a record that passes the leaf's end",
        store: [b"", b"AS4JNL1\n\x01\0\0\0\x02ab", b""],
        answer: Err(8),
    },
];

/// Where the store is no journal.
fn broken_at(alloc: Global, store: Three) -> Option<u64> {
    let disk = disk_of(alloc, store)?;
    let mut journal = match Journal::open(alloc, disk) {
        Ok(journal) => journal,
        Err((fault, disk)) => {
            drop(disk);
            return place_of(fault);
        }
    };
    let place = match journal.next_record(alloc) {
        Ok(next) => {
            drop(next);
            None
        }
        Err(fault) => place_of(fault),
    };
    drop(journal);
    place
}

fn place_of(fault: JournalFault) -> Option<u64> {
    match fault {
        JournalFault::NotJournal { at } => Some(at),
        _ => None,
    }
}

/// The version and the size that the store opens to, where its bodies are these.
fn opened(alloc: Global, store: Three, bodies: &[u8]) -> Option<(u8, u64)> {
    let disk = disk_of(alloc, store)?;
    let mut found = Vec::new(alloc);
    let answer = match open_all(alloc, disk, &mut found) {
        Ok(journal) => {
            let is_so = found.as_slice() == bodies;
            let answer = is_so.then_some((journal.version(), journal.size()));
            let disk = journal.into_disk();
            // What opening closed stays closed.
            if opens_to(alloc, disk, bodies) {
                answer
            } else {
                None
            }
        }
        Err(disk) => {
            drop(disk);
            None
        }
    };
    drop(found);
    answer
}

fn first_other_row(alloc: Global) -> Option<&'static str> {
    for row in &ROWS {
        let is_so = match row.answer {
            Ok((version, size, bodies)) => {
                opened(alloc, row.store, bodies) == Some((version, size))
            }
            Err(at) => broken_at(alloc, row.store) == Some(at),
        };
        if !is_so {
            return Some(row.what);
        }
    }
    None
}

#[test]
fn stores_open_as_told(rt: HostRuntime) {
    assert_eq!(rt; first_other_row(rt.alloc()), None);
}

/// Whether a tick that is appended to a new journal gives these 29 bytes, its gate at 8, and its body back.
fn appends_so(alloc: Global) -> Option<bool> {
    let disk = disk_of(alloc, [b"", b"", b""])?;
    let mut found = Vec::new(alloc);
    let opened = open_all(alloc, disk, &mut found);
    drop(found);
    match (opened, Frame::of(alloc, &[0; 11])) {
        (Ok(mut journal), Ok(mut frame)) => {
            if frame.body_len() == 11 {
                frame.fill(&TICK);
            }
            let gate = if journal.version() == 2 {
                journal.append(&frame).ok()
            } else {
                None
            };
            drop(frame);
            journal.fold_drop();
            let body = journal.fetch(alloc, 8).ok()?;
            let is_body = body.bytes() == TICK.as_slice();
            drop(body);
            let size = journal.size();
            let disk = journal.into_disk();
            let is_leaf = disk.bytes(Part::Leaf0) == TWO_TICKS.as_slice();
            drop(disk);
            Some(gate == Some(8) && is_body && size == 29 && is_leaf)
        }
        (opened, frame) => {
            drop(opened);
            drop(frame);
            None
        }
    }
}

#[test]
fn an_appended_tick_has_29_bytes(rt: HostRuntime) {
    assert_eq!(rt; appends_so(rt.alloc()), Some(true));
}

/// Whether the 29 bytes have the tick as their one record, and a record that passes the end is told at its gate.
fn lists_so(alloc: Global) -> Option<bool> {
    let bodies = leaf_records(alloc, &TWO_TICKS).ok()?;
    let is_tick = match bodies.items() {
        [body] => body.bytes() == TICK.as_slice(),
        _ => false,
    };
    drop(bodies);
    let is_broken = match leaf_records(alloc, b"AS4JNL1\n\x01\0\0\0\x02ab") {
        Err(LeafRefusal::NotJournal { at }) => at == 8,
        Err(LeafRefusal::NoMemory) => false,
        Ok(bodies) => {
            drop(bodies);
            false
        }
    };
    Some(is_tick && is_broken)
}

#[test]
fn the_records_of_a_leaf_in_memory(rt: HostRuntime) {
    assert_eq!(rt; lists_so(rt.alloc()), Some(true));
}

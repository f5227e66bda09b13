//! Stores that no office opens.
use crate::desk::Desk;
use crate::disks::{Three, disk_of};
use journal::JournalFault;
use std::alloc::Global;

/// A store, and the place at which it is no journal.
struct Row {
    what: &'static str,
    store: Three,
    at: u64,
}

static ROWS: [Row; 8] = [
    Row {
        what: "ten bytes without a magic",
        store: [b"", b"7777777777", b""],
        at: 0,
    },
    Row {
        what: "a try of a submission that there isn't",
        store: [
            b"",
            b"AS4JNL2\n\x01\0\0\0\0\0\0\0\x0b\0\x01\x03\0\0\0\0\0\0\0\0\0",
            b"",
        ],
        at: 8,
    },
    Row {
        what: "a body of no effects",
        store: [b"", b"AS4JNL2\n\x01\0\0\0\0\0\0\0\x03\0\x01\x63\0", b""],
        at: 8,
    },
    Row {
        what: "a length that passes the leaf's end",
        store: [
            b"",
            b"AS4JNL2\n\x01\0\0\0\0\0\0\0\x0c\0\x01\x02\0\0\0\0\0\0\x03\xe8\0",
            b"",
        ],
        at: 8,
    },
    Row {
        what: "a tick to the same moment",
        store: [
            b"",
            b"AS4JNL2\n\x01\0\0\0\0\0\0\0\x0b\0\x01\x02\0\0\0\0\0\0\x03\xe8\x01\0\0\0\0\0\0\0\x0b\0\x01\x02\0\0\0\0\0\0\x03\xe8\0",
            b"",
        ],
        at: 28,
    },
    Row {
        what: "a tick to an earlier moment",
        store: [
            b"",
            b"AS4JNL2\n\x01\0\0\0\0\0\0\0\x0b\0\x01\x02\0\0\0\0\0\0\x03\xe8\x01\0\0\0\0\0\0\0\x0b\0\x01\x02\0\0\0\0\0\0\x03\xe7\0",
            b"",
        ],
        at: 28,
    },
    Row {
        what: "a length that passes the leaf's end behind a tick",
        store: [
            b"",
            b"AS4JNL2\n\x01\0\0\0\0\0\0\0\x0b\0\x01\x02\0\0\0\0\0\0\x03\xe8\x01\0\0\0\0\0\0\0\x01\0",
            b"",
        ],
        at: 28,
    },
    Row {
        what: "a tick to the same moment, in version 1",
        store: [
            b"",
            b"AS4JNL1\n\x01\0\0\0\x0b\0\x01\x02\0\0\0\0\0\0\x03\xe8\x01\0\0\0\x0b\0\x01\x02\0\0\0\0\0\0\x03\xe8\0",
            b"",
        ],
        at: 24,
    },
];

/// Why the store isn't opened.
fn refusal(alloc: Global, store: Three) -> Option<JournalFault> {
    let disk = disk_of(alloc, store, &[])?;
    match Desk::open(alloc, disk) {
        Ok(desk) => {
            drop(desk);
            None
        }
        Err((fault, disk)) => {
            drop(disk);
            Some(fault)
        }
    }
}

fn first_other_row(alloc: Global) -> Option<&'static str> {
    for row in &ROWS {
        if refusal(alloc, row.store) != Some(JournalFault::NotJournal { at: row.at }) {
            return Some(row.what);
        }
    }
    None
}

#[test]
fn no_office_opens_on_what_is_no_journal_of_an_end(rt: HostRuntime) {
    assert_eq!(rt; first_other_row(rt.alloc()), None);
}

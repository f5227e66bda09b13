//! Audits and relayings over hosts in memory.

use crate::ended::{NOTHING_FAILS, WRITE_FAILS, Wanted, begins_over, end_over, host_of, words_of};
use as4_host::MemoryHost;
use as4_values::Octets;
use std::alloc::Global;

/// A mode that pushes.
const MODES: &[u8] = b"[[mode]]
name = \"invoice\"
from = { role = \"seller\", party = [ { id = \"acme\" } ] }
to = { role = \"buyer\", party = [ { id = \"bolt\" } ] }
service = \"orders\"
action = \"invoice\"
push = \"http://h:1/\"
retries = 10
period = 3000
";

/// A leaf of the clock, set to 1,000.
const TICKED: &[u8] = b"AS4JNL2\n\x01\0\0\0\0\0\0\0\x0b\0\x01\x02\0\0\0\0\0\0\x03\xe8\0";

/// A leaf of a try of the first submission, of which there is none.
const TRIED: &[u8] = b"AS4JNL2\n\x01\0\0\0\0\0\0\0\x0b\0\x01\x03\0\0\0\0\0\0\0\0\0";

/// A leaf of a handler by these modes: it has received two messages, of one payload each.
const RECEIVED: &[u8] =
    b"AS4JNL2\n\x01\0\0\0\0\0\0\0\x0b\0\x01\x02\0\0\x01\xa25\x80\x95\xf1\x01\0\0\0\0\0\0\0\x0b\0\x01\x02\0\0\x01\xa25\x80\x99\xdc\x01\0\0\0\0\0\0\x01!\0\x01\x04\0\0\0\0\x182026-12-02T06:45:50.146Z\0\0\0*0.c684fddb-80fe-da48-505b-571c7382df5c@as4\0\0\0\0\x01\0\0\0\x04acme\0\0\0\0\x06seller\0\0\0\x01\0\0\0\x04bolt\0\0\0\0\x05buyer\0\0\0\0\x06orders\0\0\0\0\x07invoice\x01\0\0\0\x01c\0\0\0\0\0\0\0\x01\x01\0\0\00cid:1.0.c684fddb-80fe-da48-505b-571c7382df5c@as4\0\0\0\0\0\0\0\x01\0\0\0,1.0.c684fddb-80fe-da48-505b-571c7382df5c@as4\0\0\0\ntext/plain\0\0\0\x01x\x01\0\0\0\0\0\0\x01\x1d\0\x01\x04\0\0\0\0\x182026-12-02T06:45:50.149Z\0\0\0*1.7bb0e674-f0a9-7b7a-8e68-0b6372d24047@as4\0\0\0\0\x01\0\0\0\x04acme\0\0\0\0\x06seller\0\0\0\x01\0\0\0\x04bolt\0\0\0\0\x05buyer\0\0\0\0\x06orders\0\0\0\0\x07invoice\0\0\0\0\0\0\0\0\x01\x01\0\0\00cid:1.1.7bb0e674-f0a9-7b7a-8e68-0b6372d24047@as4\0\0\0\0\0\0\0\x01\0\0\0,1.1.7bb0e674-f0a9-7b7a-8e68-0b6372d24047@as4\0\0\0\ntext/plain\0\0\0\x02yz\x01\0\0\0\0\0\0\0\x0b\0\x01\x02\0\0\x01\xa25\x80\x9d\xcd\0";

/// The files of a host, the number of its call that fails, the words, and how the run ends.
#[derive(Clone, Copy)]
struct Row {
    modes: &'static [u8],
    leaf: &'static [u8],
    second: &'static [u8],
    selector: &'static [u8],
    failing: u64,
    line: &'static str,
    wanted: Wanted<'static>,
}

/// An audit of no files but that of the modes.
const AUDIT: Row = Row {
    modes: MODES,
    leaf: b"",
    second: b"",
    selector: b"",
    failing: 0,
    line: "audit modes j",
    wanted: (0, b"yes 0\n", b""),
};

/// A relaying of a journal that is new.
const RELAY: Row = Row {
    line: "relay modes j invoice 10",
    wanted: (0, b"", b""),
    ..AUDIT
};

const ROWS: [Row; 19] = [
    AUDIT,
    Row {
        leaf: TICKED,
        wanted: (0, b"ticked 1000\nyes 1\n", b""),
        ..AUDIT
    },
    Row {
        leaf: TRIED,
        wanted: (1, b"no 0\n", b""),
        ..AUDIT
    },
    Row {
        leaf: TRIED,
        second: TICKED,
        selector: b"\x01",
        wanted: (0, b"ticked 1000\nyes 1\n", b""),
        ..AUDIT
    },
    Row {
        leaf: TRIED,
        second: TICKED,
        selector: b"\x02",
        wanted: (1, b"no 0\n", b""),
        ..AUDIT
    },
    Row {
        leaf: b"7777777777",
        wanted: (10, b"", b"not a journal at 0\n"),
        ..AUDIT
    },
    Row {
        modes: b"[[",
        wanted: (8, b"", b"modes refused\n"),
        ..AUDIT
    },
    Row {
        failing: 1,
        wanted: (9, b"", b"host fault\n"),
        ..AUDIT
    },
    Row {
        failing: 2,
        wanted: (9, b"", b"host fault\n"),
        ..AUDIT
    },
    Row {
        line: "audit nowhere j",
        wanted: (8, b"", b"modes refused\n"),
        ..AUDIT
    },
    RELAY,
    Row {
        leaf: TICKED,
        ..RELAY
    },
    Row {
        leaf: b"7777777777",
        wanted: (10, b"", b"not a journal at 0\n"),
        ..RELAY
    },
    Row {
        modes: b"[[",
        wanted: (8, b"", b"modes refused\n"),
        ..RELAY
    },
    Row {
        failing: 1,
        wanted: (9, b"", b"host fault\n"),
        ..RELAY
    },
    Row {
        line: "relay modes j none 0",
        ..RELAY
    },
    Row {
        leaf: RECEIVED,
        wanted: (
            0,
            b"relayed 0 0.00000000-0000-0000-0000-000000000000@as4
relayed 1 1.00000000-0000-0000-0000-000000000001@as4\n",
            b"",
        ),
        ..RELAY
    },
    Row {
        leaf: RECEIVED,
        line: "relay modes j invoice 1",
        wanted: (
            0,
            b"relayed 0 0.00000000-0000-0000-0000-000000000000@as4\n",
            b"",
        ),
        ..RELAY
    },
    Row {
        leaf: RECEIVED,
        line: "relay modes j none 1",
        wanted: (14, b"", b"no mode\n"),
        ..RELAY
    },
];

/// A host with the files of a row.
fn host_with(alloc: Global, row: &Row) -> Option<MemoryHost> {
    let mut host = host_of(alloc, &[])?;
    host.fail_at(vec![in alloc; row.failing].ok()?);
    for (path, file) in [
        ("modes", row.modes),
        ("j", row.leaf),
        ("j.1", row.second),
        ("j.s", row.selector),
    ] {
        if !file.is_empty() {
            host.put_file(path, Octets::of(file.to_vec(alloc).ok()?))
                .ok()?;
        }
    }
    Some(host)
}

/// Whether the run of a row ends as it says.
fn ends(alloc: Global, row: &Row) -> Option<bool> {
    let mut host = host_with(alloc, row)?;
    let words = words_of(alloc, row.line).ok()?;
    Some(end_over(alloc, &words, b"", NOTHING_FAILS, &mut host, row.wanted))
}

/// The first row with another end.
fn first_other(alloc: Global, rows: &[Row]) -> Option<usize> {
    for (at, row) in rows.iter().enumerate() {
        if ends(alloc, row) != Some(true) {
            return Some(at);
        }
    }
    None
}

#[test]
fn a_journal_is_audited_and_relayed(rt: HostRuntime) {
    assert_eq!(rt; first_other(rt.alloc(), &ROWS), None);
}

/// Whether an audit whose output fails ends with that.
fn tells_a_write_fault(alloc: Global) -> Option<bool> {
    let mut host = host_with(alloc, &AUDIT)?;
    let words = words_of(alloc, AUDIT.line).ok()?;
    Some(end_over(
        alloc,
        &words,
        b"",
        WRITE_FAILS,
        &mut host,
        (4, b"", b"write fault\n"),
    ))
}

#[test]
fn an_audit_tells_that_the_output_failed(rt: HostRuntime) {
    assert_eq!(rt; tells_a_write_fault(rt.alloc()), Some(true));
}

/// Whether the drawing of this leaf is one, with this status.
fn is_drawn(alloc: Global, leaf: &'static [u8], status: u8) -> Option<bool> {
    let mut host = host_with(alloc, &Row { leaf, ..AUDIT })?;
    let words = words_of(alloc, "audit --draw modes j").ok()?;
    Some(begins_over(alloc, &words, b"", &mut host, (status, b"<svg ", b"")))
}

#[test]
fn a_right_journal_is_drawn(rt: HostRuntime) {
    assert_eq!(rt; is_drawn(rt.alloc(), TICKED, 0), Some(true));
}

#[test]
fn a_wrong_journal_is_drawn_up_to_its_wrong_record(rt: HostRuntime) {
    assert_eq!(rt; is_drawn(rt.alloc(), TRIED, 1), Some(true));
}

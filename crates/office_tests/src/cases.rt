//! What is said to steps, what the disk has then, and what is said once the office is opened again.
use crate::desk::{NEVER, after};
use crate::disks::{
    CLOSED, EMPTY, NEW_LEAF, OLD_TICK, PENDING, TICK_1000, TICK_2000, TWO_TICKS, Three, disk_of,
    picked,
};
use crate::steps::{AT_1000, AT_2000, FAILED, STOPPED, Said, Step, Steps};
use as4_disk::{MemoryDisk, Part};
use as4_values::Severity;
use std::alloc::Global;

/// What a disk has.
#[derive(Clone, Copy)]
enum Left {
    /// This selector and these bytes in the leaf that it picks.
    Has(&'static [u8], &'static [u8]),
    Anything,
}

struct Case {
    what: &'static str,
    store: Three,
    /// The numbers of the device calls that fail.
    failing: &'static [u64],
    steps: Steps,
    left: Left,
    /// What is said once the office is opened again on that disk.
    again: Steps,
}

const TWO: Steps = &[
    (Step::Checkpoint, Said::Count(9)),
    (Step::Tick(1000), Said::Ticked(0)),
    (Step::Tick(2000), Said::Ticked(0)),
    (Step::Seen, Said::Count(2)),
];

/// Nothing waits in the channel: the answer warns. There is no other channel. Neither is written to the journal.
const PULLS: Steps = &[
    (Step::Stop(0), Said::Done),
    (Step::Pulled(b"c"), Said::Error(Severity::Warning)),
    (Step::Pulled(b"x"), Said::Error(Severity::Failure)),
    (Step::Seen, Said::Count(2)),
];

const FOLDED: Steps = &[
    (Step::Tick(1000), Said::Ticked(0)),
    (Step::Tick(2000), Said::Ticked(0)),
    (Step::Checkpoint, Said::Count(29)),
    (Step::Seen, Said::Count(3)),
    (Step::Share, Said::Count(3)),
    // Nothing is done and nothing entered.
    (Step::Stop(1), Said::Done),
    (Step::Checkpoint, Said::Count(29)),
    (Step::Seen, Said::Count(3)),
    (Step::Share, Said::Count(3)),
    (Step::Show, Said::Done),
    (Step::Seen, Said::Count(3)),
];

/// A fold of one record makes seven device calls.
const SEVEN_CALLS: Steps = &[
    (Step::Tick(1000), Said::Ticked(0)),
    (Step::Tick(2000), Said::Ticked(0)),
    (Step::Stop(8), Said::Done),
    (Step::Checkpoint, Said::Count(29)),
];

/// The message that came is read, which reads the disk, and comes again.
const CAME: Steps = &[
    (Step::Read(0), Said::Entry),
    (Step::Stop(0), Said::Done),
    (Step::Read(1), Said::NoEntry),
    (Step::Came, Said::Receipt),
    (Step::Inbox, Said::Count(1)),
];

/// The message comes in four device calls. Then only a `Read` of it makes any.
const COMES: Steps = &[
    (Step::Read(0), Said::NoEntry),
    (Step::Stop(5), Said::Done),
    (Step::Came, Said::Receipt),
    (Step::Inbox, Said::Count(1)),
    (Step::Came, Said::Receipt),
    (Step::Confirm(1), Said::NoEntry),
    // Its fold has the same 150 bytes: 9, and 141 of the record.
    (Step::Checkpoint, Said::Count(150)),
    (Step::Stop(NEVER), Said::Done),
    (Step::Read(0), Said::Entry),
    (Step::Seen, Said::Count(5)),
];

const TAKEN_OVER: Steps = &[
    (Step::Came, Said::Receipt),
    (Step::Confirm(0), Said::Confirmed(0)),
    (Step::Read(0), Said::Gone),
    (Step::Confirm(0), Said::Gone),
    // Of 170 bytes there are 146 left: 9, and 137 of the record of what is kept of it.
    (Step::Checkpoint, Said::Count(146)),
    (Step::Inbox, Said::Count(1)),
    (Step::Read(0), Said::Gone),
    (Step::Came, Said::Receipt),
    (Step::Inbox, Said::Count(1)),
];

/// The message that comes again is answered without a device call.
const GONE: Steps = &[
    (Step::Stop(0), Said::Done),
    (Step::Read(0), Said::Gone),
    (Step::Came, Said::Receipt),
    (Step::Inbox, Said::Count(1)),
    (Step::Confirm(0), Said::Gone),
    (Step::Read(1), Said::NoEntry),
];

static CASES: [Case; 11] = [
    Case {
        what: "a new office",
        store: EMPTY,
        failing: &[],
        steps: &[
            (Step::Checkpoint, Said::Count(9)),
            (Step::Seen, Said::Count(0)),
        ],
        left: Left::Has(b"", &NEW_LEAF),
        again: &[(Step::Inbox, Said::Count(0))],
    },
    Case {
        what: "nine bytes without a magic",
        store: [b"", b"777777777", b""],
        failing: &[],
        steps: &[(Step::Checkpoint, Said::Count(9))],
        left: Left::Has(b"", &NEW_LEAF),
        again: &[(Step::Checkpoint, Said::Count(9))],
    },
    Case {
        what: "pull requests that give nothing",
        store: EMPTY,
        failing: &[],
        steps: PULLS,
        left: Left::Has(b"", &NEW_LEAF),
        again: &[(Step::Checkpoint, Said::Count(9))],
    },
    Case {
        what: "two ticks",
        store: EMPTY,
        failing: &[],
        steps: TWO,
        left: Left::Has(b"", &TWO_TICKS),
        again: AT_2000,
    },
    Case {
        what: "two ticks that are folded",
        store: EMPTY,
        failing: &[],
        steps: FOLDED,
        left: Left::Has(b"\x01", &TICK_2000),
        again: AT_2000,
    },
    Case {
        what: "a fold that ends before the disk stops",
        store: EMPTY,
        failing: &[],
        steps: SEVEN_CALLS,
        left: Left::Has(b"\x01", &TICK_2000),
        again: AT_2000,
    },
    Case {
        what: "a journal of version 1 whose closed gate is 0x37",
        store: [
            b"",
            b"AS4JNL1\n\x01\0\0\0\x0b\0\x01\x02\0\0\0\0\0\0\x03\xe8\x37",
            b"",
        ],
        failing: &[],
        steps: &[(Step::Checkpoint, Said::Count(29))],
        left: Left::Has(b"\x01", &TICK_1000),
        again: AT_1000,
    },
    Case {
        what: "a journal of version 1 in leaf 1",
        store: [b"\x37", b"777", &OLD_TICK],
        failing: &[],
        steps: &[(Step::Checkpoint, Said::Count(29))],
        left: Left::Has(b"\0", &TICK_1000),
        again: AT_1000,
    },
    Case {
        what: "a pending record",
        store: [b"", &PENDING, b""],
        failing: &[],
        steps: &[
            (Step::Stop(0), Said::Done),
            (Step::Tick(1000), Said::Ticked(0)),
            (Step::Checkpoint, Said::Count(29)),
        ],
        left: Left::Has(b"", &CLOSED),
        again: AT_1000,
    },
    Case {
        what: "a message",
        store: EMPTY,
        failing: &[],
        steps: COMES,
        left: Left::Anything,
        again: CAME,
    },
    Case {
        what: "a message that was taken over",
        store: EMPTY,
        failing: &[],
        steps: TAKEN_OVER,
        left: Left::Anything,
        again: GONE,
    },
];

fn has(disk: &MemoryDisk, left: Left) -> bool {
    match left {
        Left::Has(selector, leaf) => {
            disk.bytes(Part::Selector) == selector && picked(disk) == leaf
        }
        Left::Anything => true,
    }
}

/// Whether it goes as told.
fn goes(alloc: Global, case: &Case) -> Option<bool> {
    let disk = after(alloc, disk_of(alloc, case.store, case.failing)?, case.steps)?;
    let is_so = has(&disk, case.left);
    let disk = after(alloc, disk, case.again)?;
    drop(disk);
    Some(is_so)
}

fn first_other_case(alloc: Global, cases: &[Case]) -> Option<&'static str> {
    for case in cases {
        if goes(alloc, case) != Some(true) {
            return Some(case.what);
        }
    }
    None
}

#[test]
fn each_step_is_answered_and_kept(rt: HostRuntime) {
    assert_eq!(rt; first_other_case(rt.alloc(), &CASES), None);
}

/// The disk fails while the message comes, and the office stands still.
const STANDS_STILL: Steps = &[
    (Step::Came, FAILED),
    (Step::Seen, Said::Count(1)),
    (Step::Came, STOPPED),
    (Step::Tick(1000), STOPPED),
    (Step::CameInTwo, STOPPED),
    (Step::Read(0), STOPPED),
    (Step::Confirm(0), STOPPED),
    (Step::Seen, Said::Count(6)),
    (Step::Share, Said::Count(6)),
    (Step::Checkpoint, STOPPED),
    (Step::Seen, Said::Count(6)),
    (Step::Share, Said::Count(6)),
    (Step::Inbox, Said::Count(0)),
    (Step::Show, Said::Done),
    (Step::Seen, Said::Count(6)),
];

/// The message didn't come.
const COMES_YET: Steps = &[
    (Step::Read(0), Said::NoEntry),
    (Step::Came, Said::Receipt),
    (Step::Inbox, Said::Count(1)),
];

/// A tick fails so.
const TICK_FAILS: Steps = &[
    (Step::Tick(1000), FAILED),
    (Step::Tick(1000), STOPPED),
    (Step::Checkpoint, STOPPED),
    (Step::Seen, Said::Count(2)),
];

/// The message came, and the disk fails while the office reads its payloads.
const READ_FAILS: Steps = &[
    (Step::Came, Said::Receipt),
    (Step::Stop(0), Said::Done),
    (Step::Read(0), FAILED),
    (Step::Seen, Said::Count(2)),
    (Step::Read(0), STOPPED),
    (Step::Came, STOPPED),
    (Step::Tick(1000), STOPPED),
    (Step::Checkpoint, STOPPED),
    (Step::Seen, Said::Count(5)),
    (Step::Share, Said::Count(5)),
    (Step::Show, Said::Done),
    (Step::Seen, Said::Count(5)),
];

/// On an empty disk opening makes eight device calls, so those of the first step are the calls 9 to 12: the record with
/// the gate behind it, a sync, its own gate, a sync.
static FAULTS: [Case; 6] = [
    Case {
        what: "the record isn't written",
        store: EMPTY,
        failing: &[9],
        steps: STANDS_STILL,
        left: Left::Has(b"", &NEW_LEAF),
        again: COMES_YET,
    },
    Case {
        what: "the record's gate isn't written",
        store: EMPTY,
        failing: &[11],
        steps: STANDS_STILL,
        left: Left::Anything,
        again: COMES_YET,
    },
    Case {
        what: "the record's gate isn't settled",
        store: EMPTY,
        failing: &[12],
        steps: STANDS_STILL,
        left: Left::Anything,
        again: CAME,
    },
    Case {
        what: "a tick's gate isn't written",
        store: EMPTY,
        failing: &[11],
        steps: TICK_FAILS,
        left: Left::Has(
            b"",
            b"AS4JNL2\n\0\0\0\0\0\0\0\0\x0b\0\x01\x02\0\0\0\0\0\0\x03\xe8\0",
        ),
        again: &[(Step::Checkpoint, Said::Count(9))],
    },
    Case {
        what: "a tick's gate isn't settled",
        store: EMPTY,
        failing: &[12],
        steps: TICK_FAILS,
        left: Left::Has(b"", &TICK_1000),
        again: &[(Step::Checkpoint, Said::Count(29))],
    },
    Case {
        what: "payloads aren't read",
        store: EMPTY,
        failing: &[],
        steps: READ_FAILS,
        left: Left::Anything,
        again: CAME,
    },
];

#[test]
fn an_office_stands_still_once_its_disk_failed(rt: HostRuntime) {
    assert_eq!(rt; first_other_case(rt.alloc(), &FAULTS), None);
}

//! Each sentence of what a disk may do, as what the three picks leave.
use crate::steps::{FIRST, Step, Three, disk_of, leaves, make_all, reads};
use as4_disk::{Disk, Part, Pick};
use std::alloc::Global;

/// Calls, and what each pick leaves after them.
struct Row {
    what: &'static str,
    steps: &'static [Step],
    old: Three,
    new: Three,
    other: Three,
}

static ROWS: [Row; 10] = [
    Row {
        what: "a disk of which nothing was written",
        steps: &[],
        old: FIRST,
        new: FIRST,
        other: FIRST,
    },
    Row {
        what: "a torn write may leave any bytes in its range",
        steps: &[Step::Write(Part::Leaf0, 2, b"CD")],
        old: FIRST,
        new: [b"", b"abCDef", b"xyz"],
        other: [b"", b"ab77ef", b"xyz"],
    },
    Row {
        what: "a write past the end may leave any length between, and any bytes there",
        steps: &[Step::Write(Part::Leaf0, 5, b"FGH")],
        old: FIRST,
        new: [b"", b"abcdeFGH", b"xyz"],
        other: [b"", b"abcde777", b"xyz"],
    },
    Row {
        what: "a cut may come back",
        steps: &[Step::Cut(Part::Leaf0, 2)],
        old: FIRST,
        new: [b"", b"ab", b"xyz"],
        other: FIRST,
    },
    Row {
        what: "what was cut may come back behind a later write",
        steps: &[Step::Cut(Part::Leaf0, 2), Step::Write(Part::Leaf0, 2, b"Z")],
        old: FIRST,
        new: [b"", b"abZ", b"xyz"],
        other: [b"", b"ab7def", b"xyz"],
    },
    Row {
        what: "a sync settles its part and no other",
        steps: &[
            Step::Write(Part::Leaf0, 0, b"A"),
            Step::Write(Part::Leaf1, 0, b"X"),
            Step::Sync(Part::Leaf0),
        ],
        old: [b"", b"Abcdef", b"xyz"],
        new: [b"", b"Abcdef", b"Xyz"],
        other: [b"", b"Abcdef", b"7yz"],
    },
    Row {
        what: "a cut that was synced doesn't come back",
        steps: &[Step::Cut(Part::Leaf0, 0), Step::Sync(Part::Leaf0)],
        old: [b"", b"", b"xyz"],
        new: [b"", b"", b"xyz"],
        other: [b"", b"", b"xyz"],
    },
    Row {
        what: "each write since the last sync may be torn, and none before it",
        steps: &[
            Step::Write(Part::Leaf0, 5, b"F"),
            Step::Sync(Part::Leaf0),
            Step::Write(Part::Leaf0, 1, b"B"),
            Step::Write(Part::Leaf0, 0, b"Q"),
        ],
        old: [b"", b"abcdeF", b"xyz"],
        new: [b"", b"QBcdeF", b"xyz"],
        other: [b"", b"77cdeF", b"xyz"],
    },
    Row {
        what: "a write over a write that wasn't synced may leave neither",
        steps: &[
            Step::Write(Part::Leaf1, 3, b"12"),
            Step::Write(Part::Leaf1, 4, b"345"),
        ],
        old: FIRST,
        new: [b"", b"abcdef", b"xyz1345"],
        other: [b"", b"abcdef", b"xyz7777"],
    },
    Row {
        what: "the selector is a part as the leaves are",
        steps: &[Step::Write(Part::Selector, 0, b"1")],
        old: FIRST,
        new: [b"1", b"abcdef", b"xyz"],
        other: [b"7", b"abcdef", b"xyz"],
    },
];

/// Whether a crash after the calls leaves so.
fn left(alloc: Global, steps: &[Step], pick: Pick, three: Three) -> bool {
    let Some(mut disk) = disk_of(alloc, &[]) else {
        return false;
    };
    let _ = make_all(&mut disk, steps);
    leaves(disk, pick, three)
}

fn is_as_told(alloc: Global, row: &Row) -> bool {
    left(alloc, row.steps, Pick::Old, row.old)
        && left(alloc, row.steps, Pick::New, row.new)
        && left(alloc, row.steps, Pick::Other, row.other)
}

/// The first row of which a pick leaves something else.
fn first_other_row(alloc: Global) -> Option<&'static str> {
    for row in &ROWS {
        if !is_as_told(alloc, row) {
            return Some(row.what);
        }
    }
    None
}

#[test]
fn a_crash_leaves_what_the_model_says(rt: HostRuntime) {
    assert_eq!(rt; first_other_row(rt.alloc()), None);
}

/// A record behind a closed gate, and then the gate.
const APPEND: [Step; 4] = [
    Step::Write(Part::Leaf1, 3, b"12"),
    Step::Sync(Part::Leaf1),
    Step::Write(Part::Leaf1, 2, b"Z"),
    Step::Sync(Part::Leaf1),
];

/// The call at which the disk stops, how many calls answered Ok, and what leaf 1 is left as by each pick.
static STOPS: [(u64, u64, [&[u8]; 3]); 6] = [
    (0, 0, [b"xyz", b"xyz", b"xyz"]),
    (1, 0, [b"xyz", b"xyz12", b"xyz77"]),
    (2, 1, [b"xyz", b"xyz12", b"xyz77"]),
    (3, 2, [b"xyz12", b"xyZ12", b"xy712"]),
    (4, 3, [b"xyz12", b"xyZ12", b"xy712"]),
    (5, 4, [b"xyZ12", b"xyZ12", b"xyZ12"]),
];

/// Whether a disk that stops at the call answers so many of the four Ok, counts the others, and leaves so.
fn stops_so(alloc: Global, stop: u64, done: u64, pick: Pick, leaf1: &'static [u8]) -> bool {
    let Some(mut disk) = disk_of(alloc, &[]) else {
        return false;
    };
    disk.stop_at(stop);
    let answered = make_all(&mut disk, &APPEND);
    let is_counted = disk.faults().saturating_add(done) == 4;
    answered == done
        && is_counted
        && !disk.ran_out()
        && leaves(disk, pick, [FIRST[0], FIRST[1], leaf1])
}

/// The first call at which a stop does something else.
fn first_other_stop(alloc: Global) -> Option<u64> {
    for (stop, done, [old, new, other]) in &STOPS {
        let is_so = stops_so(alloc, *stop, *done, Pick::Old, old)
            && stops_so(alloc, *stop, *done, Pick::New, new)
            && stops_so(alloc, *stop, *done, Pick::Other, other);
        if !is_so {
            return Some(*stop);
        }
    }
    None
}

#[test]
fn a_stop_acts_and_then_fails(rt: HostRuntime) {
    assert_eq!(rt; first_other_stop(rt.alloc()), None);
}

/// Whether the first and the third of the four calls fail without acting, and the files are as the others left them.
fn fails_so(alloc: Global) -> Option<bool> {
    let mut disk = disk_of(alloc, &[1, 3])?;
    let answered = make_all(&mut disk, &APPEND);
    let is_so = answered == 2 && disk.faults() == 2 && reads(&disk, FIRST);
    let files = disk.into_files();
    let is_first = files.bytes(Part::Leaf1) == FIRST[2];
    drop(files);
    Some(is_so && is_first)
}

#[test]
fn a_named_call_fails_without_acting(rt: HostRuntime) {
    assert_eq!(rt; fails_so(rt.alloc()), Some(true));
}

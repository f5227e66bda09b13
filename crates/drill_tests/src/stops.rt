//! What the contracts don't cover: that memory suffices. Power failures within a line and between two, and compaction.
use crate::drills::{plays, plays_made, repeated};
use drill::DrillEnd;
use std::alloc::Global;

/// A stopped line: the script before it, the line and the script after it; the text up to the stop, the text after it
/// if the step of the line is lost, and the text after it if the step is durable.
struct Stop {
    front: &'static [u8],
    rest: &'static [u8],
    front_text: &'static [u8],
    gone: &'static [u8],
    stands: &'static [u8],
}

/// One of each kind of line that can be stopped.
const STOPS: [Stop; 5] = [
    Stop {
        front: b"mode m push 3 1000\n",
        rest: b"submit a m hex=61\nstatus a 0\ntake a\n",
        front_text: b"a reopened\n",
        gone: b"a status 0 unknown
a nothing
a end 0 0 0 0 0
b end 0 0 0 0 0
",
        stands: b"a status 0 pending 0
a sent 0 user 0.00000000-0000-0000-0000-000000000000@as4
a end 1 0 0 0 0
b end 0 0 0 0 0
",
    },
    Stop {
        front: b"mode m push 0 1000\nsubmit a m hex=61\ntake a\n",
        rest: b"tick a 1000\nstatus a 0\n",
        front_text: b"a submitted 0 0.00000000-0000-0000-0000-000000000000@as4
a sent 0 user 0.00000000-0000-0000-0000-000000000000@as4
a reopened
",
        gone: b"a status 0 pending 1
a end 1 0 0 0 0
b end 0 0 0 0 0
",
        stands: b"a status 0 failed EBMS:0301
a end 1 0 1 0 0
b end 0 0 0 0 0
",
    },
    Stop {
        front: b"mode m push 3 1000\nsubmit a m hex=61\n",
        rest: b"take a\nstatus a 0\ncame b 0\n",
        front_text: b"a submitted 0 0.00000000-0000-0000-0000-000000000000@as4
a reopened
",
        gone: b"a status 0 pending 0
b no-package
a end 1 0 0 0 0
b end 0 0 0 0 0
",
        stands: b"a status 0 pending 1
b no-package
a end 1 0 0 0 0
b end 0 0 0 0 0
",
    },
    Stop {
        front: b"mode m push 3 1000\nsubmit a m hex=61\ntake a\n",
        rest: b"came b 0\nread b 0\ncame b 0\n",
        front_text: b"a submitted 0 0.00000000-0000-0000-0000-000000000000@as4
a sent 0 user 0.00000000-0000-0000-0000-000000000000@as4
b reopened
",
        gone: b"b no-entry
b sent 0 receipt 0.00000000-0000-0000-0000-000000000000@as4
a end 1 0 0 0 0
b end 0 0 0 0 1
",
        stands: b"b entry 0 0.00000000-0000-0000-0000-000000000000@as4 1 1
b sent 0 receipt 0.00000000-0000-0000-0000-000000000000@as4
a end 1 0 0 0 0
b end 0 0 0 0 1
",
    },
    Stop {
        front: b"mode m push 3 1000\nsubmit a m hex=61\ntake a\ncame b 0\n",
        rest: b"confirm b 0\nread b 0\n",
        front_text: b"a submitted 0 0.00000000-0000-0000-0000-000000000000@as4
a sent 0 user 0.00000000-0000-0000-0000-000000000000@as4
b sent 0 receipt 0.00000000-0000-0000-0000-000000000000@as4
b reopened
",
        gone: b"b entry 0 0.00000000-0000-0000-0000-000000000000@as4 1 1
a end 1 0 0 0 0
b end 0 0 0 0 1
",
        stands: b"b gone
a end 1 0 0 0 0
b end 0 0 0 0 1
",
    },
];

/// A stop at a device call with an image of the disk, in the script's spelling, and whether the step of the line is
/// durable.
const PLACES: [(&[u8], bool); 12] = [
    (b"stop 1 old ", false),
    (b"stop 1 new ", false),
    (b"stop 1 other ", false),
    (b"stop 2 old ", false),
    (b"stop 2 new ", false),
    (b"stop 2 other ", false),
    (b"stop 3 old ", false),
    (b"stop 3 new ", true),
    (b"stop 3 other ", false),
    (b"stop 4 old ", false),
    (b"stop 4 new ", true),
    (b"stop 4 other ", false),
];

fn stops_so(alloc: Global, stop: &Stop, place: &[u8], stands: bool) -> bool {
    let left = if stands { stop.stands } else { stop.gone };
    plays_made(
        alloc,
        repeated(alloc, stop.front, place, 1, stop.rest),
        DrillEnd::Read,
        repeated(alloc, stop.front_text, left, 1, b""),
    )
}

/// The first place with another text.
fn first_other_place(alloc: Global, stop: &Stop) -> Option<usize> {
    for (number, (place, stands)) in PLACES.iter().enumerate() {
        if !stops_so(alloc, stop, place, *stands) {
            return Some(number);
        }
    }
    None
}

fn first_other(alloc: Global) -> Option<(usize, usize)> {
    for (row, stop) in STOPS.iter().enumerate() {
        if let Some(place) = first_other_place(alloc, stop) {
            return Some((row, place));
        }
    }
    None
}

/// A step is durable if its whole record reached the disk and remains there: one of the last two calls took effect, and
/// the image includes all of it.
#[test]
fn each_line_is_stopped_at_each_call(rt: HostRuntime) {
    assert_eq!(rt; first_other(rt.alloc()), None);
}

const NOTHING_TO_WRITE: &[u8] = b"mode m push 3 1000
stop 1 old take a
stop 4 new tick a 0
stop 2 other confirm b 0
stop 1 new came b 0
stop 3 old submit a n hex=61
submit a m hex=61
";

const NOTHING_TO_WRITE_TEXT: &[u8] = b"a reopened
a reopened
b reopened
b no-package
a reopened
a submitted 0 0.00000000-0000-0000-0000-000000000004@as4
a end 1 0 0 0 0
b end 0 0 0 0 0
";

/// A line that writes nothing to the disk ends before the power failure. Each such line makes an event, except one
/// whose package doesn't exist: that is reported, and nothing is stopped.
#[test]
fn a_line_that_writes_nothing_is_stopped_behind_it(rt: HostRuntime) {
    assert!(rt;
        plays(
            rt.alloc(),
            NOTHING_TO_WRITE,
            DrillEnd::Read,
            NOTHING_TO_WRITE_TEXT
        )
    );
}

const CRASHES: &[u8] = b"crash b
mode m push 3 1000
";

/// No mode may follow a power failure.
#[test]
fn modes_come_before_a_crash(rt: HostRuntime) {
    let end = DrillEnd::Line { number: 2 };
    assert!(rt; plays(rt.alloc(), CRASHES, end, b"b reopened\n"));
}

const BOTH_CRASH: &[u8] = b"mode m push 3 1000
submit a m hex=68656c6c6f
crash a
take a
crash a
crash b
came b 0
crash b
came a 0
crash a
status a 0
read b 0
confirm b 0
crash b
read b 0
came b 0
";

const BOTH_CRASH_TEXT: &[u8] = b"a submitted 0 0.00000000-0000-0000-0000-000000000000@as4
a reopened
a sent 0 user 0.00000000-0000-0000-0000-000000000000@as4
a reopened
b reopened
b sent 0 receipt 0.00000000-0000-0000-0000-000000000000@as4
b reopened
a quiet
a reopened
a status 0 receipted
b entry 0 0.00000000-0000-0000-0000-000000000000@as4 1 5
b confirmed 0
b reopened
b gone
b sent 1 receipt 0.00000000-0000-0000-0000-000000000000@as4
a end 1 1 0 0 0
b end 0 0 0 0 1
";

/// A reply remains valid, whichever endpoint loses power between two lines.
#[test]
fn a_crash_takes_nothing_back(rt: HostRuntime) {
    assert!(rt; plays(rt.alloc(), BOTH_CRASH, DrillEnd::Read, BOTH_CRASH_TEXT));
}

const FOLDS: &[u8] = b"mode m push 0 1000
tick a 1000
tick a 2000
fold a
fold a
crash a
submit a m hex=61
take a
came b 0
confirm b 0
fold b
crash b
read b 0
came b 0
tick a 2999
fold a
status a 0
tick a 3000
fold a
crash a
status a 0
";

const FOLDS_TEXT: &[u8] = b"a ticked 0
a ticked 0
a folded
a folded
a reopened
a submitted 0 0.00000000-0000-0000-0000-000000000002@as4
a sent 0 user 0.00000000-0000-0000-0000-000000000002@as4
b sent 0 receipt 0.00000000-0000-0000-0000-000000000002@as4
b confirmed 0
b folded
b reopened
b gone
b sent 1 receipt 0.00000000-0000-0000-0000-000000000002@as4
a ticked 0
a folded
a status 0 pending 1
a ticked 1
a folded
a reopened
a status 0 failed EBMS:0301
a end 1 0 1 0 0
b end 0 0 0 0 1
";

/// A compaction is no event, and the endpoint continues as before: with its clock, the confirmed messages, and the
/// tries and the standing of a submission.
#[test]
fn a_fold_changes_nothing_that_is_told(rt: HostRuntime) {
    assert!(rt; plays(rt.alloc(), FOLDS, DrillEnd::Read, FOLDS_TEXT));
}

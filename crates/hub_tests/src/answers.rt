//! What a relaying answers, in successive openings of one disk.
use crate::desk::after;
use crate::disks::empty;
use crate::steps::{Said, Step, Steps};
use std::alloc::Global;

struct Row {
    what: &'static str,
    openings: &'static [Steps],
}

const ONE: (Step, Said) = (Step::Came(b"1@a"), Said::Receipt);

const TWO: (Step, Said) = (Step::Came(b"2@a"), Said::Receipt);

static ROWS: [Row; 8] = [
    Row {
        what: "an empty inbox",
        openings: &[&[
            (Step::Relay(b"n"), Said::Nothing),
            (Step::Submissions, Said::Count(0)),
        ]],
    },
    Row {
        what: "one message, once, with its payload",
        openings: &[&[
            ONE,
            (Step::Relay(b"n"), Said::Relayed(0)),
            (Step::Take, Said::Pushed),
            (Step::Relay(b"n"), Said::Nothing),
            (Step::Submissions, Said::Count(1)),
        ]],
    },
    Row {
        what: "a repeated message, once",
        openings: &[&[
            ONE,
            ONE,
            (Step::Relay(b"n"), Said::Relayed(0)),
            ONE,
            (Step::Relay(b"n"), Said::Nothing),
        ]],
    },
    Row {
        what: "two messages, in order",
        openings: &[&[
            ONE,
            TWO,
            (Step::Relay(b"n"), Said::Relayed(0)),
            (Step::Relay(b"n"), Said::Relayed(1)),
            (Step::Relay(b"n"), Said::Nothing),
        ]],
    },
    Row {
        what: "after a restart the next one",
        openings: &[
            &[ONE, TWO, (Step::Relay(b"n"), Said::Relayed(0))],
            &[
                (Step::Relay(b"n"), Said::Relayed(1)),
                (Step::Relay(b"n"), Said::Nothing),
            ],
            &[
                (Step::Relay(b"n"), Said::Nothing),
                (Step::Submissions, Said::Count(2)),
            ],
        ],
    },
    Row {
        what: "no such mode, then the mode",
        openings: &[&[
            ONE,
            (Step::Relay(b"x"), Said::NoMode),
            (Step::Relay(b"n"), Said::Relayed(0)),
        ]],
    },
    Row {
        what: "confirmed before it is relayed: it and the next one aren't",
        openings: &[
            &[
                ONE,
                TWO,
                (Step::Confirm(0), Said::Confirmed(0)),
                (Step::Relay(b"n"), Said::Gone),
                (Step::Relay(b"n"), Said::Gone),
            ],
            &[
                (Step::Relay(b"n"), Said::Gone),
                (Step::Submissions, Said::Count(0)),
            ],
        ],
    },
    Row {
        what: "confirmed after it was relayed",
        openings: &[&[
            ONE,
            TWO,
            (Step::Relay(b"n"), Said::Relayed(0)),
            (Step::Confirm(0), Said::Confirmed(0)),
            (Step::Take, Said::Pushed),
            (Step::Relay(b"n"), Said::Relayed(1)),
            (Step::Relay(b"n"), Said::Nothing),
        ]],
    },
];

/// Whether each answer is the expected one, on a disk that is empty at first.
fn goes(alloc: Global, openings: &[Steps]) -> Option<bool> {
    let mut disk = empty(alloc);
    for steps in openings {
        disk = after(alloc, disk, *steps)?;
    }
    drop(disk);
    Some(true)
}

fn first_other_row(alloc: Global) -> Option<&'static str> {
    for row in &ROWS {
        if goes(alloc, row.openings) != Some(true) {
            return Some(row.what);
        }
    }
    None
}

#[test]
fn each_message_is_relayed_once_and_in_order(rt: HostRuntime) {
    assert_eq!(rt; first_other_row(rt.alloc()), None);
}

//! Rounds, and what they leave.

use crate::rig::{Case, EndKind, Left, after, opened};
use crate::samples::{ACCEPTED, EMPTY, NO_MESSAGE, RECEIPT, UNAVAILABLE, USER};
use std::alloc::{AllocError, Global};
use std::marker::Brand;
use std::sync::Wait;
use std::test::Fail;

/// The number of submitted messages; the mode by which the round pulls, or an empty text for a round that pushes; the
/// answers; the numbers of the open, the read and the write that fail, 0 for none; and how the round ends, with the numbers
/// of connections, of calls, of received messages, of receipted ones, and of the tries of a pending submission.
type Row = (
    u64,
    &'static str,
    &'static [&'static [u8]],
    [u64; 3],
    EndKind,
    [u64; 5],
);

const ROWS: [Row; 16] = [
    (0, "", &[], [0, 0, 0], EndKind::Nothing, [0, 1, 0, 0, 0]),
    (
        1,
        "",
        &[RECEIPT],
        [1, 0, 0],
        EndKind::LinkFault,
        [1, 2, 0, 0, 1],
    ),
    (
        1,
        "",
        &[RECEIPT],
        [0, 1, 0],
        EndKind::ReadFault,
        [1, 2, 0, 0, 1],
    ),
    (
        1,
        "",
        &[RECEIPT],
        [0, 0, 1],
        EndKind::WriteFault,
        [1, 2, 0, 0, 1],
    ),
    (1, "", &[RECEIPT], [0, 0, 0], EndKind::Done, [1, 3, 0, 1, 0]),
    // The response came whole by the first read, so no second one is made.
    (1, "", &[RECEIPT], [0, 2, 0], EndKind::Done, [1, 3, 0, 1, 0]),
    (
        1,
        "",
        &[ACCEPTED],
        [0, 0, 0],
        EndKind::Done,
        [1, 2, 0, 0, 1],
    ),
    (
        1,
        "",
        &[UNAVAILABLE],
        [0, 0, 0],
        EndKind::Status(503),
        [1, 2, 0, 0, 1],
    ),
    (
        1,
        "",
        &[NO_MESSAGE],
        [0, 0, 0],
        EndKind::Odd(7),
        [1, 2, 0, 0, 1],
    ),
    (1, "", &[], [0, 0, 0], EndKind::Cut, [1, 2, 0, 0, 1]),
    (0, "none", &[], [0, 0, 0], EndKind::NoMode, [0, 1, 0, 0, 0]),
    (
        0,
        "invoice",
        &[],
        [0, 0, 0],
        EndKind::NoMode,
        [0, 1, 0, 0, 0],
    ),
    (
        0,
        "drawer",
        &[EMPTY],
        [0, 0, 0],
        EndKind::Done,
        [1, 2, 0, 0, 0],
    ),
    (0, "drawer", &[], [0, 0, 0], EndKind::Cut, [1, 1, 0, 0, 0]),
    (
        0,
        "drawer",
        &[USER, ACCEPTED],
        [0, 0, 0],
        EndKind::Done,
        [2, 2, 1, 0, 0],
    ),
    (
        0,
        "drawer",
        &[USER, UNAVAILABLE],
        [0, 0, 0],
        EndKind::Status(503),
        [2, 2, 1, 0, 0],
    ),
];

fn is_right<R: Wait>(rt: &R, alloc: Global, row: &Row) -> Result<bool, AllocError> {
    let case = Case {
        submitted: row.0,
        pulls: if row.1.is_empty() {
            None
        } else {
            Some(row.1.as_bytes())
        },
        answers: row.2,
        failing: row.3,
    };
    let [asked, calls, inbox, receipted, tries] = row.5;
    let left = Left {
        end: row.4,
        asked,
        calls,
        inbox,
        receipted,
        tries,
    };
    let (office, pass) = opened(alloc, &[])?;
    Ok(after::<_, Brand>(rt, alloc, office, pass, case)? == left)
}

// The first row that leaves something else.
fn first_wrong<R: Wait>(rt: &R, alloc: Global) -> Option<usize> {
    for (at, row) in ROWS.iter().enumerate() {
        if is_right(rt, alloc, row) != Ok(true) {
            return Some(at);
        }
    }
    None
}

#[test]
fn rounds_leave_what_they_should(rt: HostRuntime) -> Result<(), Fail> {
    assert_eq!(rt; first_wrong(&rt, rt.alloc()), None);
    Ok(())
}

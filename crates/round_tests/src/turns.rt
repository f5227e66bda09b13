//! Turns of one worker, and what they leave.

use crate::hired::{Done, Shift, Task, after_turns};
use crate::rig::opened;
use crate::samples::{EMPTY, GET_0, PACKAGE, RECEIPT, UNAVAILABLE, USER};
use std::alloc::{AllocError, Global};
use std::marker::Brand;
use std::sync::Wait;
use std::test::Fail;
use std::thread::Threads;

/// A worker's task; the numbers of submitted messages and of its turns; its guests and its answers; the numbers of the
/// calls that fail; and what is left: its share, the turns for which memory ran out, the guests that weren't taken, the
/// connections, the received messages and the receipted ones, and how often it rested.
type Row = (
    Task,
    [u64; 2],
    &'static [&'static [u8]],
    &'static [&'static [u8]],
    [u64; 4],
    [u64; 7],
);

const FAULTLESS: [u64; 4] = [0, 0, 0, 0];

const ROWS: [Row; 14] = [
    // after the message no other is due
    (
        Task::Push,
        [1, 2],
        &[],
        &[RECEIPT],
        FAULTLESS,
        [3, 0, 0, 1, 0, 1, 1],
    ),
    (
        Task::Push,
        [0, 2],
        &[],
        &[],
        FAULTLESS,
        [2, 0, 0, 0, 0, 0, 2],
    ),
    (
        Task::Push,
        [1, 1],
        &[],
        &[RECEIPT],
        [0, 1, 0, 0],
        [1, 0, 0, 1, 0, 0, 0],
    ),
    (
        Task::Push,
        [2, 2],
        &[],
        &[RECEIPT, UNAVAILABLE],
        FAULTLESS,
        [3, 0, 0, 2, 0, 1, 0],
    ),
    (
        Task::Pull(b"drawer"),
        [0, 1],
        &[],
        &[EMPTY],
        FAULTLESS,
        [2, 0, 0, 1, 0, 0, 1],
    ),
    (
        Task::Pull(b"drawer"),
        [0, 2],
        &[],
        &[USER, RECEIPT, EMPTY],
        FAULTLESS,
        [5, 0, 0, 3, 1, 0, 1],
    ),
    (
        Task::Pull(b"none"),
        [0, 2],
        &[],
        &[],
        FAULTLESS,
        [2, 0, 0, 0, 0, 0, 2],
    ),
    (
        Task::Tick,
        [0, 3],
        &[],
        &[],
        FAULTLESS,
        [3, 0, 0, 0, 0, 0, 3],
    ),
    (
        Task::Local,
        [0, 1],
        &[GET_0],
        &[],
        FAULTLESS,
        [1, 0, 0, 0, 0, 0, 0],
    ),
    (
        Task::Local,
        [0, 3],
        &[GET_0, b"x", GET_0, GET_0],
        &[],
        FAULTLESS,
        [2, 0, 1, 0, 0, 0, 0],
    ),
    (
        Task::Peer,
        [0, 2],
        &[PACKAGE, PACKAGE, PACKAGE],
        &[],
        FAULTLESS,
        [2, 0, 1, 0, 1, 0, 0],
    ),
    // the door is closed before the third turn
    (
        Task::Peer,
        [0, 9],
        &[PACKAGE, PACKAGE],
        &[],
        FAULTLESS,
        [2, 0, 0, 0, 1, 0, 0],
    ),
    (
        Task::Peer,
        [0, 2],
        &[PACKAGE],
        &[],
        [1, 0, 0, 0],
        [1, 0, 0, 0, 1, 0, 1],
    ),
    (
        Task::Peer,
        [0, 1],
        &[b""],
        &[],
        FAULTLESS,
        [0, 0, 0, 0, 0, 0, 0],
    ),
];

fn is_right<R: Threads + Wait + Sync>(
    rt: &R,
    alloc: Global,
    row: &Row,
) -> Result<bool, AllocError> {
    let [submitted, turns] = row.1;
    let shift = Shift {
        submitted,
        task: row.0,
        turns,
        guests: row.2,
        answers: row.3,
        failing: row.4,
    };
    let [share, starved, guests, asked, inbox, receipted, rests] = row.5;
    let done = Done {
        share,
        starved,
        guests,
        asked,
        inbox,
        receipted,
        rests,
    };
    let (office, pass) = opened(alloc, &[])?;
    Ok(after_turns::<_, Brand>(rt, alloc, office, pass, shift)? == done)
}

// The first row that leaves something else.
fn first_wrong<R: Threads + Wait + Sync>(rt: &R, alloc: Global) -> Option<usize> {
    for (at, row) in ROWS.iter().enumerate() {
        if is_right(rt, alloc, row) != Ok(true) {
            return Some(at);
        }
    }
    None
}

#[test]
fn turns_leave_what_they_should(rt: HostRuntime) -> Result<(), Fail> {
    assert_eq!(rt; first_wrong(&rt, rt.alloc()), None);
    Ok(())
}

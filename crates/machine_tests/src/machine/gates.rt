//! Where a core has the payloads of a message: at the gate of the record that it replayed, until they are moved.

use super::folded::move_to;
use super::replayed::replays_at;
use super::rig::new_core;
use crate::changes::{Change, effects_of};
use as4_effects::Effect;
use msh_core::{Core, Folding, Held};
use std::alloc::Global;

/// What is asked of a core.
#[derive(Clone, Copy)]
enum Question {
    /// The message of this number.
    Held(u64),
    /// The same, after its payloads were moved to this gate.
    HeldMoved(u64, u64),
    /// The effect at this place of the compaction.
    Folded(u64),
}

/// The answer in a short form.
#[derive(Clone, Copy, PartialEq, Eq)]
enum Answer {
    /// An open entry, with the gate and the length.
    Open(u64, u64),
    Gone,
    NoEntry,
    /// A header that is kept.
    Kept,
    /// The clock is set.
    Ticked,
    Other,
}

/// The length of a body that delivers the message of `Change::Delivered`, as counted by hand: the count of two bytes,
/// the kind, the 125 of the header, and the four of the number of payloads. The header with an identifier of two bytes
/// has 85, and this identifier has 42.
const LENGTH: u64 = 2 + 1 + 125 + 4;

/// The gates of the two records that a core replays.
const FIRST: u64 = 77;

const SECOND: u64 = 1234;

/// The changes of a first and a second record, and an answer after them.
type Row = (&'static [Change], &'static [Change], Question, Answer);

const ROWS: [Row; 10] = [
    (
        &[Change::Ticked(5), Change::Delivered],
        &[Change::Ticked(6)],
        Question::Held(0),
        Answer::Open(FIRST, LENGTH),
    ),
    (
        &[Change::Kept(1)],
        &[Change::Ticked(5), Change::Delivered],
        Question::Held(1),
        Answer::Open(SECOND, LENGTH),
    ),
    (
        &[Change::Kept(1)],
        &[Change::Delivered],
        Question::Held(0),
        Answer::Gone,
    ),
    (
        &[Change::Kept(1)],
        &[Change::Delivered],
        Question::Held(2),
        Answer::NoEntry,
    ),
    (
        &[Change::Kept(1)],
        &[Change::Delivered],
        Question::HeldMoved(1, 9),
        Answer::Open(9, LENGTH),
    ),
    (
        &[Change::Kept(1)],
        &[Change::Delivered],
        Question::Folded(0),
        Answer::Kept,
    ),
    (
        &[Change::Kept(1)],
        &[Change::Delivered, Change::Ticked(5)],
        Question::Folded(1),
        Answer::Open(SECOND, LENGTH),
    ),
    (
        &[Change::Kept(1)],
        &[Change::Delivered, Change::Ticked(5)],
        Question::Folded(2),
        Answer::Ticked,
    ),
    (
        &[Change::Delivered],
        &[Change::Confirmed(0)],
        Question::Folded(0),
        Answer::Kept,
    ),
    (
        &[Change::Delivered],
        &[Change::Confirmed(0)],
        Question::Held(0),
        Answer::Gone,
    ),
];

fn held(core: &Core, n: u64) -> Answer {
    match core.held(n) {
        Held::Entry { gate, length, .. } => Answer::Open(gate, length),
        Held::Gone => Answer::Gone,
        Held::NoEntry => Answer::NoEntry,
    }
}

fn held_moved(core: &mut Core, n: u64, gate: u64) -> Answer {
    move_to(core, n, gate);
    held(core, n)
}

fn folded(core: &Core, part: u64) -> Answer {
    let found = core.folded(part);
    let answer = match &found {
        Ok(Some(Folding::Open { gate, length, .. })) => Answer::Open(*gate, *length),
        Ok(Some(Folding::Known(Effect::Kept(_)))) => Answer::Kept,
        Ok(Some(Folding::Known(Effect::Ticked(_)))) => Answer::Ticked,
        _ => Answer::Other,
    };
    drop(found);
    answer
}

fn answer_of(core: &mut Core, question: Question) -> Answer {
    match question {
        Question::Held(n) => held(core, n),
        Question::HeldMoved(n, gate) => held_moved(core, n, gate),
        Question::Folded(part) => folded(core, part),
    }
}

/// Whether the core replays these changes as the record at this gate.
fn takes(alloc: Global, core: &mut Core, changes: &[Change], gate: u64) -> bool {
    match effects_of(alloc, changes) {
        Some(effects) => replays_at(core, effects, gate) == Some(Ok(())),
        None => false,
    }
}

fn is_answered(alloc: Global, row: &Row) -> bool {
    let (first, second, question, answer) = *row;
    match new_core(alloc) {
        Some(mut core) => {
            let taken = takes(alloc, &mut core, first, FIRST)
                && takes(alloc, &mut core, second, SECOND);
            let is = taken && answer_of(&mut core, question) == answer;
            drop(core);
            is
        }
        None => false,
    }
}

/// The index of the first row with another answer.
fn first_other(alloc: Global) -> Option<usize> {
    ROWS.iter().position(|row| !is_answered(alloc, row))
}

#[test]
fn payloads_are_at_the_gate_of_their_record(rt: HostRuntime) {
    assert_eq!(rt; first_other(rt.alloc()), None);
}

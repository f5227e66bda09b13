//! Records that a new endpoint replays or refuses.
ghost use Rattle.std.specs.Prelude.{◌≡◌};

use super::rig::new_core;
use crate::changes::{Change, effects_of};
use as4_effects::Effect;
use as4_values::{NoMemory, Seq};
use event_code::{body_len, read_body};
use msh_core::{Core, MAX_JOURNAL, ReplayRefusal};
use msh_state::Totals;
use std::alloc::Global;

/// The effects of a record, and the index of the first effect that doesn't fit the state before it.
type Record = (&'static [Change], Option<usize>);

const RECORDS: [Record; 15] = [
    (&[Change::Tried(0)], Some(0)),
    (&[Change::Receipted(0), Change::Ticked(5)], Some(0)),
    (&[Change::Confirmed(0)], Some(0)),
    (&[Change::Submitted(0), Change::Submitted(0)], Some(1)),
    (
        &[Change::Submitted(0), Change::Tried(0), Change::Tried(1)],
        Some(2),
    ),
    (
        &[
            Change::Submitted(0),
            Change::Receipted(0),
            Change::Receipted(0),
        ],
        Some(2),
    ),
    (&[Change::Ticked(5), Change::Ticked(5)], Some(1)),
    (
        &[Change::Delivered, Change::Ticked(5), Change::Delivered],
        Some(2),
    ),
    (
        &[
            Change::Delivered,
            Change::Confirmed(0),
            Change::Confirmed(0),
        ],
        Some(2),
    ),
    (
        &[
            Change::Submitted(0),
            Change::Tried(0),
            Change::Delivered,
            Change::Ticked(5),
            Change::Receipted(0),
            Change::Confirmed(0),
        ],
        None,
    ),
    // A compacted journal: the clock is set only after all submissions are carried over, a message is delivered only
    // after all confirmed ones are kept, and each identifier is kept once.
    (
        &[
            Change::Carried(0, 2, 1000),
            Change::CarriedReceipted(1, 1, 1000),
            Change::Kept(0),
            Change::Kept(1),
            Change::Ticked(5),
        ],
        None,
    ),
    (&[Change::Ticked(5), Change::Carried(0, 0, 0)], Some(1)),
    (&[Change::Carried(0, 5, 1000)], Some(0)),
    (&[Change::Delivered, Change::Kept(1)], Some(1)),
    (&[Change::Kept(0), Change::Delivered], Some(1)),
];

/// Replays the effects as the next record, if there are any and the journal has room.
pub fn replays(core: &mut Core, effects: Seq<Effect>) -> Option<Result<(), ReplayRefusal>> {
    let gate = core.size();
    replays_at(core, effects, gate)
}

/// The same, as the record at this gate.
#[tactic(auto, unfolding(exchange_model::specs::Apply::record_len))]
pub fn replays_at(
    core: &mut Core,
    effects: Seq<Effect>,
    gate: u64,
) -> Option<Result<(), ReplayRefusal>> {
    let count = effects.items().len();
    let room = MAX_JOURNAL.saturating_sub(core.size());
    if count == 0 || count > 1024 || body_len(&effects) + 9 > room {
        drop(effects);
        return None;
    }
    Some(core.replay(effects, gate))
}

/// The result of a new endpoint for these effects.
fn answer_to(alloc: Global, changes: &[Change]) -> Option<Result<(), ReplayRefusal>> {
    match (new_core(alloc), effects_of(alloc, changes)) {
        (Some(mut core), Some(effects)) => {
            let answer = replays(&mut core, effects);
            drop(core);
            answer
        }
        (core, effects) => {
            drop(core);
            drop(effects);
            None
        }
    }
}

/// The index of the first record with another result.
fn first_other(alloc: Global) -> Option<usize> {
    for (at, (changes, unfit)) in RECORDS.iter().enumerate() {
        let answer = match unfit {
            Some(index) => Err(ReplayRefusal::Unfit { index: *index }),
            None => Ok(()),
        };
        if answer_to(alloc, changes) != Some(answer) {
            return Some(at);
        }
    }
    None
}

#[test]
fn the_first_unfit_effect_is_named(rt: HostRuntime) {
    assert_eq!(rt; first_other(rt.alloc()), None);
}

/// A body of two effects: the submission 0, which was tried twice, the last time at 1,000, and was receipted; and the
/// header of a message `m1` that was confirmed. Both headers go from `a` to `b`.
const BODY: &[u8] = b"\x00\x02\
    \x08\x00\x00\x00\x00\x00\x00\x00\x00\
    \x00\x00\x00\x00\x142025-01-02T03:04:05Z\x00\x00\x00\x2a0.00000000-0000-0000-0000-000000000001@as4\x00\
    \x00\x00\x00\x01\x00\x00\x00\x01a\x00\x00\x00\x00\x01r\x00\x00\x00\x01\x00\x00\x00\x01b\x00\x00\x00\x00\x01r\
    \x00\x00\x00\x00\x01s\x00\x00\x00\x00\x03act\x00\x00\x00\x00\x00\x00\x00\x00\x00\
    \x00\x00\x00\x00\x00\x00\x00\x00\x09http://h/\x00\x00\x00\x03\x00\x00\x00\x00\x00\x00\xea\x60\
    \x00\x00\x00\x00\x00\x00\x03\xe8\x00\x00\x00\x02\x00\x00\x00\x00\x00\x00\x03\xe8\x01\
    \x09\x00\x00\x00\x00\x142025-01-02T03:04:05Z\x00\x00\x00\x02m1\x00\
    \x00\x00\x00\x01\x00\x00\x00\x01a\x00\x00\x00\x00\x01r\x00\x00\x00\x01\x00\x00\x00\x01b\x00\x00\x00\x00\x01r\
    \x00\x00\x00\x00\x01s\x00\x00\x00\x00\x03act\x00\x00\x00\x00\x00\x00\x00\x00\x00";

/// The nine bytes of a new journal, the nine of a record's head, and the 273 of the body: 2 + 185 + 86.
const BODY_SIZE: u64 = 291;

/// The totals and the size of a new endpoint after it replays this body.
fn end_of(alloc: Global, body: &[u8]) -> Option<(Totals, u64)> {
    match (new_core(alloc), read_body(alloc, body)) {
        (Some(mut core), Ok(effects)) => {
            let answer = replays(&mut core, effects);
            let end = (core.totals(), core.size());
            drop(core);
            answer?.ok()?;
            Some(end)
        }
        (core, effects) => {
            drop(core);
            drop(effects);
            None
        }
    }
}

#[test]
fn an_end_that_was_written_again_is_read_from_its_bytes(rt: HostRuntime) {
    let totals = Totals {
        submitted: 1,
        receipted: 1,
        failed: 0,
        refused: 0,
        inbox: 1,
    };
    assert_eq!(rt; end_of(rt.alloc(), BODY), Some((totals, BODY_SIZE)));
}

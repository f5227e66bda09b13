//! Compaction: a new core that replays the effects of the fold reaches the same state, and the payloads are in its
//! records.

ghost use Rattle.std.specs.Prelude.{◌<◌, IsTrue, length};

use super::records::{Records, one};
use super::replayed::replays;
use super::rig::new_core;
use as4_effects::Effect;
use msh_core::{Core, Folding, Held, MAX_JOURNAL};
use std::alloc::Global;

/// Whether the fold restores the endpoint, in a journal of the compacted size, and the endpoint can then have this
/// journal.
pub fn is_compacted(alloc: Global, core: &mut Core, records: &Records) -> bool {
    match new_core(alloc) {
        Some(mut other) => {
            let is = is_given_back(alloc, core, records, &mut other)
                && is_folded(core)
                && are_moved(core, &other);
            drop(other);
            is
        }
        None => false,
    }
}

/// Whether the other core restores the endpoint from the fold.
fn is_given_back(alloc: Global, core: &Core, records: &Records, other: &mut Core) -> bool {
    is_written_again(alloc, core, records, other)
        && other.size() == core.folded_size()
        && other.totals() == core.totals()
        && other.moment() == core.moment()
}

/// Whether the endpoint can be compacted, and its journal then has the size of the fold.
fn is_folded(core: &mut Core) -> bool {
    let size = core.folded_size();
    if size > MAX_JOURNAL {
        return false;
    }
    core.set_folded();
    core.size() == size
}

/// Whether all payloads can be moved to where the other core has them.
fn are_moved(core: &mut Core, other: &Core) -> bool {
    for n in 0..core.totals().inbox {
        if let Some((gate, _)) = place_of(other, n) {
            move_to(core, n, gate);
        }
    }
    have_same_places(core, other)
}

/// Moves the payloads of this number to this gate, if the entry is open.
pub fn move_to(core: &mut Core, n: u64, gate: u64) {
    if is_open(core, n) {
        core.moved(n, gate);
    }
}

#[tactic(auto, using(std::proofs::lemmas::Option::slice_get_within))]
fn is_open(core: &Core, n: u64) -> bool
    ensures { IsTrue result → n < length core.now.places }
{
    match core.held(n) {
        Held::Entry { .. } => true,
        Held::Gone | Held::NoEntry => false,
    }
}

/// Whether both have the same messages, with the payloads at the same places.
pub fn have_same_places(core: &Core, other: &Core) -> bool {
    let received = core.totals().inbox;
    for n in 0..received {
        if place_of(core, n) != place_of(other, n) {
            return false;
        }
    }
    other.totals().inbox == received
}

/// The gate and the length of the open entry of this number.
fn place_of(core: &Core, n: u64) -> Option<(u64, u64)> {
    match core.held(n) {
        Held::Entry { gate, length, .. } => Some((gate, length)),
        Held::Gone | Held::NoEntry => None,
    }
}

/// Whether all effects of the fold can be replayed, each in a separate record, and no more effects follow them.
fn is_written_again(alloc: Global, core: &Core, records: &Records, other: &mut Core) -> bool {
    let totals = core.totals();
    let parts = totals.submitted.saturating_add(totals.inbox);
    for part in 0..parts {
        if !is_made_again(alloc, core, records, other, part) {
            return false;
        }
    }
    let clock = is_made_again(alloc, core, records, other, parts);
    clock == (core.moment() != 0)
}

/// Whether the fold has an effect at this index, and the other core replays it.
fn is_made_again(
    alloc: Global,
    core: &Core,
    records: &Records,
    other: &mut Core,
    part: u64,
) -> bool {
    match effect_at(core, records, part) {
        Some(effect) => match one(alloc, effect) {
            Some(effects) => replays(other, effects) == Some(Ok(())),
            None => false,
        },
        None => false,
    }
}

/// The effect of the fold at this index, with the payloads from its record.
fn effect_at(core: &Core, records: &Records, part: u64) -> Option<Effect> {
    match core.folded(part) {
        Ok(Some(Folding::Known(effect))) => Some(effect),
        Ok(Some(Folding::Open { id, gate, length })) => {
            let effect = records.delivered(&id, gate, length);
            drop(id);
            effect
        }
        answer => {
            drop(answer);
            None
        }
    }
}

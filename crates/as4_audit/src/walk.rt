//! Goes through the records of a leaf, with a machine that follows them.

ghost use Rattle.std.specs.Prelude.{◌≡◌, ◌+◌, ◌≤◌, [], List, Option, IfOk, OnOk, length, map, nat_le};
ghost use Rattle.as4_audit.specs.Audit.{AllRead};
ghost use Rattle.as4_audit.specs.Taking.{IsAdded, IsCounted, IsReplayed, IsTaken, IsWalk};
ghost use Rattle.as4_effects.specs.Effects.{effects_limit};
ghost use Rattle.as4_effects.specs.declared.effect.Effect.{Effect as EffectValue};
ghost use Rattle.exchange_model.specs.Apply.{record_len};
ghost use Rattle.fold_laws.specs.Reached.{IsReached};

use crate::collecting::Collects;
use crate::made::event_that_makes;
use crate::records::record_of;
use crate::start::stage_after;
use as4_effects::Effect;
use as4_values::{NoMemory, Seq};
use event_code::body_len;
use exchange_model::Event;
use msh_core::{Core, MAX_JOURNAL, ReplayRefusal};
use pmodes::Modes;
use std::alloc::Global;

/// What becomes of a record.
#[derive(Drop)]
pub enum Taken {
    /// It is of the start, and fits.
    Folded,
    /// It is made by this event.
    Made(Event),
    /// It isn't right.
    Wrong,
}

/// What a walk through the records of a leaf finds.
#[derive(Clone, Copy)]
pub enum Walked {
    /// All are right, and this number of them are the start.
    Right { start: u64 },
    /// The record at this place is the first that isn't right.
    Wrong { index: u64 },
}

/// Goes through the records with these bodies, and adds the events of those after the start. Only one record is decoded at
/// a time.
pub fn walk<E: Collects>(
    alloc: Global,
    core: &mut Core,
    modes: &Modes,
    bodies: &[&[u8]],
    events: &mut E,
) -> Result<Walked, NoMemory>
    requires reached { IsReached core.old.end }
    requires same { core.old.modes ≡ modes.now }
    requires none { E.holds events.old [] }
    ensures { IfOk result (IsWalk modes.now core.old.end (map (λ body. body.now) bodies.now) (E.holds events.new)) }
{
    let mut stage = Some(0);
    let mut start = 0;
    let mut index = 0;
    for body in bodies {
        let item = record_of(alloc, body)?;
        stage = stage_after(stage, &item);
        let taken = take(alloc, core, modes, item, stage.is_some())?;
        let is_right = add_taken(events, taken)?;
        if !is_right {
            read_rest(alloc, &bodies[index + 1..])?;
            return Ok(Walked::Wrong {
                index: index as u64,
            });
        }
        if stage.is_some() {
            start += 1;
        }
        index += 1;
    }
    Ok(Walked::Right { start })
}

/// Decodes the bodies after the first record that isn't right: the answer is about all records of the leaf.
fn read_rest(alloc: Global, bodies: &[&[u8]]) -> Result<(), NoMemory>
    ensures { OnOk result ((records : List (Option (List EffectValue))) × AllRead (map (λ body. body.now) bodies.now) records) }
{
    for body in bodies {
        let item = record_of(alloc, body)?;
        drop(item);
    }
    Ok(())
}

/// Adds the event of a record that is made. Returns whether the record is right.
fn add_taken<E: Collects>(events: &mut E, taken: Taken) -> Result<bool, NoMemory>
    ensures { IfOk result (IsAdded (E.holds events.old) (E.holds events.new) taken) }
{
    match taken {
        Taken::Folded => Ok(true),
        Taken::Made(event) => {
            events.add(event)?;
            Ok(true)
        }
        Taken::Wrong => Ok(false),
    }
}

/// Takes one record, of the start or after it.
fn take(
    alloc: Global,
    core: &mut Core,
    modes: &Modes,
    item: Option<Seq<Effect>>,
    folded: bool,
) -> Result<Taken, NoMemory>
    requires reached { IsReached core.old.end }
    requires same { core.old.modes ≡ modes.now }
    requires counted { IsCounted item }
    ensures taken { IfOk result (IsTaken modes.now folded core.old.end core.new.end item) }
    ensures same { core.new.modes ≡ core.old.modes }
{
    let Some(effects) = item else {
        return Ok(Taken::Wrong);
    };
    if !has_room(core, &effects) {
        drop(effects);
        return Ok(Taken::Wrong);
    }
    if folded {
        let taken = replayed(core, effects, Taken::Folded)?;
        return Ok(taken);
    }
    match event_that_makes(alloc, core, modes, &effects) {
        Ok(Some(event)) => {
            let taken = replayed(core, effects, Taken::Made(event))?;
            Ok(taken)
        }
        Ok(None) => {
            drop(effects);
            Ok(Taken::Wrong)
        }
        Err(NoMemory) => {
            drop(effects);
            Err(NoMemory)
        }
    }
}

/// Whether the journal has room for the record of these effects.
#[tactic(auto, unfolding(exchange_model::specs::Apply::record_len))]
fn has_room(core: &Core, effects: &Seq<Effect>) -> bool
    requires { length effects.now ≤ effects_limit }
    ensures { result ≡ nat_le (core.now.end.size + record_len effects.now) MAX_JOURNAL }
{
    core.size().saturating_add(body_len(effects) + 9) <= MAX_JOURNAL
}

/// Replays the effects, where they fit.
fn replayed(core: &mut Core, effects: Seq<Effect>, taken: Taken) -> Result<Taken, NoMemory>
    requires some { 1 ≤ length effects }
    requires counted { length effects ≤ effects_limit }
    requires room { core.old.end.size + record_len effects ≤ MAX_JOURNAL }
    ensures replayed { IfOk result (IsReplayed core.old.end core.new.end effects taken) }
    ensures same { core.new.modes ≡ core.old.modes }
{
    match core.replay(effects, 0) {
        Ok(()) => Ok(taken),
        Err(ReplayRefusal::Unfit { .. }) => {
            drop(taken);
            Ok(Taken::Wrong)
        }
        Err(ReplayRefusal::NoMemory) => {
            drop(taken);
            Err(NoMemory)
        }
    }
}

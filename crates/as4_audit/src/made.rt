//! The event that makes a record.

ghost use Rattle.std.specs.Prelude.{◌≡◌, ◌≢◌, ◌≤◌, ◌∷◌, ◌↔◌, [], IfOk, IsTrue, length};
ghost use Rattle.as4_audit.specs.Taking.{IsCandidate, IsFound};
ghost use Rattle.as4_effects.specs.declared.effect.Effect.TheVariants as effect;
ghost use Rattle.exchange_model.specs.declared.outcome.Outcome.{Outcome as OutcomeValue};
ghost use Rattle.fold_laws.specs.Reached.{IsReached};
ghost use Rattle.msh_core.specs.Machine.{IsGiven};

use crate::failures::failures_of;
use crate::own::{confirmation_of, submission_of, tick_of};
use crate::partner::{delivery_of, pair_of, receipt_of, try_of};
use as4_effects::Effect;
use as4_values::{NoMemory, PlainData, Seq};
use exchange_model::Event;
use msh_core::Core;
use pmodes::Modes;
use std::alloc::Global;

/// The event for which the machine gives exactly these effects; None if there is none.
pub fn event_that_makes(
    alloc: Global,
    core: &mut Core,
    modes: &Modes,
    effects: &Seq<Effect>,
) -> Result<Option<Event>, NoMemory>
    requires reached { IsReached core.old.end }
    requires same { core.old.modes ≡ modes.now }
    requires some { effects.now ≢ [] }
    ensures found { IfOk result (IsFound modes.now core.old.end effects.now) }
    ensures end { core.new.end ≡ core.old.end }
    ensures same { core.new.modes ≡ core.old.modes }
{
    let Some(event) = event_of(alloc, core, modes, effects.items())? else {
        return Ok(None);
    };
    match makes(core, &event, effects) {
        Ok(true) => Ok(Some(event)),
        Ok(false) => {
            drop(event);
            Ok(None)
        }
        Err(error) => {
            drop(event);
            Err(error)
        }
    }
}

/// Whether the machine gives exactly these effects for the event.
fn makes(core: &mut Core, event: &Event, effects: &Seq<Effect>) -> Result<bool, NoMemory>
    ensures given { IfOk result (λ same. (outcome : OutcomeValue) × IsGiven core.old.modes core.old.end event.now outcome
        × (IsTrue same ↔ (outcome.effects ≡ effects.now))) }
    ensures end { core.new.end ≡ core.old.end }
    ensures same { core.new.modes ≡ core.old.modes }
{
    let plan = core.prepare(event)?;
    let same = plan.effects().same(effects);
    drop(plan);
    Ok(same)
}

/// The only event, but for what leaves no trace, that can make a record of these effects; None if there is none.
fn event_of(
    alloc: Global,
    core: &Core,
    modes: &Modes,
    effects: &[Effect],
) -> Result<Option<Event>, NoMemory>
    requires reached { IsReached core.now.end }
    requires same { core.now.modes ≡ modes.now }
    ensures { IfOk result (IsCandidate modes.now core.now.end effects.now) }
{
    let [first, rest @ ..] = effects else {
        return Ok(None);
    };
    if rest.is_empty() {
        return event_of_one(alloc, core, modes, first);
    }
    match first {
        Effect::Refused { .. } => {
            let found = failures_of(alloc, core, effects)?;
            Ok(found)
        }
        Effect::Receipted { number } => event_of_receipt(alloc, core, *number, rest),
        _ => Ok(None),
    }
}

/// The same, of a receipt and these effects.
fn event_of_receipt(
    alloc: Global,
    core: &Core,
    number: u64,
    rest: &[Effect],
) -> Result<Option<Event>, NoMemory>
    requires reached { IsReached core.now.end }
    requires some { 1 ≤ length rest.now }
    ensures { IfOk result (IsCandidate core.now.modes core.now.end (effect.Receipted number ∷ rest.now)) }
{
    if rest.len() > 1 {
        return Ok(None);
    }
    match &rest[0] {
        Effect::Tried { number: head } => pair_of(alloc, core, number, *head),
        _ => Ok(None),
    }
}

/// The same, of one effect.
fn event_of_one(
    alloc: Global,
    core: &Core,
    modes: &Modes,
    effect: &Effect,
) -> Result<Option<Event>, NoMemory>
    requires reached { IsReached core.now.end }
    requires same { core.now.modes ≡ modes.now }
    ensures { IfOk result (IsCandidate modes.now core.now.end (effect.now ∷ [])) }
{
    match effect {
        Effect::Submitted(submission) => submission_of(alloc, modes, submission),
        Effect::Ticked(tick) => Ok(Some(tick_of(tick))),
        Effect::Tried { number } => try_of(alloc, core, *number),
        Effect::Delivered(delivery) => delivery_of(alloc, delivery),
        Effect::Receipted { number } => receipt_of(alloc, core, *number),
        Effect::Confirmed { upto } => Ok(Some(confirmation_of(*upto))),
        Effect::Refused { .. } => {
            let found = failures_of(alloc, core, std::slice::from_ref(effect))?;
            Ok(found)
        }
        Effect::Carried(_) => Ok(None),
        Effect::Kept(_) => Ok(None),
    }
}

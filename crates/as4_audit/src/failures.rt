//! The error signal that refuses submissions.

ghost use Rattle.std.specs.Prelude.{◌≡◌, ◌≤◌, IfOk, IfSome, None, Some, length};
ghost use Rattle.as4_audit.specs.Made.{AreRefusals};
ghost use Rattle.as4_audit.specs.Taking.{AreItems, IsCandidate, IsItem};
ghost use Rattle.as4_values.specs.declared.signal_body.SignalBody.TheVariants.{Errors};
ghost use Rattle.as4_values.specs.declared.signal_body.Severity.TheVariants.{Failure};
ghost use Rattle.fold_laws.specs.Reached.{IsReached};

use crate::events::at_first;
use as4_effects::Effect;
use as4_values::{
    Code, ErrorItem, Message, MessageId, NoMemory, PlainData, Seq, Severity, Signal, SignalBody,
    stamp_text,
};
use exchange_model::{Event, What};
use msh_core::Core;
use std::alloc::Global;

/// The most errors of a signal.
const MAX_ERRORS: usize = 256;

/// The error signal with a failure for each of these refusals.
#[tactic(auto, unfolding(exchange_model::specs::Coming::may_come))]
pub fn failures_of(
    alloc: Global,
    core: &Core,
    effects: &[Effect],
) -> Result<Option<Event>, NoMemory>
    requires reached { IsReached core.now.end }
    requires some { 1 ≤ length effects.now }
    ensures { IfOk result (λ found. AreRefusals effects.now → IsCandidate core.now.modes core.now.end effects.now found) }
{
    if effects.len() > MAX_ERRORS {
        return Ok(None);
    }
    let Some(items) = items_of(alloc, core, effects)? else {
        return Ok(None);
    };
    let signal = signal_of(alloc, items)?;
    Ok(Some(at_first(What::Came(Message::Signal(signal)))))
}

/// The error signal of these items.
fn signal_of(alloc: Global, items: Seq<ErrorItem>) -> Result<Signal, NoMemory>
    requires some { 1 ≤ length items }
    requires few { length items ≤ 256 }
    ensures refers { IfOk result (λ signal. signal.ref_to ≡ None) }
    ensures tells { IfOk result (λ signal. signal.body ≡ Errors items) }
{
    match (stamp_text(alloc, 0), MessageId::of_signal(alloc, 0)) {
        (Ok(stamp), Ok(id)) => Ok(Signal {
            stamp,
            id,
            ref_to: None,
            body: SignalBody::Errors { items },
        }),
        (stamp, id) => {
            drop(stamp);
            drop(id);
            drop(items);
            Err(NoMemory)
        }
    }
}

/// A failure for each of the effects, in order; None if one of them is no refusal of a submission.
fn items_of(
    alloc: Global,
    core: &Core,
    effects: &[Effect],
) -> Result<Option<Seq<ErrorItem>>, NoMemory>
    ensures items { IfOk result (AreItems core.now.end.sent effects.now) }
    ensures counted { IfOk result (λ found. IfSome found (λ items. length items ≡ length effects.now)) }
{
    let mut items = Vec::with_capacity(alloc, effects.len())?;
    for effect in effects {
        let Some(item) = item_of(alloc, core, effect)? else {
            drop(items);
            return Ok(None);
        };
        items.push(item)?;
    }
    Ok(Some(Seq::of(items)))
}

/// The failure that refuses a submission.
fn item_of(alloc: Global, core: &Core, effect: &Effect) -> Result<Option<ErrorItem>, NoMemory>
    ensures { IfOk result (IsItem core.now.end.sent effect.now) }
{
    let Effect::Refused { number, code } = effect else {
        return Ok(None);
    };
    let Some(submission) = core.submission(*number) else {
        return Ok(None);
    };
    let item = failure(alloc, code, &submission.header.id)?;
    Ok(Some(item))
}

/// A failure with this code, about the message of this identifier.
fn failure(alloc: Global, code: &Code, id: &MessageId) -> Result<ErrorItem, NoMemory>
    ensures code { IfOk result (λ item. item.code ≡ code.now) }
    ensures severity { IfOk result (λ item. item.severity ≡ Failure) }
    ensures about { IfOk result (λ item. item.about ≡ Some id.now) }
{
    let code = code.try_clone(alloc)?;
    match id.try_clone(alloc) {
        Ok(id) => Ok(ErrorItem {
            code,
            severity: Severity::Failure,
            origin: None,
            category: None,
            about: Some(id),
            short: None,
            description: None,
            detail: None,
        }),
        Err(error) => {
            drop(code);
            Err(error)
        }
    }
}

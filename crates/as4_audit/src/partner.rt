//! Messages of the other endpoint that make a record, and the events that hand a submission out.

ghost use Rattle.std.specs.Prelude.{◌≡◌, ◌∷◌, [], IfOk, List};
ghost use Rattle.as4_audit.specs.Taking.{IsCandidate};
ghost use Rattle.as4_effects.specs.declared.effect.Effect.TheVariants as effect;
ghost use Rattle.exchange_model.specs.End.{End};
ghost use Rattle.fold_laws.specs.Reached.{IsReached};
ghost use Rattle.mode_values.specs.declared.mode.Mode.{Mode};

use crate::events::at_first;
use as4_codes::{pull_request, receipt};
use as4_effects::Delivery;
use as4_values::{Message, NoMemory, Pair, PlainData, Route, try_clone_two};
use exchange_model::{Event, What};
use msh_core::Core;
use std::alloc::Global;

/// A try of this submission: the push queue is asked for its head, or a pull request is received.
#[tactic(auto, unfolding(exchange_model::specs::Coming::may_come))]
pub fn try_of(alloc: Global, core: &Core, number: u64) -> Result<Option<Event>, NoMemory>
    requires reached { IsReached core.now.end }
    ensures { IfOk result (IsCandidate core.now.modes core.now.end (effect.Tried number ∷ [])) }
{
    let Some(submission) = core.submission(number) else {
        return Ok(None);
    };
    match &submission.route {
        Route::Push { .. } => Ok(Some(at_first(What::Take))),
        Route::Pull { mpc, .. } => {
            let signal = pull_request(alloc, mpc, 0, 0)?;
            Ok(Some(at_first(What::Came(Message::Signal(signal)))))
        }
    }
}

/// The receipt for this submission.
#[tactic(auto, unfolding(exchange_model::specs::Coming::may_come))]
pub fn receipt_of(alloc: Global, core: &Core, number: u64) -> Result<Option<Event>, NoMemory>
    requires reached { IsReached core.now.end }
    ensures { IfOk result (IsCandidate core.now.modes core.now.end (effect.Receipted number ∷ [])) }
{
    let Some(submission) = core.submission(number) else {
        return Ok(None);
    };
    let signal = receipt(alloc, &submission.header, 0, 0)?;
    Ok(Some(at_first(What::Came(Message::Signal(signal)))))
}

/// The receipt for the first submission, bundled with a pull request for the channel of the second.
#[tactic(auto, unfolding(exchange_model::specs::Coming::may_come))]
pub fn pair_of(
    alloc: Global,
    core: &Core,
    number: u64,
    head: u64,
) -> Result<Option<Event>, NoMemory>
    requires reached { IsReached core.now.end }
    ensures { IfOk result (IsCandidate core.now.modes core.now.end (effect.Receipted number ∷ effect.Tried head ∷ [])) }
{
    let Some(submission) = core.submission(number) else {
        return Ok(None);
    };
    let Some(next) = core.submission(head) else {
        return Ok(None);
    };
    let Route::Pull { mpc, .. } = &next.route else {
        return Ok(None);
    };
    match (
        receipt(alloc, &submission.header, 0, 0),
        pull_request(alloc, mpc, 0, 0),
    ) {
        (Ok(receipt), Ok(pull)) => {
            let pair = Pair { receipt, pull };
            Ok(Some(at_first(What::Came(Message::Pair(pair)))))
        }
        (receipt, pull) => {
            drop(receipt);
            drop(pull);
            Err(NoMemory)
        }
    }
}

/// The user message that is delivered.
#[tactic(auto, unfolding(exchange_model::specs::Coming::may_come))]
pub fn delivery_of(alloc: Global, delivery: &Delivery) -> Result<Option<Event>, NoMemory>
    ensures { IfOk result (λ found. (modes : List Mode) (end : End) → IsCandidate modes end (effect.Delivered delivery.now ∷ []) found) }
{
    let (header, payloads) = try_clone_two(alloc, &delivery.header, &delivery.payloads)?;
    Ok(Some(at_first(What::Came(Message::User { header, payloads }))))
}

//! Events of the endpoint's own producer, consumer and clock.

ghost use Rattle.std.specs.Prelude.{◌≡◌, ◌∷◌, [], IfOk, List, Some};
ghost use Rattle.as4_audit.specs.Made.{loads_of};
ghost use Rattle.as4_audit.specs.Taking.{IsCandidate};
ghost use Rattle.as4_effects.specs.declared.effect.Effect.TheVariants as effect;
ghost use Rattle.exchange_model.specs.End.{End};
ghost use Rattle.mode_values.specs.declared.mode.Mode.{Mode};

use crate::events::{at_first, event_at};
use crate::nonce::nonce_of;
use crate::stamp::stamp_ms;
use as4_effects::{Submission, Tick};
use as4_values::{Load, NoMemory, Payload, PlainData, Seq, Text};
use exchange_model::{Event, What};
use pmodes::Modes;
use std::alloc::Global;

/// A setting of the clock.
#[tactic(auto, unfolding(exchange_model::specs::Coming::may_come))]
pub fn tick_of(tick: &Tick) -> Event
    ensures { (modes : List Mode) (end : End) → IsCandidate modes end (effect.Ticked tick.now ∷ []) (Some result) }
{
    event_at(tick.moment, 0, What::Tick)
}

/// A confirmation.
#[tactic(auto, unfolding(exchange_model::specs::Coming::may_come))]
pub fn confirmation_of(upto: u64) -> Event
    ensures { (modes : List Mode) (end : End) → IsCandidate modes end (effect.Confirmed upto ∷ []) (Some result) }
{
    at_first(What::Confirm { upto })
}

/// The submission of a message by its mode.
#[tactic(auto, unfolding(exchange_model::specs::Coming::may_come))]
pub fn submission_of(
    alloc: Global,
    modes: &Modes,
    submission: &Submission,
) -> Result<Option<Event>, NoMemory>
    ensures { IfOk result (λ found. (end : End) → IsCandidate modes.now end (effect.Submitted submission.now ∷ []) found) }
{
    // For its contract: no message belongs to two modes.
    let _apart = modes.get(0);
    let header = &submission.header;
    let Some(mode) = modes.of(header) else {
        return Ok(None);
    };
    let Some(stamp) = stamp_ms(&header.stamp) else {
        return Ok(None);
    };
    let nonce = nonce_of(alloc, submission.number, &header.id)?;
    match (
        mode.name.try_clone(alloc),
        header.conversation.try_clone(alloc),
        loads_of(alloc, submission.payloads.items()),
    ) {
        (Ok(mode), Ok(conversation), Ok(loads)) => {
            let what = What::Submit {
                mode,
                conversation,
                loads,
            };
            Ok(Some(event_at(stamp, nonce, what)))
        }
        (mode, conversation, loads) => {
            drop(mode);
            drop(conversation);
            drop(loads);
            Err(NoMemory)
        }
    }
}

/// The payloads as they were submitted.
fn loads_of(alloc: Global, payloads: &[Payload]) -> Result<Seq<Load>, NoMemory>
    ensures { IfOk result (λ loads. loads ≡ loads_of payloads.now) }
{
    let mut loads = Vec::with_capacity(alloc, payloads.len())?;
    for payload in payloads {
        loads.push(load_of(alloc, payload)?)?;
    }
    Ok(Seq::of(loads))
}

fn load_of(alloc: Global, payload: &Payload) -> Result<Load, NoMemory>
    ensures { IfOk result (λ load. load ≡ record { media = payload.now.media; content = payload.now.content }) }
{
    Ok(Load {
        media: payload.media.try_clone(alloc)?,
        content: payload.content.try_clone(alloc)?,
    })
}

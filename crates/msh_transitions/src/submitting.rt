//! The events `Submit` and `Tick`.
ghost use Rattle.std.specs.Prelude.{◌≡◌, ◌<◌, IfOk, IsOk, false, length};
ghost use Rattle.exchange_model.specs.Submitting.{are_too_large};
ghost use Rattle.exchange_model.specs.Table.{Submits, TakesIn, Ticks};
ghost use Rattle.exchange_model.specs.declared.outcome.Outcome.{Outcome as OutcomeValue};
ghost use Rattle.msh_state.specs.Standing.{CanStand};
ghost use Rattle.msh_transitions.specs.Free.{IsFree};

use crate::rows::{gives, rests, room_for_one};
use as4_effects::{Effect, Tick};
use as4_values::{Load, MessageId, NoMemory, Seq, Text};
use exchange_model::{Event, Outcome, Reply};
use mode_values::Mode;
use msh_state::EndTables;
use pmodes::Modes;
use std::alloc::Global;
use submissions::{Intake, are_too_large, submission};

/// The most submissions of an endpoint.
const MAX_SUBMISSIONS: u64 = 1_048_576;

/// The row of `Submit`.
#[tactic(auto, unfolding(exchange_model::specs::Table::Submits))]
pub fn submit(
    alloc: Global,
    modes: &Modes,
    tables: &EndTables,
    event: &Event,
    name: &Text,
    conversation: &Option<Text>,
    loads: &Seq<Load>,
) -> Result<Outcome, NoMemory>
    ensures row { IfOk result (Submits modes.now tables.now.end event.now name.now conversation.now loads.now) }
    ensures stands { IfOk result (λ outcome. CanStand tables.now.end outcome.effects) }
    ensures free { (row : OutcomeValue) → Submits modes.now tables.now.end event.now name.now conversation.now loads.now row
        → IsFree row → IsOk result }
{
    let Some(mode) = modes.named(name) else {
        return Ok(rests(alloc, Reply::NoMode));
    };
    if tables.submitted() >= MAX_SUBMISSIONS {
        return Ok(rests(alloc, Reply::OutboxFull));
    }
    if are_too_large(loads.items()) {
        return Ok(rests(alloc, Reply::TooLarge));
    }
    take_in(alloc, mode, tables, event, conversation, loads)
}

/// Accepts the message.
fn take_in(
    alloc: Global,
    mode: &Mode,
    tables: &EndTables,
    event: &Event,
    conversation: &Option<Text>,
    loads: &Seq<Load>,
) -> Result<Outcome, NoMemory>
    requires numbered { length tables.now.end.sent < 1048576 }
    requires small { are_too_large loads.now ≡ false }
    ensures row { IfOk result (TakesIn mode.now tables.now.end event.now conversation.now loads.now) }
    ensures stands { IfOk result (λ outcome. CanStand tables.now.end outcome.effects) }
{
    let number = tables.submitted();
    let intake = Intake {
        number,
        now: tables.moment(),
        stamp: event.stamp,
        nonce: event.nonce,
    };
    let room = room_for_one(alloc)?;
    let id = MessageId::of_submission(alloc, number, event.nonce)?;
    let submission = submission(alloc, mode, intake, conversation, loads)?;
    Ok(gives(
        room,
        Effect::Submitted(submission),
        Reply::Submitted { number, id },
    ))
}

/// The row of `Tick`.
#[tactic(auto, unfolding(exchange_model::specs::Table::Ticks))]
pub fn tick(alloc: Global, tables: &EndTables, event: &Event) -> Result<Outcome, NoMemory>
    ensures row { IfOk result (Ticks tables.now.end event.now) }
    ensures stands { IfOk result (λ outcome. CanStand tables.now.end outcome.effects) }
    ensures free { (row : OutcomeValue) → Ticks tables.now.end event.now row → IsFree row → IsOk result }
{
    if event.stamp <= tables.moment() {
        return Ok(rests(alloc, Reply::Ticked { failed: 0 }));
    }
    let room = room_for_one(alloc)?;
    let failed = tables.spent(event.stamp);
    let tick = Tick {
        moment: event.stamp,
    };
    Ok(gives(room, Effect::Ticked(tick), Reply::Ticked { failed }))
}

//! The row of each event.
ghost use Rattle.std.specs.Prelude.{◌≡◌, IfOk, IsOk, IsTrue};
ghost use Rattle.msh_state.specs.Standing.{CanStand};
ghost use Rattle.exchange_model.specs.Coming.{may_come};
ghost use Rattle.exchange_model.specs.Table.{RowOf, Comes};
ghost use Rattle.exchange_model.specs.declared.outcome.Outcome.{Outcome as OutcomeValue};
ghost use Rattle.msh_transitions.specs.Free.{IsFree};
ghost use Rattle.msh_transitions.specs.Given.{GivesRow};

use crate::{asking, bundled, coming, consuming, submitting};
use as4_values::{Message, NoMemory};
use exchange_model::{Event, Outcome, What};
use msh_state::EndTables;
use pmodes::Modes;
use std::alloc::Global;

/// The row of an event at an endpoint with these modes and tables, without regard to the journal's limit. Its effects
/// can be applied there. The reply to `Read` has no payloads: these are on the disk.
pub fn row_of(
    alloc: Global,
    modes: &Modes,
    tables: &EndTables,
    event: &Event,
) -> Result<Outcome, NoMemory>
    ensures row { IfOk result (GivesRow modes.now tables.now.end event.now event.now.what) }
    ensures stands { IfOk result (λ outcome. CanStand tables.now.end outcome.effects) }

    // If the row needs no memory, the result isn't out of memory.
    ensures free { (row : OutcomeValue) → RowOf modes.now tables.now.end event.now event.now.what row → IsFree row → IsOk result }
{
    match &event.what {
        What::Submit {
            mode,
            conversation,
            loads,
        } => submitting::submit(alloc, modes, tables, event, mode, conversation, loads),
        What::Tick => submitting::tick(alloc, tables, event),
        What::Take => asking::take(alloc, tables),
        What::Ask { mode } => asking::ask(alloc, modes, event, mode),
        What::AskWith { mode, n } => asking::ask_with(alloc, modes, tables, event, mode, *n),
        What::Came(message) => row_of_message(alloc, modes, tables, event, message),
        What::Read { n } => consuming::read(alloc, tables, *n),
        What::Confirm { upto } => consuming::confirm(alloc, tables, *upto),
        What::Status { id } => consuming::status(alloc, tables, id),
    }
}

/// The row of a message that is received.
#[tactic(auto, unfolding(exchange_model::specs::Coming::may_come))]
fn row_of_message(
    alloc: Global,
    modes: &Modes,
    tables: &EndTables,
    event: &Event,
    message: &Message,
) -> Result<Outcome, NoMemory>
    requires { IsTrue (may_come (What.Came message.now)) }
    ensures row { IfOk result (Comes modes.now tables.now.end event.now message.now) }
    ensures stands { IfOk result (λ outcome. CanStand tables.now.end outcome.effects) }
    ensures free { (row : OutcomeValue) → Comes modes.now tables.now.end event.now message.now row → IsFree row → IsOk result }
{
    match message {
        Message::User { header, payloads } => {
            coming::user(alloc, modes, tables, event, header, payloads)
        }
        Message::Signal(signal) => coming::signal(alloc, modes, tables, event, signal),
        Message::Pair(pair) => bundled::pair(alloc, modes, tables, event, pair),
    }
}

//! The events that ask an endpoint for something to send (One-Way/Push and One-Way/Pull, ebMS 3.0 Core, section 2.2).
ghost use Rattle.std.specs.Prelude.{◌≡◌, [], IfOk, IsOk};
ghost use Rattle.as4_codes.specs.Signals.{IsPairOf};
ghost use Rattle.as4_values.specs.declared.message.Pair.{Pair as PairValue};
ghost use Rattle.exchange_model.specs.Table.{Takes, Asks, AsksBy, AsksWith, AsksWithBy, Rests, message_of};
ghost use Rattle.exchange_model.specs.Submitting.{address_of};
ghost use Rattle.exchange_model.specs.declared.outcome.Outcome.{Outcome as OutcomeValue};
ghost use Rattle.msh_state.specs.Standing.{CanStand};
ghost use Rattle.msh_transitions.specs.Free.{IsFree};

use crate::rows::{gives, rests, room_for_one};
use as4_codes::{pull_request, receipt_with_pull};
use as4_effects::{Effect, Queue, Submission};
use as4_values::{Message, NoMemory, PlainData, Route, Text, UserHeader, try_clone_two};
use exchange_model::{Event, Outcome, Reply};
use msh_state::{EndTables, Held};
use pmodes::Modes;
use std::alloc::Global;

/// The row of `Take`.
#[tactic(auto, unfolding(exchange_model::specs::Table::Takes))]
pub fn take(alloc: Global, tables: &EndTables) -> Result<Outcome, NoMemory>
    ensures row { IfOk result (Takes tables.now.end) }
    ensures stands { IfOk result (λ outcome. CanStand tables.now.end outcome.effects) }
    ensures free { (row : OutcomeValue) → Takes tables.now.end row → IsFree row → IsOk result }
{
    let Some(number) = tables.head(&Queue::Push) else {
        return Ok(rests(alloc, Reply::Nothing));
    };
    let Some(submission) = tables.get(number) else {
        unreachable!()
    };
    let effect = Effect::Tried { number };
    match (room_for_one(alloc), push_of(alloc, submission)) {
        (Ok(room), Ok(reply)) => Ok(gives(room, effect, reply)),
        (room, reply) => {
            drop(room);
            drop(reply);
            drop(effect);
            Err(NoMemory)
        }
    }
}

/// The push of a submission's message.
fn push_of(alloc: Global, submission: &Submission) -> Result<Reply, NoMemory>
    ensures { IfOk result (λ reply. reply ≡ Reply.Push (address_of submission.now.route) (message_of submission.now)) }
{
    match (
        address_of(&submission.route).try_clone(alloc),
        message_of(alloc, submission),
    ) {
        (Ok(address), Ok(message)) => Ok(Reply::Push { address, message }),
        (address, message) => {
            drop(address);
            drop(message);
            Err(NoMemory)
        }
    }
}

/// The address that messages of the route are sent to.
fn address_of(route: &Route) -> &Text
    ensures { result.now ≡ address_of route.now }
{
    match route {
        Route::Push { address } => address,
        Route::Pull { address, .. } => address,
    }
}

/// The message of a submission.
pub fn message_of(alloc: Global, submission: &Submission) -> Result<Message, NoMemory>
    ensures { IfOk result (λ message. message ≡ message_of submission.now) }
{
    let (header, payloads) = try_clone_two(alloc, &submission.header, &submission.payloads)?;
    Ok(Message::User { header, payloads })
}

/// The row of `Ask`.
#[tactic(auto, unfolding(exchange_model::specs::Table::Asks))]
pub fn ask(alloc: Global, modes: &Modes, event: &Event, name: &Text) -> Result<Outcome, NoMemory>
    ensures row { IfOk result (Asks modes.now event.now name.now) }
    ensures rests { IfOk result (λ outcome. outcome.effects ≡ []) }
    ensures free { (row : OutcomeValue) → Asks modes.now event.now name.now row → IsFree row → IsOk result }
{
    match modes.named(name) {
        None => Ok(rests(alloc, Reply::NoMode)),
        Some(mode) => ask_by(alloc, &mode.route, event),
    }
}

fn ask_by(alloc: Global, route: &Route, event: &Event) -> Result<Outcome, NoMemory>
    ensures row { IfOk result (AsksBy route.now event.now) }
    ensures rests { IfOk result (λ outcome. outcome.effects ≡ []) }
    ensures free { (row : OutcomeValue) → AsksBy route.now event.now row → IsFree row → IsOk result }
{
    match route {
        Route::Push { .. } => Ok(rests(alloc, Reply::NoMode)),
        Route::Pull { mpc, address } => {
            let address = address.try_clone(alloc)?;
            let signal = pull_request(alloc, mpc, event.stamp, event.nonce)?;
            Ok(rests(
                alloc,
                Reply::Request {
                    address,
                    message: Message::Signal(signal),
                },
            ))
        }
    }
}

/// The row of `AskWith`.
#[tactic(auto, unfolding(exchange_model::specs::Table::AsksWith))]
pub fn ask_with(
    alloc: Global,
    modes: &Modes,
    tables: &EndTables,
    event: &Event,
    name: &Text,
    n: u64,
) -> Result<Outcome, NoMemory>
    ensures row { IfOk result (AsksWith modes.now tables.now.end event.now name.now n) }
    ensures rests { IfOk result (λ outcome. outcome.effects ≡ []) }
    ensures free { (row : OutcomeValue) → AsksWith modes.now tables.now.end event.now name.now n row → IsFree row → IsOk result }
{
    match modes.named(name) {
        None => Ok(rests(alloc, Reply::NoMode)),
        Some(mode) => ask_with_by(alloc, &mode.route, tables, event, n),
    }
}

fn ask_with_by(
    alloc: Global,
    route: &Route,
    tables: &EndTables,
    event: &Event,
    n: u64,
) -> Result<Outcome, NoMemory>
    ensures row { IfOk result (AsksWithBy route.now tables.now.end event.now n) }
    ensures rests { IfOk result (λ outcome. outcome.effects ≡ []) }
    ensures free { (row : OutcomeValue) → AsksWithBy route.now tables.now.end event.now n row → IsFree row → IsOk result }
{
    let Route::Pull { mpc, address } = route else {
        return Ok(rests(alloc, Reply::NoMode));
    };
    match tables.read(n) {
        Held::Gone => Ok(rests(alloc, Reply::Gone)),
        Held::NoEntry => Ok(rests(alloc, Reply::NoEntry)),
        Held::Entry { header, .. } => request_with(alloc, header, mpc, address, event),
    }
}

/// The request for a channel's next message, with the receipt for this header.
fn request_with(
    alloc: Global,
    header: &UserHeader,
    mpc: &Text,
    address: &Text,
    event: &Event,
) -> Result<Outcome, NoMemory>
    ensures row { IfOk result (λ outcome. (pair : PairValue) × IsPairOf header.now mpc.now event.now.stamp event.now.nonce pair
        × Rests (Reply.Request address.now (Message.Pair pair)) outcome) }
    ensures rests { IfOk result (λ outcome. outcome.effects ≡ []) }
{
    match (
        address.try_clone(alloc),
        receipt_with_pull(alloc, header, mpc, event.stamp, event.nonce),
    ) {
        (Ok(address), Ok(pair)) => Ok(rests(
            alloc,
            Reply::Request {
                address,
                message: Message::Pair(pair),
            },
        )),
        (address, pair) => {
            drop(address);
            drop(pair);
            Err(NoMemory)
        }
    }
}

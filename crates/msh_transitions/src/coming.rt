//! The messages of the other endpoint.
ghost use Rattle.std.specs.Prelude.{◌≡◌, ◌↔◌, Some, IfOk, IfErr, IfSome, IsSome, IsTrue, option_map};
ghost use Rattle.exchange_model.specs.Coming.{is_deliverable};
ghost use Rattle.exchange_model.specs.Table.{UserComes, Delivers, Gives, PullComes, ReceiptComes, Settles, SignalComes, IsOther, message_of};
ghost use Rattle.exchange_model.specs.Questions.{head_of, sent_at};
ghost use Rattle.msh_state.specs.Standing.{CanStand};
ghost use Rattle.exchange_model.specs.declared.sent.Sent.{Sent};
ghost use Rattle.msh_transitions.specs.Naming.{IsFor, IsRefusedBy, referred};

use crate::asking::message_of;
use crate::refusing::refusals_of;
use crate::rows::{errs, gives, receipts, rests, room_for_one};
use as4_codes::receipt;
use as4_effects::{Delivery, Effect, Queue};
use as4_values::{
    Message, MessageId, NoMemory, Payload, PlainData, Seq, Signal, SignalBody, Text, UserHeader,
    try_clone_two,
};
use exchange_model::{Event, Outcome, Reply};
use msh_state::EndTables;
use pmodes::Modes;
use std::alloc::Global;

/// The row of a user message that is received.
#[tactic(auto, unfolding(exchange_model::specs::Table::UserComes))]
pub fn user(
    alloc: Global,
    modes: &Modes,
    tables: &EndTables,
    event: &Event,
    header: &UserHeader,
    payloads: &Seq<Payload>,
) -> Result<Outcome, NoMemory>
    requires { IsTrue (is_deliverable header.now payloads.now) }
    ensures row { IfOk result (UserComes modes.now tables.now.end event.now header.now payloads.now) }
    ensures stands { IfOk result (λ outcome. CanStand tables.now.end outcome.effects) }
{
    if modes.of(header).is_none() {
        return errs(alloc, 10, &header.id, event);
    }
    if tables.holds(&header.id) {
        return receipts(alloc, header, event);
    }
    deliver(alloc, event, header, payloads)
}

/// Delivers a message that is received for the first time.
#[tactic(auto, unfolding(exchange_model::specs::Coming::is_deliverable))]
fn deliver(
    alloc: Global,
    event: &Event,
    header: &UserHeader,
    payloads: &Seq<Payload>,
) -> Result<Outcome, NoMemory>
    requires { IsTrue (is_deliverable header.now payloads.now) }
    ensures { IfOk result (Delivers event.now header.now payloads.now) }
{
    match (
        room_for_one(alloc),
        receipt(alloc, header, event.stamp, event.nonce),
        try_clone_two(alloc, header, payloads),
    ) {
        (Ok(room), Ok(signal), Ok(message)) => {
            let (header, payloads) = message;
            Ok(gives(
                room,
                Effect::Delivered(Delivery { header, payloads }),
                Reply::Answer(Message::Signal(signal)),
            ))
        }
        (room, signal, message) => {
            drop(room);
            drop(signal);
            drop(message);
            Err(NoMemory)
        }
    }
}

/// The rows of a signal that is received.
pub fn signal(
    alloc: Global,
    modes: &Modes,
    tables: &EndTables,
    event: &Event,
    signal: &Signal,
) -> Result<Outcome, NoMemory>
    ensures row { IfOk result (SignalComes modes.now tables.now.end event.now signal.now.id signal.now.ref_to signal.now.body) }
    ensures stands { IfOk result (λ outcome. CanStand tables.now.end outcome.effects) }
{
    match &signal.body {
        SignalBody::Pull { mpc } => pull(alloc, modes, tables, event, &signal.id, mpc),
        SignalBody::Receipt { copy } => {
            receipt_of(alloc, tables, event, &signal.id, &signal.ref_to, copy)
        }
        SignalBody::Errors { items } => {
            let effects = refusals_of(alloc, tables, &signal.ref_to, items.items())?;
            Ok(Outcome {
                effects,
                reply: Reply::Quiet,
            })
        }
    }
}

/// The row of a pull request that is received.
#[tactic(auto, unfolding(exchange_model::specs::Table::PullComes))]
pub fn pull(
    alloc: Global,
    modes: &Modes,
    tables: &EndTables,
    event: &Event,
    id: &MessageId,
    mpc: &Text,
) -> Result<Outcome, NoMemory>
    ensures row { IfOk result (PullComes modes.now tables.now.end event.now id.now mpc.now) }
    ensures stands { IfOk result (λ outcome. CanStand tables.now.end outcome.effects) }
{
    if modes.channel(mpc).is_none() {
        return errs(alloc, 1, id, event);
    }
    match head(alloc, tables, mpc)? {
        None => errs(alloc, 6, id, event),
        Some(number) => send(alloc, tables, number),
    }
}

/// The number of the head of the channel.
fn head(alloc: Global, tables: &EndTables, mpc: &Text) -> Result<Option<u64>, NoMemory>
    ensures value { IfOk result (λ head. head ≡ option_map (λ s. s.submission.number) (head_of (Queue.Channel mpc.now) tables.now.end)) }
    ensures found { IfOk result (λ head. IfSome head (λ number.
        sent_at number tables.now.end.sent ≡ head_of (Queue.Channel mpc.now) tables.now.end)) }
{
    let queue = Queue::Channel(mpc.try_clone(alloc)?);
    Ok(tables.head(&queue))
}

/// Answers with the message of the submission of this number.
fn send(alloc: Global, tables: &EndTables, number: u64) -> Result<Outcome, NoMemory>
    requires { IsSome (sent_at number tables.now.end.sent) }
    ensures { IfOk result (λ outcome. IfSome (sent_at number tables.now.end.sent) (λ s.
        Gives (Effect.Tried number) (Reply.Answer (message_of s.submission)) outcome)) }
{
    let Some(submission) = tables.get(number) else {
        unreachable!()
    };
    let room = room_for_one(alloc)?;
    let message = message_of(alloc, submission)?;
    Ok(gives(room, Effect::Tried { number }, Reply::Answer(message)))
}

/// The row of a receipt that is received.
#[tactic(auto, using(crate::proofs::ComingRows::refused_comes, crate::proofs::ComingRows::settled_comes, crate::proofs::ComingRows::refused_is_known))]
fn receipt_of(
    alloc: Global,
    tables: &EndTables,
    event: &Event,
    id: &MessageId,
    ref_to: &Option<MessageId>,
    copy: &Option<UserHeader>,
) -> Result<Outcome, NoMemory>
    ensures row { IfOk result (ReceiptComes tables.now.end event.now id.now ref_to.now copy.now) }
    ensures stands { IfOk result (λ outcome. CanStand tables.now.end outcome.effects) }
{
    match receipt_for(tables, ref_to, copy) {
        Err(code) => errs(alloc, code, id, event),
        Ok(number) => settle(alloc, tables, number),
    }
}

/// The number of the submission that a receipt is for, or the code of the error that it gives.
pub fn receipt_for(
    tables: &EndTables,
    ref_to: &Option<MessageId>,
    copy: &Option<UserHeader>,
) -> Result<u64, u16>
    ensures found { IfOk result (λ number. (s : Sent) × (sent_at number tables.now.end.sent ≡ Some s)
        × IsFor ref_to.now copy.now tables.now.end.sent s) }
    ensures refused { IfErr result (IsRefusedBy ref_to.now copy.now tables.now.end.sent) }
{
    let Some(number) = named(tables, ref_to) else {
        return Err(3);
    };
    let Some(submission) = tables.get(number) else {
        unreachable!()
    };
    if is_other(copy, &submission.header) {
        return Err(302);
    }
    Ok(number)
}

/// The number of the submission that the reference names.
fn named(tables: &EndTables, ref_to: &Option<MessageId>) -> Option<u64>
    ensures value { result ≡ option_map (λ s. s.submission.number) (referred ref_to.now tables.now.end.sent) }
    ensures found { IfSome result (λ number. sent_at number tables.now.end.sent ≡ referred ref_to.now tables.now.end.sent) }
{
    match ref_to {
        None => None,
        Some(id) => tables.number_of(id),
    }
}

/// Whether there is a copy, and it isn't this header.
fn is_other(copy: &Option<UserHeader>, header: &UserHeader) -> bool
    ensures { IsTrue result ↔ IsOther copy.now header.now }
{
    match copy {
        None => false,
        Some(copy) => !copy.same(header),
    }
}

/// The receipt for a submission was received.
fn settle(alloc: Global, tables: &EndTables, number: u64) -> Result<Outcome, NoMemory>
    requires { IsSome (sent_at number tables.now.end.sent) }
    ensures row { IfOk result (λ outcome. IfSome (sent_at number tables.now.end.sent) (λ s. Settles s outcome)) }
    ensures stands { IfOk result (λ outcome. CanStand tables.now.end outcome.effects) }
{
    if !tables.is_pending(number) {
        return Ok(rests(alloc, Reply::Quiet));
    }
    let room = room_for_one(alloc)?;
    Ok(gives(room, Effect::Receipted { number }, Reply::Quiet))
}

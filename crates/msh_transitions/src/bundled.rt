//! A receipt is received, bundled with the next pull request (ebMS 3.0 Core, section 5.2.1, on several units in one
//! message):
//!
//!     the receipt gives an error       that error
//!     no mode names the channel        an error; the receipt settles nothing
//!     the submission is settled        the pull request's row
//!     the submission is pending        it is receipted, and then the head of the channel is sent, or an error if the
//!                                      channel is empty
//!
//! The calls of `EndTables::submitted` are for its contract: each submission is at the place of its number.
ghost use Rattle.std.specs.Prelude.{◌≡◌, ◌∷◌, [], IfOk, IfSome, IsSome, IsTrue, is_some};
ghost use Rattle.as4_effects.specs.declared.effect.Effect.TheVariants.{Receipted, Tried};
ghost use Rattle.mode_values.specs.ModeMatch.{channel_mode};
ghost use Rattle.msh_state.specs.Standing.{CanStand};
ghost use Rattle.exchange_model.specs.Apply.{is_fit};
ghost use Rattle.exchange_model.specs.Questions.{sent_at};
ghost use Rattle.exchange_model.specs.Table.{PairComes, message_of};
ghost use Rattle.msh_transitions.specs.Bundled.{IsBehind, IsEmptyBehind};

use crate::asking::message_of;
use crate::coming::{pull, receipt_for};
use crate::rows::{errs, gives, room_for_one};
use as4_codes::error_signal;
use as4_effects::{Effect, Queue};
use as4_values::{Message, MessageId, NoMemory, Pair, PlainData, Seq, SignalBody, Text};
use exchange_model::{Event, Outcome, Reply};
use msh_state::EndTables;
use pmodes::Modes;
use std::alloc::Global;

/// The rows of a pair that is received.
pub fn pair(
    alloc: Global,
    modes: &Modes,
    tables: &EndTables,
    event: &Event,
    pair: &Pair,
) -> Result<Outcome, NoMemory>
    ensures row { IfOk result (PairComes modes.now tables.now.end event.now pair.now.receipt pair.now.pull) }
    ensures stands { IfOk result (λ outcome. CanStand tables.now.end outcome.effects) }
{
    let (SignalBody::Receipt { copy }, SignalBody::Pull { mpc }) = (
        &pair.receipt.body,
        &pair.pull.body,
    ) else {
        unreachable!()
    };
    let number = match receipt_for(tables, &pair.receipt.ref_to, copy) {
        Err(code) => return errs(alloc, code, &pair.receipt.id, event),
        Ok(number) => number,
    };
    if !is_named(modes, mpc) {
        return errs(alloc, 1, &pair.pull.id, event);
    }
    if !tables.is_pending(number) {
        return pull(alloc, modes, tables, event, &pair.pull.id, mpc);
    }
    behind(alloc, tables, event, &pair.pull.id, mpc, number)
}

fn is_named(modes: &Modes, mpc: &Text) -> bool
    ensures { result ≡ is_some (channel_mode modes.now mpc.now) }
{
    modes.channel(mpc).is_some()
}

/// The submission of this number is receipted, and then the pull request is served.
fn behind(
    alloc: Global,
    tables: &EndTables,
    event: &Event,
    id: &MessageId,
    mpc: &Text,
    number: u64,
) -> Result<Outcome, NoMemory>
    requires { IsTrue (is_fit (Receipted number) tables.now.end) }
    ensures row { IfOk result (IsBehind tables.now.end event.now id.now mpc.now number) }
    ensures stands { IfOk result (λ outcome. CanStand tables.now.end outcome.effects) }
{
    let _numbered = tables.submitted();
    let queue = Queue::Channel(mpc.try_clone(alloc)?);
    match tables.head_behind(&queue, number) {
        None => empty_behind(alloc, event, id, number),
        Some(head) => send_behind(alloc, tables, number, head),
    }
}

/// It is receipted, and then the channel is empty.
fn empty_behind(
    alloc: Global,
    event: &Event,
    id: &MessageId,
    number: u64,
) -> Result<Outcome, NoMemory>
    ensures { IfOk result (IsEmptyBehind event.now id.now number) }
{
    match (
        room_for_one(alloc),
        error_signal(alloc, 6, Some(id), event.stamp, event.nonce),
    ) {
        (Ok(room), Ok(signal)) => Ok(gives(
            room,
            Effect::Receipted { number },
            Reply::Answer(Message::Signal(signal)),
        )),
        (room, signal) => {
            drop(room);
            drop(signal);
            Err(NoMemory)
        }
    }
}

/// It is receipted, and the answer is the head of the channel.
fn send_behind(
    alloc: Global,
    tables: &EndTables,
    number: u64,
    head: u64,
) -> Result<Outcome, NoMemory>
    requires { IsSome (sent_at head tables.now.end.sent) }
    ensures effects { IfOk result (λ outcome. outcome.effects ≡ Receipted number ∷ Tried head ∷ []) }
    ensures whole { IfOk result (λ outcome. IfSome (sent_at head tables.now.end.sent) (λ s.
        outcome ≡ record { effects = Receipted number ∷ Tried head ∷ []; reply = Reply.Answer (message_of s.submission) })) }
{
    let Some(submission) = tables.get(head) else {
        unreachable!()
    };
    let effects = vec![in alloc;
        Effect::Receipted { number },
        Effect::Tried { number: head },
    ];
    match (effects, message_of(alloc, submission)) {
        (Ok(effects), Ok(message)) => Ok(Outcome {
            effects: Seq::of(effects),
            reply: Reply::Answer(message),
        }),
        (effects, message) => {
            drop(effects);
            drop(message);
            Err(NoMemory)
        }
    }
}

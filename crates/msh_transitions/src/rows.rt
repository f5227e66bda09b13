//! Outcomes of one row: no effect, or one.
ghost use Rattle.std.specs.Prelude.{◌≡◌, ◌<◌, [], IfOk, IsSome, vec_capacity, vec_len};
ghost use Rattle.as4_codes.specs.ErrorCodes.{error_row};
ghost use Rattle.exchange_model.specs.Table.{Rests, Gives, Errs, Receipts};

use as4_codes::{error_signal, receipt};
use as4_effects::Effect;
use as4_values::{Message, MessageId, NoMemory, Seq, UserHeader};
use exchange_model::{Event, Outcome, Reply};
use std::alloc::Global;

/// Room for one effect.
pub fn room_for_one(alloc: Global) -> Result<Vec<Effect>, NoMemory>
    ensures empty { IfOk result (λ room. room.items ≡ []) }
    ensures room { IfOk result (λ room. vec_len room < vec_capacity room) }
{
    Ok(Vec::with_capacity(alloc, 1)?)
}

/// One effect. Takes no memory.
pub fn gives(room: Vec<Effect>, effect: Effect, reply: Reply) -> Outcome
    requires empty { room.items ≡ [] }
    requires room { vec_len room < vec_capacity room }
    ensures { Gives effect reply result }
{
    let mut effects = room;
    effects.push_reserved(effect);
    Outcome {
        effects: Seq::of(effects),
        reply,
    }
}

/// A reply, and no effect.
pub fn rests(alloc: Global, reply: Reply) -> Outcome
    ensures { Rests reply result }
{
    Outcome {
        effects: Seq::of(Vec::new(alloc)),
        reply,
    }
}

/// An error signal about a message, and no effect.
pub fn errs(alloc: Global, code: u16, about: &MessageId, event: &Event) -> Result<Outcome, NoMemory>
    requires { IsSome (error_row code) }
    ensures { IfOk result (Errs code about.now event.now) }
{
    let signal = error_signal(alloc, code, Some(about), event.stamp, event.nonce)?;
    Ok(rests(alloc, Reply::Answer(Message::Signal(signal))))
}

/// A receipt for a message that was received before, and no effect.
pub fn receipts(alloc: Global, header: &UserHeader, event: &Event) -> Result<Outcome, NoMemory>
    ensures { IfOk result (Receipts header.now [] event.now) }
{
    let signal = receipt(alloc, header, event.stamp, event.nonce)?;
    Ok(rests(alloc, Reply::Answer(Message::Signal(signal))))
}

//! The events of this endpoint's consumer, and `Status`, an event of its producer.
ghost use Rattle.std.specs.Prelude.{◌≡◌, [], IfOk, IsOk, Some, option_map};
ghost use Rattle.exchange_model.specs.Questions.{sent_at, sent_of, standing_of};
ghost use Rattle.exchange_model.specs.Table.{Confirms, Rests, read_reply, standing_reply};
ghost use Rattle.exchange_model.specs.declared.outcome.Outcome.{Outcome as OutcomeValue};
ghost use Rattle.msh_state.specs.Standing.{CanStand};
ghost use Rattle.msh_transitions.specs.Free.{IsBare, IsFree};
ghost use Rattle.msh_transitions.specs.Given.{bare_read};

use crate::rows::{gives, rests, room_for_one};
use as4_effects::Effect;
use as4_values::{MessageId, NoMemory, PlainData, Seq};
use exchange_model::{Outcome, Reply, Standing};
use inbox::Held;
use msh_state::EndTables;
use std::alloc::Global;

/// The row of `Read`, without payloads.
pub fn read(alloc: Global, tables: &EndTables, n: u64) -> Result<Outcome, NoMemory>
    ensures row { IfOk result (Rests (bare_read tables.now.end n)) }
    ensures stands { IfOk result (λ outcome. CanStand tables.now.end outcome.effects) }
    ensures free { (row : OutcomeValue) → Rests (read_reply tables.now.end n) row → IsFree row → IsOk result }
{
    Ok(rests(alloc, bare_read(alloc, tables, n)?))
}

/// The reply to `Read`, without payloads.
#[tactic(auto, using(crate::proofs::OwnRows::bare_entry), unfolding(exchange_model::specs::Table::read_reply, crate::specs::Given::bare_reply))]
fn bare_read(alloc: Global, tables: &EndTables, n: u64) -> Result<Reply, NoMemory>
    ensures reply { IfOk result (λ reply. reply ≡ bare_read tables.now.end n) }
    ensures free { IsBare (read_reply tables.now.end n) → IsOk result }
{
    match tables.read(n) {
        Held::Gone => Ok(Reply::Gone),
        Held::NoEntry => Ok(Reply::NoEntry),
        Held::Entry { header, .. } => Ok(Reply::Entry {
            header: header.try_clone(alloc)?,
            payloads: Seq::of(Vec::new(alloc)),
        }),
    }
}

/// The row of `Confirm`.
#[tactic(auto, unfolding(exchange_model::specs::Table::Confirms))]
pub fn confirm(alloc: Global, tables: &EndTables, upto: u64) -> Result<Outcome, NoMemory>
    ensures row { IfOk result (Confirms tables.now.end upto) }
    ensures stands { IfOk result (λ outcome. CanStand tables.now.end outcome.effects) }
    ensures free { (row : OutcomeValue) → Confirms tables.now.end upto row → IsFree row → IsOk result }
{
    if upto < tables.confirmed() {
        return Ok(rests(alloc, Reply::Gone));
    }
    if upto >= tables.received() {
        return Ok(rests(alloc, Reply::NoEntry));
    }
    let room = room_for_one(alloc)?;
    Ok(gives(room, Effect::Confirmed { upto }, Reply::Confirmed { upto }))
}

/// The row of `Status`.
pub fn status(alloc: Global, tables: &EndTables, id: &MessageId) -> Result<Outcome, NoMemory>
    ensures row { IfOk result (Rests (standing_reply (sent_of id.now tables.now.end.sent))) }
    ensures stands { IfOk result (λ outcome. CanStand tables.now.end outcome.effects) }
    ensures free { (row : OutcomeValue) → Rests (standing_reply (sent_of id.now tables.now.end.sent)) row → IsFree row → IsOk result }
{
    Ok(rests(alloc, standing_reply(alloc, tables, id)?))
}

/// The reply to `Status`.
fn standing_reply(alloc: Global, tables: &EndTables, id: &MessageId) -> Result<Reply, NoMemory>
    ensures reply { IfOk result (λ reply. reply ≡ standing_reply (sent_of id.now tables.now.end.sent)) }
    ensures free { IsBare (standing_reply (sent_of id.now tables.now.end.sent)) → IsOk result }
{
    let Some(number) = tables.number_of(id) else {
        return Ok(Reply::Unknown);
    };
    match tables.status(number) {
        None => unreachable!(),
        Some(Standing::Pending { tries }) => Ok(Reply::Pending { tries }),
        Some(Standing::Receipted) => Ok(Reply::Receipted),
        Some(Standing::Failed) => Ok(Reply::Failed),
        Some(Standing::Refused) => refused(alloc, tables, number),
    }
}

/// The error with which the other endpoint refused the submission.
fn refused(alloc: Global, tables: &EndTables, number: u64) -> Result<Reply, NoMemory>
    requires { option_map (λ s. standing_of s.tries s.mark) (sent_at number tables.now.end.sent) ≡ Some Standing.Refused }
    ensures { IfOk result (λ reply. reply ≡ standing_reply (sent_at number tables.now.end.sent)) }
{
    match tables.refused_code(number) {
        None => unreachable!(),
        Some(code) => Ok(Reply::RefusedWith {
            code: code.try_clone(alloc)?,
        }),
    }
}

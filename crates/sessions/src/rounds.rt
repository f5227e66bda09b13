//! How rounds end, and the round that sets the clock.
ghost use Rattle.std.specs.Prelude.{◌≡◌, ◌≢◌, Err, Ok, Result};
ghost use Rattle.as4_flow.specs.Draws.{Draws};
ghost use Rattle.exchange_model.specs.declared.reply.Reply.{Reply as ReplyValue};
ghost use Rattle.office.specs.declared.fault.OfficeFault.{OfficeFault as FaultValue};
ghost use Rattle.sessions.specs.Answering.{IsSamePass};
ghost use Rattle.sessions.specs.Shared.{IsLegal, TellsTick, TicksUnder};

use crate::naming::Opening;
use crate::shared_office::SharedOffice;
use as4_disk::Disk;
use as4_flow::Clock;
use as4_message::Refusal;
use exchange_model::Reply;
use office::{Call, OfficeFault};
use pass_book::Pass;
use std::sync::{Mutex, Wait};

/// How a round ended.
#[derive(Drop)]
pub enum RoundEnd {
    /// There was nothing to send.
    Nothing,
    Done,
    /// The response has no body, and this status.
    Status { status: u16 },
    /// The body of the response is no message.
    Odd(Refusal),
    /// No P-Mode has the name.
    NoMode,
    /// No connection was opened.
    LinkFault,
    /// The source ended before a response was whole.
    Cut,
    /// What came is no response.
    Bad,
    /// The response is over a limit.
    TooLong,
    /// The source failed.
    ReadFault,
    /// The sink failed.
    WriteFault,
    /// The disk failed in this round: its counts of faults before and after.
    DiskFault { before: u64, after: u64 },
    /// The disk failed in an earlier call, with these counts.
    Stopped { before: u64, after: u64 },
    /// The journal, of `size` bytes, has no room for the `need` bytes of the record.
    Full { size: u64, need: u64 },
    /// The history is full.
    Worn,
    NoMemory,
}

/// Sets the clock of the endpoint to the moment, as an event with nonce 0. It takes no memory.
pub fn tick_round<R: Wait, D: Disk, J: Opening, C: Clock>(
    rt: &R,
    office: &Mutex<SharedOffice<'_, D, J>>,
    pass: &mut Pass<'_, Call>,
    clock: &mut C,
) -> RoundEnd
    requires book { pass.old.book ≡ J.book }
    ensures ticks { (result_of : Result ReplyValue FaultValue) × TicksUnder D.Disk J.Opening pass.old pass.new (C.last clock.new) result_of
        × TellsTick result_of result }
    ensures moment { Draws (C.last clock.new) (C.to_come clock.old) (C.to_come clock.new) }
    ensures legal { IsLegal J.Opening pass.old.list → IsLegal J.Opening pass.new.list }
    ensures pass { IsSamePass pass.old pass.new }
    ensures memory { result ≢ RoundEnd.NoMemory }
{
    let stamp = clock.now();
    match office.lock(rt).tick(pass, stamp) {
        Ok(reply) => ticked(reply),
        Err(fault) => halted(fault),
    }
}

// How a round ends with this reply to its tick.
fn ticked(reply: Reply) -> RoundEnd
    ensures told { TellsTick (Ok reply) result }
    ensures memory { result ≢ RoundEnd.NoMemory }
{
    match reply {
        Reply::Full { size, need } => RoundEnd::Full { size, need },
        other => {
            drop(other);
            RoundEnd::Done
        }
    }
}

// How a round ends whose tick got no reply.
fn halted(fault: OfficeFault) -> RoundEnd
    requires memory { fault ≢ OfficeFault.NoMemory }
    ensures told { TellsTick (Err fault) result }
    ensures memory { result ≢ RoundEnd.NoMemory }
{
    match fault {
        OfficeFault::Disk { before, after } => RoundEnd::DiskFault { before, after },
        OfficeFault::Stopped { before, after } => RoundEnd::Stopped { before, after },
        OfficeFault::Worn => RoundEnd::Worn,
        OfficeFault::NoMemory => RoundEnd::NoMemory,
    }
}

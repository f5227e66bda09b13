//! A shared office whose rounds go over a link in memory.
ghost use Rattle.std.specs.Prelude.{◌≡◌, ◌^◌, IfOk, []};
ghost use Rattle.as4_disk.specs.MemoryMeaning.{memory_meaning};
ghost use Rattle.sessions.specs.Shared.{IsOpened};

use crate::samples::{FIRST, MODES};
use as4_disk::{Files, MemoryDisk};
use as4_flow::{CountNonces, ListClock};
use as4_host::{MemoryLink, Stack, StreamPlan};
use as4_values::{MessageId, Octets, Seq, Text};
use exchange_model::{Event, Reply, What};
use office::{Call, Office};
use pass_book::Pass;
use pmodes::Modes;
use rounds::{RoundEnd, pull_round, push_round};
use sessions::{Opening, Sending, SharedOffice};
use std::alloc::{AllocError, Global};
use std::sync::{Mutex, Wait};

/// How a round ended.
#[derive(Clone, Copy, Debug, PartialEq, Eq)]
pub(crate) enum EndKind {
    Nothing,
    Done,
    Status(u16),
    Odd(u16),
    NoMode,
    LinkFault,
    Cut,
    ReadFault,
    WriteFault,
    DiskFault,
    Stopped,
    Other,
}

pub(crate) fn kind_of(end: RoundEnd) -> EndKind {
    match end {
        RoundEnd::Nothing => EndKind::Nothing,
        RoundEnd::Done => EndKind::Done,
        RoundEnd::Status { status } => EndKind::Status(status),
        RoundEnd::Odd(refusal) => {
            let code = refusal.code;
            drop(refusal);
            EndKind::Odd(code)
        }
        RoundEnd::NoMode => EndKind::NoMode,
        RoundEnd::LinkFault => EndKind::LinkFault,
        RoundEnd::Cut => EndKind::Cut,
        RoundEnd::ReadFault => EndKind::ReadFault,
        RoundEnd::WriteFault => EndKind::WriteFault,
        RoundEnd::DiskFault { .. } => EndKind::DiskFault,
        RoundEnd::Stopped { .. } => EndKind::Stopped,
        other => {
            drop(other);
            EndKind::Other
        }
    }
}

/// A round, and what the link does.
#[derive(Clone, Copy)]
pub(crate) struct Case<'a> {
    /// How many messages are submitted before.
    pub(crate) submitted: u64,
    /// The mode by which it pulls, or none for a round that pushes.
    pub(crate) pulls: Option<&'a [u8]>,
    /// The bytes of the responses.
    pub(crate) answers: &'a [&'a [u8]],
    /// The numbers of the open, the read and the write that fail, 0 for none.
    pub(crate) failing: [u64; 3],
}

/// What is left of a round: how it ended, how many connections were asked for, how many calls the office had, how many
/// messages are received and receipted, and how often the first submission was tried, where it is pending.
#[derive(Clone, Copy, Debug, PartialEq, Eq)]
pub(crate) struct Left {
    pub(crate) end: EndKind,
    pub(crate) asked: u64,
    pub(crate) calls: u64,
    pub(crate) inbox: u64,
    pub(crate) receipted: u64,
    pub(crate) tries: u64,
}

pub(crate) type Opened<'a> = (Office<'a, MemoryDisk>, Pass<'a, Call>);

/// An office on an empty disk, of which the device calls with these numbers fail, the first being 1.
pub(crate) fn opened<'a>(alloc: Global, failing: &[u64]) -> Result<Opened<'a>, AllocError>
    ensures first { IfOk result (λ o. o.0.list ≡ []) }
    ensures book { IfOk result (λ o. o.1.book ≡ o.0.book) }
    ensures stake { IfOk result (λ o. o.1.stake ≡ 2 ^ 63) }
{
    let Ok(modes) = Modes::read(alloc, MODES) else {
        return Err(AllocError);
    };
    let files = Files {
        selector: Octets::of(Vec::new(alloc)),
        leaf0: Octets::of(Vec::new(alloc)),
        leaf1: Octets::of(Vec::new(alloc)),
    };
    match Office::open(
        alloc,
        MemoryDisk::of(files, Seq::of(failing.to_vec(alloc)?)),
        modes,
    ) {
        Ok(opened) => Ok(opened),
        Err((_, disk)) => {
            drop(disk);
            Err(AllocError)
        }
    }
}

/// A link that gives these answers, of which the open, the read and the write with these numbers fail.
pub(crate) fn link_of(
    alloc: Global,
    given: &[&[u8]],
    failing: &[u64; 3],
) -> Result<MemoryLink, AllocError> {
    let mut answers = Vec::new(alloc);
    for answer in given {
        answers.push(Octets::of(answer.to_vec(alloc)?))?;
    }
    let Ok(answers) = Stack::of(alloc, Seq::of(answers)) else {
        return Err(AllocError);
    };
    let mut plan = StreamPlan::plain(alloc);
    plan.failing_reads = failing[1..2].to_vec(alloc)?;
    plan.failing_writes = failing[2..].to_vec(alloc)?;
    Ok(MemoryLink::of(alloc, answers, failing[..1].to_vec(alloc)?, plan))
}

/// Submits a message of the mode that pushes, without loads.
#[tactic(auto, unfolding(exchange_model::specs::Coming::may_come))]
pub(crate) fn submits<R: Wait, J: Opening>(
    rt: &R,
    alloc: Global,
    office: &Mutex<SharedOffice<'_, MemoryDisk, J>>,
    pass: &mut Pass<'_, Call>,
    nonce: u64,
)
    requires book { pass.old.book ≡ J.book }
    ensures book { pass.new.book ≡ J.book }
{
    let Ok(mode) = Text::read(alloc, b"invoice") else {
        return;
    };
    let event = Event {
        stamp: 0,
        nonce: u128::from(nonce),
        what: What::Submit {
            mode,
            conversation: None,
            loads: Seq::of(Vec::new(alloc)),
        },
    };
    drop(office.lock(rt).send(alloc, pass, event, None));
}

/// A round of the case over an office to which nothing happened yet.
pub(crate) fn after<R: Wait, J: Opening>(
    rt: &R,
    alloc: Global,
    office: Office<'_, MemoryDisk>,
    mut pass: Pass<'_, Call>,
    case: Case<'_>,
) -> Result<Left, AllocError>
    requires opened { IsOpened memory_meaning J.Opening office }
    requires book { pass.book ≡ J.book }
{
    let mut link = link_of(alloc, case.answers, &case.failing)?;
    let shared: Mutex<SharedOffice<'_, MemoryDisk, J>> = Mutex::new(SharedOffice::new(office));
    for n in 0..case.submitted {
        submits(rt, alloc, &shared, &mut pass, n + 1);
    }
    let end = played(rt, alloc, &shared, &mut pass, case, &mut link);
    let calls = pass.share();
    let tries = tries(rt, alloc, &shared, &mut pass);
    let office = shared.into_inner().into_office();
    let totals = office.totals();
    drop(office);
    let left = Left {
        end: kind_of(end),
        asked: link.addresses().len() as u64,
        calls,
        inbox: totals.inbox,
        receipted: totals.receipted,
        tries,
    };
    drop(link);
    drop(pass);
    Ok(left)
}

/// Makes the round of the case.
fn played<R: Wait, J: Opening>(
    rt: &R,
    alloc: Global,
    office: &Mutex<SharedOffice<'_, MemoryDisk, J>>,
    pass: &mut Pass<'_, Call>,
    case: Case<'_>,
    link: &mut MemoryLink,
) -> RoundEnd
    requires book { pass.old.book ≡ J.book }
    ensures book { pass.new.book ≡ J.book }
{
    let mut clock = ListClock::of(Vec::new(alloc));
    let mut nonces = CountNonces::of(1);
    let Some(name) = case.pulls else {
        let end = push_round(rt, alloc, office, pass, link, &mut clock, &mut nonces);
        drop(clock);
        return end;
    };
    let Ok(mode) = Text::read(alloc, name) else {
        drop(clock);
        return RoundEnd::NoMemory;
    };
    let end = pull_round(
        rt,
        alloc,
        office,
        pass,
        &mode,
        link,
        &mut clock,
        &mut nonces,
    );
    drop(mode);
    drop(clock);
    end
}

/// How often the first submission was tried, if it is pending, and else 0.
#[tactic(auto, unfolding(exchange_model::specs::Coming::may_come))]
fn tries<R: Wait, J: Opening>(
    rt: &R,
    alloc: Global,
    office: &Mutex<SharedOffice<'_, MemoryDisk, J>>,
    pass: &mut Pass<'_, Call>,
) -> u64
    requires book { pass.old.book ≡ J.book }
{
    let Ok(id) = MessageId::read(alloc, FIRST) else {
        return 0;
    };
    let event = Event {
        stamp: 0,
        nonce: 0,
        what: What::Status { id },
    };
    let Ok(Sending { reply, request }) = office.lock(rt).send(alloc, pass, event, None) else {
        return 0;
    };
    drop(request);
    match reply {
        Reply::Pending { tries } => u64::from(tries),
        other => {
            drop(other);
            0
        }
    }
}

//! Handlers on a host in memory, and what they leave.
ghost use Rattle.std.specs.Prelude.{◌≡◌};

use crate::samples::Sample;
use as4_disk::{Files, MemoryDisk};
use as4_flow::MemorySink;
use as4_host::{Host, MemoryHost, Stack};
use as4_values::{MessageId, Octets, PlainData, Seq};
use exchange_model::{Event, Reply, What};
use handler::{HandlerEnd, Setup, handle};
use office::{Call, Office};
use pass_book::Pass;
use pmodes::Modes;
use std::alloc::Global;
use std::sync::Wait;
use std::thread::Threads;

pub(crate) const MODES: &str = "modes";

pub(crate) const JOURNAL: &str = "j";

pub(crate) const PEER: &str = "http://p:1/";

pub(crate) const LOCAL: &str = "http://l:1/";

/// What is given to a host before a handler runs on it.
#[derive(Clone, Copy)]
pub(crate) struct Given {
    /// The modes file, if there is one.
    pub(crate) modes: Option<Sample>,
    /// The first leaf of the journal, if there is one.
    pub(crate) leaf0: Option<Sample>,
    /// What the guests at the two doors send.
    pub(crate) peers: &'static [Sample],
    pub(crate) locals: &'static [Sample],
    /// What the partners answer.
    pub(crate) answers: &'static [Sample],
    /// The moments of the first clock.
    pub(crate) moments: &'static [u64],
    /// The numbers of the calls of the host and of the store that fail, 0 for none.
    pub(crate) failing: [u64; 2],
    pub(crate) workers: u64,
    pub(crate) turns: u64,
    pub(crate) keep: u64,
}

/// What a handler leaves: how it ended, the host's counts of faults, of reads and of writes, whether it wrote its line, how
/// many guests are left at the two doors, and what its store opens to, if it is a journal.
#[derive(Clone, Copy, Debug, PartialEq, Eq)]
pub(crate) struct Left {
    pub(crate) end: HandlerEnd,
    pub(crate) counts: (u64, u64, u64),
    pub(crate) line: bool,
    pub(crate) peers: u64,
    pub(crate) locals: u64,
    pub(crate) store: Option<Store>,
    /// How often the first submission was tried.
    pub(crate) tries: u32,
}

/// The numbers of submissions and of received messages, the moment, and whether the second leaf is the current one.
#[derive(Clone, Copy, Debug, PartialEq, Eq)]
pub(crate) struct Store {
    pub(crate) submitted: u64,
    pub(crate) received: u64,
    pub(crate) moment: u64,
    pub(crate) second: bool,
}

fn stack(alloc: Global, texts: &[Sample]) -> Option<Stack> {
    let mut items = Vec::new(alloc);
    for text in texts {
        items
            .push(Octets::of(text.bytes().to_vec(alloc).ok()?))
            .ok()?;
    }
    Stack::of(alloc, Seq::of(items)).ok()
}

/// The host on which a handler runs.
pub(crate) fn host_of(alloc: Global, given: &Given) -> Option<MemoryHost> {
    let answers = stack(alloc, given.answers)?;
    let mut host = MemoryHost::of(alloc, answers, given.moments.to_vec(alloc).ok()?);
    host.fail_at(given.failing[..1].to_vec(alloc).ok()?);
    host.fail_stores_at(given.failing[1..].to_vec(alloc).ok()?);
    if let Some(modes) = given.modes {
        host.put_file(MODES, Octets::of(modes.bytes().to_vec(alloc).ok()?))
            .ok()?;
    }
    if let Some(leaf) = given.leaf0 {
        host.put_file(JOURNAL, Octets::of(leaf.bytes().to_vec(alloc).ok()?))
            .ok()?;
    }
    host.put_guests(PEER, stack(alloc, given.peers)?).ok()?;
    host.put_guests(LOCAL, stack(alloc, given.locals)?).ok()?;
    Some(host)
}

/// Runs a handler on the host.
pub(crate) fn run_on<R: Threads + Wait + Sync>(
    rt: &R,
    alloc: Global,
    host: &mut MemoryHost,
    given: &Given,
) -> Option<Left> {
    if given.workers == 0 || given.workers > 11 || given.keep == 0 || given.keep > 1000 {
        return None;
    }
    let setup = Setup {
        modes: MODES,
        journal: JOURNAL,
        peer: PEER,
        local: LOCAL,
        workers: given.workers,
        turns: given.turns,
        keep: given.keep,
    };
    let mut errors = MemorySink::of(alloc, Vec::new(alloc), Vec::new(alloc));
    let end = handle(rt, alloc, host, setup, &mut errors);
    let line = errors.bytes().starts_with(
        b"serving partners at http://p:1/ and applications at http://l:1/; journal j: ",
    );
    drop(errors);
    let peers = waiting(host, PEER)?;
    let locals = waiting(host, LOCAL)?;
    let (store, tries) = reopened(alloc, host).unzip();
    Some(Left {
        end,
        counts: host.counts(),
        line,
        peers,
        locals,
        store,
        tries: tries.unwrap_or(0),
    })
}

// The number of guests that are left at an address.
fn waiting(host: &mut MemoryHost, address: &str) -> Option<u64> {
    let door = host.open_door(address).ok()?;
    let mut rest = door.into_guests();
    let mut count = 0_u64;
    for _ in 0..u64::MAX {
        let Some(guest) = rest.pop() else {
            break;
        };
        drop(guest);
        count = count.saturating_add(1);
    }
    drop(rest);
    Some(count)
}

fn bytes(alloc: Global, host: &MemoryHost, path: &str) -> Option<Octets> {
    match host.file(path) {
        Some(bytes) => Some(Octets::of(bytes.bytes().to_vec(alloc).ok()?)),
        None => Some(Octets::of(Vec::new(alloc))),
    }
}

// What the store opens to, and how often its first submission was tried.
fn reopened(alloc: Global, host: &MemoryHost) -> Option<(Store, u32)> {
    let selector = bytes(alloc, host, "j.s")?;
    let second = selector.bytes().first() == Some(&1);
    let files = Files {
        selector,
        leaf0: bytes(alloc, host, JOURNAL)?,
        leaf1: bytes(alloc, host, "j.1")?,
    };
    let modes = Modes::read(alloc, Sample::Pushes.bytes()).ok()?;
    match Office::open(
        alloc,
        MemoryDisk::of(files, Seq::of(Vec::new(alloc))),
        modes,
    ) {
        Ok((office, pass)) => {
            let (mut office, mut pass) = (office, pass);
            let totals = office.totals();
            let moment = office.core().moment();
            let tries = tries(alloc, &mut office, &mut pass);
            drop(pass);
            drop(office);
            let store = Store {
                submitted: totals.submitted,
                received: totals.inbox,
                moment,
                second,
            };
            Some((store, tries))
        }
        Err((_, disk)) => {
            drop(disk);
            None
        }
    }
}

// How often the first submission was tried, if there is one and it is pending.
fn tries(alloc: Global, office: &mut Office<'_, MemoryDisk>, pass: &mut Pass<'_, Call>) -> u32
    requires book { pass.old.book ≡ office.old.book }
{
    let Some(first) = office.core().submission(0) else {
        return 0;
    };
    let Ok(id) = first.header.id.try_clone(alloc) else {
        return 0;
    };
    match office.step(pass, status_of(id)) {
        Ok(Reply::Pending { tries, .. }) => tries,
        other => {
            drop(other);
            0
        }
    }
}

// The question what became of a submission.
#[tactic(auto, unfolding(exchange_model::specs::Coming::may_come))]
fn status_of(id: MessageId) -> Event {
    Event {
        stamp: 0,
        nonce: 0,
        what: What::Status { id },
    }
}

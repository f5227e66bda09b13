//! A host in memory whose links fail at given calls.
ghost use Rattle.std.specs.Prelude.{◌≡◌, Some, IfSome};
ghost use Rattle.as4_host.specs.HostInMemory.{file_at, guests_at};

use crate::samples::Sample;
use as4_disk::{MemoryDisk, Paths};
use as4_flow::{CountNonces, ListClock};
use as4_host::{FileGot, Host, HostRefusal, MemoryDoor, MemoryHost, MemoryLink, Stack, StreamPlan};
use as4_values::{Octets, Seq};
use std::alloc::Global;
use std::mem;
use std::time::Duration;

/// A host in memory, and what its first link has and does.
#[derive(Drop)]
pub(crate) struct FailingHost {
    alloc: Global,
    pub(crate) host: MemoryHost,
    answers: Stack,
    failing: Vec<u64>,
    plan: StreamPlan,
}

/// The numbers of the calls that fail, 0 for none: of those of the host itself, of the opens of its link, and of the reads
/// and the writes of each connection.
#[derive(Clone, Copy)]
pub(crate) struct Failing {
    pub(crate) call: u64,
    pub(crate) open: u64,
    pub(crate) read: u64,
    pub(crate) write: u64,
}

/// Nothing fails.
pub(crate) const NOTHING: Failing = Failing {
    call: 0,
    open: 0,
    read: 0,
    write: 0,
};

/// These byte strings, the first on top.
fn stack(alloc: Global, texts: &[Sample]) -> Option<Stack> {
    let mut items = Vec::new(alloc);
    for text in texts {
        items
            .push(Octets::of(text.bytes().to_vec(alloc).ok()?))
            .ok()?;
    }
    Stack::of(alloc, Seq::of(items)).ok()
}

fn failing_plan(alloc: Global, failing: Failing) -> Option<StreamPlan> {
    let mut plan = StreamPlan::plain(alloc);
    plan.failing_reads.push(failing.read).ok()?;
    plan.failing_writes.push(failing.write).ok()?;
    Some(plan)
}

/// A host whose link has these answers.
pub(crate) fn host_of(alloc: Global, answers: &[Sample], failing: Failing) -> Option<FailingHost> {
    let calls = vec![in alloc; failing.call].ok();
    let opens = vec![in alloc; failing.open].ok();
    let streams = stack(alloc, answers).zip(failing_plan(alloc, failing));
    match calls.zip(opens).zip(streams) {
        Some(((calls, opens), (answers, plan))) => Some(made(alloc, answers, plan, calls, opens)),
        None => None,
    }
}

fn made(
    alloc: Global,
    answers: Stack,
    plan: StreamPlan,
    calls: Vec<u64>,
    failing: Vec<u64>,
) -> FailingHost {
    let mut host = MemoryHost::of(alloc, Stack::new(), Vec::new(alloc));
    host.fail_at(calls);
    FailingHost {
        alloc,
        host,
        answers,
        failing,
        plan,
    }
}

impl Host for FailingHost {
    type Store = MemoryDisk;

    type Entrance = MemoryDoor;

    type Dialer = MemoryLink;

    type Time = ListClock;

    type Dice = CountNonces;

    ghost file = { λ h p. Some (file_at h.host.files p) };

    ghost guests = { λ h a. Some (guests_at h.host.doors a) };

    ghost answers = { λ h. Some h.answers };

    ghost names = { λ h. Some h.host.names };

    ghost addresses = { λ h. Some h.host.addresses };

    ghost sent = { λ h. Some h.host.sent };

    ghost fault_count = { λ h. h.host.faults };

    ghost reads = { λ h. h.host.reads };

    ghost writes = { λ h. h.host.writes };

    fn read_file(&mut self, path: &str, limit: u64) -> FileGot {
        self.host.read_file(path, limit)
    }

    fn write_file(&mut self, path: &str, bytes: &[u8]) -> Result<(), HostRefusal> {
        self.host.write_file(path, bytes)
    }

    fn open_disk(&mut self, paths: Paths<'_>) -> Result<MemoryDisk, HostRefusal> {
        self.host.open_disk(paths)
    }

    fn open_door(&mut self, address: &str) -> Result<MemoryDoor, HostRefusal> {
        self.host.open_door(address)
    }

    fn settle_disk(&mut self, paths: Paths<'_>, disk: MemoryDisk) {
        self.host.settle_disk(paths, disk);
    }

    fn settle_door(&mut self, address: &str, door: MemoryDoor) {
        self.host.settle_door(address, door);
    }

    fn dialer(&mut self) -> MemoryLink {
        let answers = mem::replace(&mut self.answers, Stack::new());
        let failing = mem::replace(&mut self.failing, Vec::new(self.alloc));
        let plan = mem::replace(&mut self.plan, StreamPlan::plain(self.alloc));
        MemoryLink::of(self.alloc, answers, failing, plan)
    }

    fn settle_dialer(&mut self, dialer: MemoryLink) {
        self.host.settle_dialer(dialer);
    }

    fn time(&mut self, rest: Duration) -> ListClock {
        self.host.time(rest)
    }

    fn dice(&mut self) -> CountNonces {
        self.host.dice()
    }

    fn faults(&self) -> u64 {
        self.host.faults()
    }
}

/// Whether the host was asked for connections to this address alone, and its links sent these bytes.
pub(crate) fn has_sent(host: FailingHost, address: &[u8], sent: &[Sample]) -> bool {
    let FailingHost {
        alloc: _,
        host,
        answers: _,
        failing: _,
        plan: _,
    } = host;
    let is_alone = are_all(host.addresses(), address);
    let was_sent = are(host.into_sent(), sent);
    is_alone && was_sent
}

fn are_all(addresses: &[Octets], address: &[u8]) -> bool {
    for asked in addresses {
        if asked.bytes() != address {
            return false;
        }
    }
    true
}

// Whether the stack has these byte strings, the last one on top.
fn are(mut stack: Stack, texts: &[Sample]) -> bool {
    let mut is_same = true;
    for text in texts.iter().rev() {
        match stack.pop() {
            Some(item) => {
                is_same = is_same && item.bytes() == text.bytes();
                drop(item);
            }
            None => is_same = false,
        }
    }
    let rest = stack.pop();
    is_same = is_same && rest.is_none();
    drop(rest);
    drop(stack);
    is_same
}

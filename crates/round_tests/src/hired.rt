//! Workers over a shared office, with doors and links in memory.
ghost use Rattle.std.specs.Prelude.{◌≡◌, ◌<◌, ◌-◌, ◌^◌, None, IfOk};
ghost use Rattle.as4_disk.specs.MemoryMeaning.{memory_meaning};
ghost use Rattle.sessions.specs.Shared.{IsOpened};

use crate::rig::{link_of, submits};
use as4_disk::MemoryDisk;
use as4_flow::{Clock, CountNonces};
use as4_host::{MemoryDoor, MemoryLink, Stack, StreamPlan};
use as4_values::{Octets, Seq, Text};
use office::{Call, Office};
use pass_book::Pass;
use sessions::{Opening, SharedOffice};
use std::alloc::{AllocError, Global};
use std::sync::{Mutex, Wait};
use std::thread::Threads;
use workers::{Job, Worker, serve};

pub(crate) type Hired<'a> = Worker<'a, MemoryDoor, MemoryLink, StillClock, CountNonces>;

/// A clock that stands still, and counts its rests.
#[derive(Drop)]
pub(crate) struct StillClock {
    rests: u64,
}

impl Clock for StillClock {
    ghost last = { λ _. 0 };

    ghost to_come = { λ _ _. None };

    fn now(&mut self) -> u64 {
        0
    }

    fn rest(&mut self) {
        self.rests = self.rests.saturating_add(1);
    }
}

/// What a worker does.
#[derive(Clone, Copy)]
pub(crate) enum Task {
    Peer,
    Local,
    Push,
    Pull(&'static [u8]),
    Tick,
}

/// One worker: what it does, how often, who comes to its door, and what its link does.
#[derive(Clone, Copy)]
pub(crate) struct Shift {
    /// How many messages are submitted before.
    pub(crate) submitted: u64,
    pub(crate) task: Task,
    pub(crate) turns: u64,
    /// What the guests send.
    pub(crate) guests: &'static [&'static [u8]],
    /// The bytes of the responses.
    pub(crate) answers: &'static [&'static [u8]],
    /// The numbers of the call of the door, of the open, of the read and of the write that fail, 0 for none.
    pub(crate) failing: [u64; 4],
}

/// What is left after its turns: its share, how many turns memory ran out for, how many guests weren't taken, how many
/// connections were asked for, how many messages are received and receipted, and how often it rested.
#[derive(Clone, Copy, Debug, PartialEq, Eq)]
pub(crate) struct Done {
    pub(crate) share: u64,
    pub(crate) starved: u64,
    pub(crate) guests: u64,
    pub(crate) asked: u64,
    pub(crate) inbox: u64,
    pub(crate) receipted: u64,
    pub(crate) rests: u64,
}

/// A door whose guests send these bytes.
fn door_of(alloc: Global, shift: Shift) -> Result<MemoryDoor, AllocError> {
    let mut guests = Vec::new(alloc);
    for guest in shift.guests {
        guests.push(Octets::of(guest.to_vec(alloc)?))?;
    }
    let Ok(guests) = Stack::of(alloc, Seq::of(guests)) else {
        return Err(AllocError);
    };
    let plan = StreamPlan::plain(alloc);
    Ok(MemoryDoor::of(alloc, guests, shift.failing[..1].to_vec(alloc)?, plan))
}

fn job_of(alloc: Global, task: Task) -> Result<Job, AllocError> {
    match task {
        Task::Peer => Ok(Job::Peer),
        Task::Local => Ok(Job::Local),
        Task::Push => Ok(Job::Push),
        Task::Pull(name) => match Text::read(alloc, name) {
            Ok(mode) => Ok(Job::Pull { mode }),
            Err(_) => Err(AllocError),
        },
        Task::Tick => Ok(Job::Tick),
    }
}

/// A worker with a pass of its own.
fn hired<'a>(
    alloc: Global,
    pass: &mut Pass<'a, Call>,
    shift: Shift,
) -> Result<Hired<'a>, AllocError>
    requires stake { 1 < pass.old.stake }
    ensures book { pass.new.book ≡ pass.old.book }
    ensures worker { IfOk result (λ w. (w.pass.book ≡ pass.old.book) × (w.starved ≡ 0)) }
{
    let job = job_of(alloc, shift.task)?;
    let door = door_of(alloc, shift)?;
    let [_, open, read, write] = shift.failing;
    let link = link_of(alloc, shift.answers, &[open, read, write])?;
    Ok(Worker {
        job,
        pass: pass.split(1),
        door: Some(door),
        link,
        clock: StillClock { rests: 0 },
        nonces: CountNonces::of(1),
        turns: shift.turns,
        starved: 0,
    })
}

/// The turns of one worker over an office to which nothing happened yet.
pub(crate) fn after_turns<R: Threads + Wait + Sync, J: Opening + Send + Sync>(
    rt: &R,
    alloc: Global,
    office: Office<'_, MemoryDisk>,
    mut pass: Pass<'_, Call>,
    shift: Shift,
) -> Result<Done, AllocError>
    requires opened { IsOpened memory_meaning J.Opening office }
    requires pass { (pass.book ≡ J.book) × (pass.stake ≡ 2 ^ 63) }
{
    let mut workers = [hired(alloc, &mut pass, shift)?];
    let shared: Mutex<SharedOffice<'_, MemoryDisk, J>> = Mutex::new(SharedOffice::new(office));
    for n in 0..shift.submitted {
        submits(rt, alloc, &shared, &mut pass, n + 1);
    }
    drop(pass);
    serve(rt, alloc, &shared, &mut workers);
    let office = shared.into_inner().into_office();
    let totals = office.totals();
    drop(office);
    let mut done = Done {
        share: 0,
        starved: 0,
        guests: 0,
        asked: 0,
        inbox: totals.inbox,
        receipted: totals.receipted,
        rests: 0,
    };
    for worker in workers {
        done.leave(worker);
    }
    Ok(done)
}

impl Done {
    /// Adds what a worker leaves.
    fn leave(&mut self, worker: Hired<'_>) {
        let Worker {
            job,
            pass,
            door,
            link,
            clock,
            nonces: _,
            turns: _,
            starved,
        } = worker;
        drop(job);
        self.rests = self.rests.saturating_add(clock.rests);
        drop(clock);
        self.asked = self.asked.saturating_add(link.addresses().len() as u64);
        drop(link);
        self.share = self.share.saturating_add(pass.share());
        drop(pass);
        self.guests = self.guests.saturating_add(waiting(door));
        self.starved = self.starved.saturating_add(starved);
    }
}

/// The number of guests that haven't come.
fn waiting(door: Option<MemoryDoor>) -> u64 {
    let Some(door) = door else {
        return 0;
    };
    let mut guests = door.into_guests();
    let mut count = 0_u64;
    for _ in 0..u64::MAX {
        let Some(guest) = guests.pop() else {
            break;
        };
        drop(guest);
        count = count.saturating_add(1);
    }
    drop(guests);
    count
}

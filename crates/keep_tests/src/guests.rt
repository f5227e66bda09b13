//! Workers whose guests send several requests each.
ghost use Rattle.std.specs.Prelude.{◌≡◌, ◌≤◌, ◌<◌, ◌-◌, ◌^◌, IfOk};
ghost use Rattle.as4_disk.specs.MemoryMeaning.{memory_meaning};
ghost use Rattle.sessions.specs.Shared.{IsOpened};

use crate::rig::opened;
use crate::samples::{INVOICE, SUBMISSION};
use as4_disk::MemoryDisk;
use as4_flow::{CountNonces, ListClock};
use as4_host::{MemoryDoor, MemoryLink, Stack, StreamPlan};
use as4_keep::serve_kept;
use as4_values::{Octets, Seq};
use office::{Call, Office};
use pass_book::Pass;
use sessions::{Opening, SharedOffice};
use std::alloc::{AllocError, Global};
use std::marker::Brand;
use std::sync::{Mutex, Wait};
use std::test::Fail;
use std::thread::Threads;
use workers::{Job, Worker};

type Hired<'a> = Worker<'a, MemoryDoor, MemoryLink, ListClock, CountNonces>;

/// What a worker does.
#[derive(Clone, Copy)]
enum Task {
    Peer,
    Local,
    Push,
    Tick,
}

/// One worker: what it does, how often, at most how many requests of a guest it serves, and how often each of its two guests
/// sends its request.
#[derive(Clone, Copy)]
struct Shift {
    task: Task,
    turns: u64,
    limit: u64,
    requests: [u64; 2],
}

/// What is left after its turns: its share, how many turns memory ran out for, how many guests weren't taken, and how many
/// messages are submitted and received.
#[derive(Clone, Copy, Debug, PartialEq, Eq)]
struct Done {
    share: u64,
    starved: u64,
    guests: u64,
    submitted: u64,
    inbox: u64,
}

/// What a guest of a worker with this task sends once.
fn request_at(task: Task) -> &'static [u8] {
    match task {
        Task::Local => SUBMISSION,
        _ => INVOICE,
    }
}

/// The stream of a guest.
fn stream_of(alloc: Global, request: &[u8], times: u64) -> Result<Octets, AllocError> {
    let mut bytes = Vec::new(alloc);
    for _ in 0..times {
        bytes.extend_from_slice(request)?;
    }
    Ok(Octets::of(bytes))
}

/// A door with the two guests.
fn door_of(alloc: Global, shift: Shift) -> Result<MemoryDoor, AllocError> {
    let mut guests = Vec::new(alloc);
    for times in shift.requests {
        guests.push(stream_of(alloc, request_at(shift.task), times)?)?;
    }
    let Ok(guests) = Stack::of(alloc, Seq::of(guests)) else {
        return Err(AllocError);
    };
    let plan = StreamPlan::plain(alloc);
    Ok(MemoryDoor::of(alloc, guests, Vec::new(alloc), plan))
}

/// A link that opens no connection.
fn no_link(alloc: Global) -> Result<MemoryLink, AllocError> {
    let Ok(answers) = Stack::of(alloc, Seq::of(Vec::new(alloc))) else {
        return Err(AllocError);
    };
    Ok(MemoryLink::of(alloc, answers, Vec::new(alloc), StreamPlan::plain(alloc)))
}

fn job_of(task: Task) -> Job {
    match task {
        Task::Peer => Job::Peer,
        Task::Local => Job::Local,
        Task::Push => Job::Push,
        Task::Tick => Job::Tick,
    }
}

/// A worker with a pass of its own.
fn hired<'a>(
    alloc: Global,
    pass: &mut Pass<'a, Call>,
    shift: Shift,
) -> Result<Hired<'a>, AllocError>
    requires stake { 1 < pass.old.stake }
    ensures book { pass.new.book ≡ pass.old.book }
    ensures worker { IfOk result (λ w. (w.pass.book ≡ pass.old.book) × (w.starved ≡ 0)) }
{
    let door = door_of(alloc, shift)?;
    let link = no_link(alloc)?;
    Ok(Worker {
        job: job_of(shift.task),
        pass: pass.split(1),
        door: Some(door),
        link,
        clock: ListClock::of(Vec::new(alloc)),
        nonces: CountNonces::of(1),
        turns: shift.turns,
        starved: 0,
    })
}

/// The turns of one worker over an office to which nothing happened yet.
fn after_turns<R: Threads + Wait + Sync, J: Opening + Send + Sync>(
    rt: &R,
    alloc: Global,
    office: Office<'_, MemoryDisk>,
    mut pass: Pass<'_, Call>,
    shift: Shift,
) -> Result<Done, AllocError>
    requires opened { IsOpened memory_meaning J.Opening office }
    requires pass { (pass.book ≡ J.book) × (pass.stake ≡ 2 ^ 63) }
{
    let worker = match hired(alloc, &mut pass, shift) {
        Ok(worker) => worker,
        Err(error) => {
            drop(office);
            drop(pass);
            return Err(error);
        }
    };
    drop(pass);
    let mut workers = [worker];
    let shared: Mutex<SharedOffice<'_, MemoryDisk, J>> = Mutex::new(SharedOffice::new(office));
    serve_kept(rt, alloc, &shared, &mut workers, shift.limit.clamp(1, 1000));
    let office = shared.into_inner().into_office();
    let totals = office.totals();
    drop(office);
    let mut done = Done {
        share: 0,
        starved: 0,
        guests: 0,
        submitted: totals.submitted,
        inbox: totals.inbox,
    };
    for worker in workers {
        done.leave(worker);
    }
    Ok(done)
}

impl Done {
    /// Adds what a worker leaves.
    fn leave(&mut self, worker: Hired<'_>) {
        let Worker {
            job,
            pass,
            door,
            link,
            clock,
            nonces: _,
            turns: _,
            starved,
        } = worker;
        drop(job);
        drop(clock);
        drop(link);
        self.share = self.share.saturating_add(pass.share());
        drop(pass);
        self.guests = self.guests.saturating_add(waiting(door));
        self.starved = self.starved.saturating_add(starved);
    }
}

/// The number of guests that haven't come.
fn waiting(door: Option<MemoryDoor>) -> u64 {
    let Some(door) = door else {
        return 0;
    };
    let mut guests = door.into_guests();
    let mut count = 0_u64;
    for _ in 0..u64::MAX {
        let Some(guest) = guests.pop() else {
            break;
        };
        drop(guest);
        count = count.saturating_add(1);
    }
    drop(guests);
    count
}

/// A worker's task; its turns and the limit; what its guests send; and what is left: its share, the turns for which memory
/// ran out, the guests that weren't taken, the submitted messages and the received ones.
type Row = (Task, [u64; 2], [u64; 2], [u64; 5]);

const ROWS: [Row; 9] = [
    // two submissions of one guest
    (Task::Local, [1, 10], [2, 1], [2, 0, 1, 2, 0]),
    // the second one is over the limit
    (Task::Local, [1, 1], [2, 1], [1, 0, 1, 1, 0]),
    (Task::Local, [2, 10], [3, 4], [7, 0, 0, 7, 0]),
    (Task::Local, [2, 3], [3, 4], [6, 0, 0, 6, 0]),
    // the door is closed before the third turn
    (Task::Local, [9, 2], [1, 3], [3, 0, 0, 3, 0]),
    (Task::Peer, [1, 10], [2, 1], [2, 0, 1, 0, 1]),
    (Task::Peer, [2, 10], [0, 1], [1, 0, 0, 0, 1]),
    (Task::Push, [2, 10], [1, 1], [2, 0, 2, 0, 0]),
    (Task::Tick, [3, 10], [1, 1], [3, 0, 2, 0, 0]),
];

fn is_right<R: Threads + Wait + Sync>(
    rt: &R,
    alloc: Global,
    row: &Row,
) -> Result<bool, AllocError> {
    let [turns, limit] = row.1;
    let shift = Shift {
        task: row.0,
        turns,
        limit,
        requests: row.2,
    };
    let [share, starved, guests, submitted, inbox] = row.3;
    let done = Done {
        share,
        starved,
        guests,
        submitted,
        inbox,
    };
    let (office, pass) = opened(alloc, &[])?;
    Ok(after_turns::<_, Brand>(rt, alloc, office, pass, shift)? == done)
}

// The first row that leaves something else.
fn first_wrong<R: Threads + Wait + Sync>(rt: &R, alloc: Global) -> Option<usize> {
    for (at, row) in ROWS.iter().enumerate() {
        if is_right(rt, alloc, row) != Ok(true) {
            return Some(at);
        }
    }
    None
}

#[test]
fn workers_serve_kept_connections(rt: HostRuntime) -> Result<(), Fail> {
    assert_eq!(rt; first_wrong(&rt, rt.alloc()), None);
    Ok(())
}

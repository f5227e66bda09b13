//! How the workers of a handler are hired.
ghost use Rattle.std.specs.Prelude.{◌≡◌, ◌+◌, ◌-◌, ◌≤◌, ◌<◌, ◌^◌, ℕ, List, [], ◌∷◌, ◌++◌, Option, true, false, length, replicate, vec_capacity};
ghost use Rattle.as4_host.specs.Lists.{none_of};
ghost use Rattle.handler.specs.Crews.{HiresAside, IsCrew, IsHired, IsNew, Splits, jobs_in, jobs_of, pulls_by};
ghost use Rattle.handler.specs.Hosts.{IsStill};
ghost use Rattle.workers.specs.declared.job.Worker.{Worker as WorkerValue};

use crate::modes_file::MOST_PULLED;
use crate::opening::Doors;
use as4_host::{Door, Host};
use as4_values::Text;
use office::Call;
use pass_book::Pass;
use std::time::Duration;
use workers::{Job, Worker};

/// The most workers that serve partners.
pub const MOST_PEERS: u64 = 11;

const _: () = prove!(MOST_PEERS == 11);

/// The most workers of a handler: those that pull, one that pushes, one that sets the clock, one that serves local
/// applications, and those that serve partners.
pub(crate) const MOST_WORKERS: usize = MOST_PULLED + 3 + MOST_PEERS as usize;

const _: () = prove!(MOST_WORKERS == 16);

/// A worker's rest after it set the clock, in milliseconds.
const TICK_REST: u64 = 1_000;

/// A worker's rest when it had nothing to do, in milliseconds.
const IDLE_REST: u64 = 100;

/// Hires all workers, and gives each what it works with. The last two have the doors that were opened, with their
/// guests.
///
/// False if memory ran out for a door that a worker shares: then fewer workers serve partners, and none should begin.
/// The last two are hired all the same, so that the doors are given back as the others' are.
pub(crate) fn recruit<'a, H: Host>(
    host: &mut H,
    pass: &mut Pass<'a, Call>,
    crew: &mut Vec<Worker<'a, H::Entrance, H::Dialer, H::Time, H::Dice>>,
    pulls: Vec<Text>,
    doors: Doors<H::Entrance>,
    peers: u64,
    turns: u64,
) -> bool
    requires fresh { (pass.old.list ≡ []) × (pass.old.stake ≡ 2 ^ 63) }
    requires none { crew.old.items ≡ [] }
    requires room { 16 ≤ vec_capacity crew.old }
    requires few { (length pulls.items ≤ 2) × (1 ≤ peers) × (peers ≤ 11) }
    requires new { IsNew H.Entrance.Door doors.peer × IsNew H.Entrance.Door doors.local }
    ensures host { IsStill H.Host host.old host.new }
    ensures crew { IsCrew H.Entrance.Door pass.old.book turns (H.Entrance.guests doors.peer) (H.Entrance.guests doors.local) crew.new.items }
    ensures whole { result ≡ true → jobs_in crew.new.items ≡ jobs_of pulls.items peers }
    ensures many { length crew.new.items ≤ 16 }
    ensures pass { Splits (length crew.new.items) pass.old pass.new }
{
    let Doors { peer, local } = doors;
    pull(host, pass, crew, pulls, turns);
    put(crew, hire(host, pass, Job::Push, None, turns));
    put(crew, hire(host, pass, Job::Tick, None, turns));
    let is_whole = share(host, pass, crew, &peer, peers - 1, turns);
    put(crew, hire(host, pass, Job::Local, Some(local), turns));
    put(crew, hire(host, pass, Job::Peer, Some(peer), turns));
    is_whole
}

// Hires the workers that pull.
fn pull<'a, H: Host>(
    host: &mut H,
    pass: &mut Pass<'a, Call>,
    crew: &mut Vec<Worker<'a, H::Entrance, H::Dialer, H::Time, H::Dice>>,
    pulls: Vec<Text>,
    turns: u64,
)
    requires list { pass.old.list ≡ [] }
    requires stake { length pulls.items < pass.old.stake }
    requires room { length crew.old.items + length pulls.items ≤ vec_capacity crew.old }
    ensures host { IsStill H.Host host.old host.new }
    ensures room { vec_capacity crew.old ≤ vec_capacity crew.new }
    ensures crew { (more : List (WorkerValue H.Entrance H.Dialer H.Time H.Dice)) × (crew.new.items ≡ crew.old.items ++ more)
        × ((peers : Option (List (List ℕ))) → HiresAside H.Entrance.Door turns peers pass.old pass.new (pulls_by pulls.items) more) }
{
    for mode in pulls {
        put(crew, hire(host, pass, Job::Pull { mode }, None, turns));
    }
}

// Hires this many workers that share the partners' door. False if memory ran out for a door, and fewer were hired.
fn share<'a, H: Host>(
    host: &mut H,
    pass: &mut Pass<'a, Call>,
    crew: &mut Vec<Worker<'a, H::Entrance, H::Dialer, H::Time, H::Dice>>,
    peer: &H::Entrance,
    count: u64,
    turns: u64,
) -> bool
    requires list { pass.old.list ≡ [] }
    requires stake { count < pass.old.stake }
    requires room { length crew.old.items + count ≤ vec_capacity crew.old }
    ensures host { IsStill H.Host host.old host.new }
    ensures room { vec_capacity crew.old ≤ vec_capacity crew.new }
    ensures crew { (hired : ℕ) × (more : List (WorkerValue H.Entrance H.Dialer H.Time H.Dice)) × (crew.new.items ≡ crew.old.items ++ more)
        × HiresAside H.Entrance.Door turns (H.Entrance.guests peer.now) pass.old pass.new (replicate hired Job.Peer) more
        × (hired ≤ count) × (result ≡ true → hired ≡ count) }
{
    for _ in 0..count {
        let Ok(door) = peer.share() else {
            return false;
        };
        put(crew, hire(host, pass, Job::Peer, Some(door), turns));
    }
    true
}

// Hires a worker for this job, with a link, a clock and nonces of its own. Its pass gets one stake of the handler's.
fn hire<'a, H: Host>(
    host: &mut H,
    pass: &mut Pass<'a, Call>,
    job: Job,
    door: Option<H::Entrance>,
    turns: u64,
) -> Worker<'a, H::Entrance, H::Dialer, H::Time, H::Dice>
    requires stake { 1 < pass.old.stake }
    requires list { pass.old.list ≡ [] }
    ensures host { IsStill H.Host host.old host.new }
    ensures hired { IsHired pass.old.book turns result }
    ensures job { result.job ≡ job }
    ensures door { result.door ≡ door }
    ensures pass { Splits 1 pass.old pass.new }
{
    let clock = host.time(rest_of(&job));
    let link = host.dialer();
    let nonces = host.dice();
    Worker {
        job,
        pass: pass.split(1),
        door,
        link,
        clock,
        nonces,
        turns,
        starved: 0,
    }
}

// How long a worker with this job rests.
fn rest_of(job: &Job) -> Duration {
    match job {
        Job::Tick => Duration::from_millis(TICK_REST),
        _ => Duration::from_millis(IDLE_REST),
    }
}

// Appends a worker where there is room for it, so no memory is taken.
fn put<'a, W: Drop, L: Drop, C: Drop, N: Drop>(
    crew: &mut Vec<Worker<'a, W, L, C, N>>,
    worker: Worker<'a, W, L, C, N>,
)
    requires room { length crew.old.items < vec_capacity crew.old }
    ensures items { crew.new.items ≡ crew.old.items ++ worker.entry ∷ [] }
    ensures room { vec_capacity crew.old ≤ vec_capacity crew.new }
{
    match crew.push(worker) {
        Ok(()) => {}
        Err(_) => unreachable!(),
    }
}

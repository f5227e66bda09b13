//! Turns of workers, one after another and side by side.
ghost use Rattle.std.specs.Prelude.{◌≡◌, ◌≤◌, ◌<◌, ◌^◌, ◌-◌, ℕ, All, length, slice_index_or};
ghost use Rattle.sessions.specs.Answering.{IsSamePass};
ghost use Rattle.sessions.specs.Shared.{IsLegal};
ghost use Rattle.workers.specs.Bounds.{door_of};
ghost use Rattle.workers.specs.Turns.{IsReady};
ghost use Rattle.as4_keep.specs.KeptTurns.{KeepsOnce, KeptWorked, TakesKeptTurn};

use crate::guests::kept_door_turn;
use as4_disk::Disk;
use as4_flow::{Clock, Nonces};
use as4_host::{Door, Link};
use sessions::{DoorKind, Opening, SharedOffice};
use std::alloc::Global;
use std::sync::{Mutex, Wait};
use std::thread;
use std::thread::Threads;
use workers::{Job, Turn, Worker, worker_turn};

/// Runs the workers side by side, each in a thread of its own, as `workers::serve` does. A worker at a door serves up to
/// `limit` requests of each guest.
pub fn serve_kept<
    R: Threads + Wait + Sync,
    D: Disk + Send,
    J: Opening + Send + Sync,
    W: Door + Drop + Send,
    L: Link + Drop + Send,
    C: Clock + Drop + Send,
    N: Nonces + Drop + Send,
>(
    rt: &R,
    alloc: Global,
    office: &Mutex<SharedOffice<'_, D, J>>,
    workers: &mut [Worker<'_, W, L, C, N>],
    limit: u64,
)
where
    W::In: Send,
    W::Out: Send,
    L::In: Send,
    L::Out: Send,
    requires ready { All (IsReady J.book) workers.old }
    requires some { 1 ≤ limit }
    requires few { limit ≤ 1000 }
    ensures worked { (i : ℕ) (w : _) → i < length workers.old
        → KeptWorked D.Disk J.Opening W.Door L.Link C.Clock N.Nonces limit (slice_index_or workers.old i w) (slice_index_or workers.new i w) }
{
    let threads = workers.len().max(1);
    thread::for_each_mut(
        rt,
        workers,
        threads,
        &|_, worker: &mut Worker<'_, W, L, C, N>|
            requires { IsReady J.book worker.old × (1 ≤ limit) × (limit ≤ 1000) }
            ensures { KeptWorked D.Disk J.Opening W.Door L.Link C.Clock N.Nonces limit worker.old worker.new }
        { work_kept(rt, alloc, office, worker, limit) },
    );
}

// Makes the turns of one worker.
fn work_kept<
    R: Wait,
    D: Disk,
    J: Opening,
    W: Door + Drop,
    L: Link + Drop,
    C: Clock + Drop,
    N: Nonces + Drop,
>(
    rt: &R,
    alloc: Global,
    office: &Mutex<SharedOffice<'_, D, J>>,
    worker: &mut Worker<'_, W, L, C, N>,
    limit: u64,
)
    requires ready { IsReady J.book worker.old }
    requires some { 1 ≤ limit }
    requires few { limit ≤ 1000 }
    ensures { KeptWorked D.Disk J.Opening W.Door L.Link C.Clock N.Nonces limit worker.old worker.new }
{
    for _ in 0..worker.turns {
        if !kept_turn(rt, alloc, office, worker, limit) {
            return;
        }
    }
}

// Makes one turn of a worker. Returns false if its door was closed.
fn kept_turn<
    R: Wait,
    D: Disk,
    J: Opening,
    W: Door + Drop,
    L: Link + Drop,
    C: Clock + Drop,
    N: Nonces + Drop,
>(
    rt: &R,
    alloc: Global,
    office: &Mutex<SharedOffice<'_, D, J>>,
    worker: &mut Worker<'_, W, L, C, N>,
    limit: u64,
) -> bool
    requires book { worker.old.pass.book ≡ J.book }
    requires starved { worker.old.starved < 2 ^ 64 - 1 }
    requires some { 1 ≤ limit }
    requires few { limit ≤ 1000 }
    ensures turn { TakesKeptTurn D.Disk J.Opening W.Door L.Link C.Clock N.Nonces limit worker.old worker.new result }
    ensures legal { IsLegal J.Opening worker.old.pass.list → IsLegal J.Opening worker.new.pass.list }
    ensures pass { IsSamePass worker.old.pass worker.new.pass }
{
    let Some(kind) = door_of(&worker.job) else {
        return worker_turn(rt, alloc, office, worker);
    };
    match keep_once(rt, alloc, office, worker, kind, limit) {
        Turn::Worked => true,
        Turn::Idle => {
            worker.clock.rest();
            true
        }
        Turn::Starved => {
            worker.starved += 1;
            worker.clock.rest();
            true
        }
        Turn::Closed => false,
    }
}

// The door at which a worker with this job serves guests.
fn door_of(job: &Job) -> Option<DoorKind>
    ensures { result ≡ door_of job.now }
{
    match job {
        Job::Peer => Some(DoorKind::Peer),
        Job::Local => Some(DoorKind::Local),
        Job::Push | Job::Pull { .. } | Job::Tick => None,
    }
}

// Serves the next guest of a worker at a door.
fn keep_once<
    R: Wait,
    D: Disk,
    J: Opening,
    W: Door + Drop,
    L: Link + Drop,
    C: Clock + Drop,
    N: Nonces + Drop,
>(
    rt: &R,
    alloc: Global,
    office: &Mutex<SharedOffice<'_, D, J>>,
    worker: &mut Worker<'_, W, L, C, N>,
    kind: DoorKind,
    limit: u64,
) -> Turn
    requires book { worker.old.pass.book ≡ J.book }
    requires some { 1 ≤ limit }
    requires few { limit ≤ 1000 }
    ensures keeps { KeepsOnce D.Disk J.Opening W.Door L.Link C.Clock N.Nonces limit kind worker.old worker.new result }
    ensures legal { IsLegal J.Opening worker.old.pass.list → IsLegal J.Opening worker.new.pass.list }
    ensures pass { IsSamePass worker.old.pass worker.new.pass }
{
    kept_door_turn(
        rt,
        alloc,
        office,
        &mut worker.pass,
        kind,
        limit,
        &mut worker.door,
        &mut worker.clock,
        &mut worker.nonces,
    )
}

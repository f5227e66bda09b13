//! Turns of workers, one after another and side by side.
ghost use Rattle.std.specs.Prelude.{◌≡◌, ◌<◌, ◌^◌, ◌-◌, ℕ, All, length, slice_index_or};
ghost use Rattle.sessions.specs.Answering.{IsSamePass};
ghost use Rattle.sessions.specs.Shared.{IsLegal};
ghost use Rattle.workers.specs.Turns.{IsReady, Makes, TakesTurn, Worked};

use crate::guests::door_turn;
use crate::job::{Job, Worker};
use crate::turn::{Turn, after_pull, after_push};
use as4_disk::Disk;
use as4_flow::{Clock, Nonces};
use as4_host::{Door, Link};
use rounds::{pull_one, push_round};
use sessions::{DoorKind, Opening, SharedOffice, tick_round};
use std::alloc::Global;
use std::sync::{Mutex, Wait};
use std::thread;
use std::thread::Threads;

/// Runs the workers side by side, each in a thread of its own. A worker ends when it has made its turns, or found its
/// door closed.
pub fn serve<
    R: Threads + Wait + Sync,
    D: Disk + Send,
    J: Opening + Send + Sync,
    W: Door + Drop + Send,
    L: Link + Drop + Send,
    C: Clock + Drop + Send,
    N: Nonces + Drop + Send,
>(
    rt: &R,
    alloc: Global,
    office: &Mutex<SharedOffice<'_, D, J>>,
    workers: &mut [Worker<'_, W, L, C, N>],
)
where
    W::In: Send,
    W::Out: Send,
    L::In: Send,
    L::Out: Send,
    requires ready { All (IsReady J.book) workers.old }
    ensures worked { (i : ℕ) (w : _) → i < length workers.old
        → Worked D.Disk J.Opening W.Door L.Link C.Clock N.Nonces (slice_index_or workers.old i w) (slice_index_or workers.new i w) }
{
    let threads = workers.len().max(1);
    thread::for_each_mut(
        rt,
        workers,
        threads,
        &|_, worker: &mut Worker<'_, W, L, C, N>|
            requires { IsReady J.book worker.old }
            ensures { Worked D.Disk J.Opening W.Door L.Link C.Clock N.Nonces worker.old worker.new }
        { work(rt, alloc, office, worker) },
    );
}

// Makes the turns of one worker.
fn work<
    R: Wait,
    D: Disk,
    J: Opening,
    W: Door + Drop,
    L: Link + Drop,
    C: Clock + Drop,
    N: Nonces + Drop,
>(
    rt: &R,
    alloc: Global,
    office: &Mutex<SharedOffice<'_, D, J>>,
    worker: &mut Worker<'_, W, L, C, N>,
)
    requires ready { IsReady J.book worker.old }
    ensures { Worked D.Disk J.Opening W.Door L.Link C.Clock N.Nonces worker.old worker.new }
{
    for _ in 0..worker.turns {
        if !worker_turn(rt, alloc, office, worker) {
            return;
        }
    }
}

/// Makes one turn of a worker. Returns false if its door was closed.
pub fn worker_turn<
    R: Wait,
    D: Disk,
    J: Opening,
    W: Door + Drop,
    L: Link + Drop,
    C: Clock + Drop,
    N: Nonces + Drop,
>(
    rt: &R,
    alloc: Global,
    office: &Mutex<SharedOffice<'_, D, J>>,
    worker: &mut Worker<'_, W, L, C, N>,
) -> bool
    requires book { worker.old.pass.book ≡ J.book }
    requires starved { worker.old.starved < 2 ^ 64 - 1 }
    ensures turn { TakesTurn D.Disk J.Opening W.Door L.Link C.Clock N.Nonces worker.old worker.new result }
    ensures legal { IsLegal J.Opening worker.old.pass.list → IsLegal J.Opening worker.new.pass.list }
    ensures pass { IsSamePass worker.old.pass worker.new.pass }
{
    match made(rt, alloc, office, worker) {
        Turn::Worked => true,
        Turn::Idle => {
            worker.clock.rest();
            true
        }
        Turn::Starved => {
            worker.starved += 1;
            worker.clock.rest();
            true
        }
        Turn::Closed => false,
    }
}

// Does once what the worker does in each turn.
fn made<
    R: Wait,
    D: Disk,
    J: Opening,
    W: Door + Drop,
    L: Link + Drop,
    C: Clock + Drop,
    N: Nonces + Drop,
>(
    rt: &R,
    alloc: Global,
    office: &Mutex<SharedOffice<'_, D, J>>,
    worker: &mut Worker<'_, W, L, C, N>,
) -> Turn
    requires book { worker.old.pass.book ≡ J.book }
    ensures makes { Makes D.Disk J.Opening W.Door L.Link C.Clock N.Nonces worker.old worker.new result }
    ensures legal { IsLegal J.Opening worker.old.pass.list → IsLegal J.Opening worker.new.pass.list }
    ensures pass { IsSamePass worker.old.pass worker.new.pass }
{
    let Worker {
        job,
        pass,
        door,
        link,
        clock,
        nonces,
        turns: _,
        starved: _,
    } = worker;
    match job {
        Job::Peer => door_turn(rt, alloc, office, pass, DoorKind::Peer, door, clock, nonces),
        Job::Local => door_turn(
            rt,
            alloc,
            office,
            pass,
            DoorKind::Local,
            door,
            clock,
            nonces,
        ),
        Job::Push => after_push(push_round(rt, alloc, office, pass, link, clock, nonces)),
        Job::Pull { mode } => {
            after_pull(pull_one(rt, alloc, office, pass, mode, link, clock, nonces))
        }
        Job::Tick => {
            drop(tick_round(rt, office, pass, clock));
            Turn::Idle
        }
    }
}

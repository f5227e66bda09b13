//! Two workers that must serve their guests at once: the first guest sends its last byte only after the second got its
//! response.
ghost use Rattle.std.specs.Prelude.{◌≡◌, ◌<◌, ◌-◌, ◌^◌, None, IfOk};
ghost use Rattle.as4_disk.specs.MemoryMeaning.{memory_meaning};
ghost use Rattle.sessions.specs.Shared.{IsOpened};

use crate::rig::{link_of, opened};
use crate::samples::PACKAGE;
use as4_disk::MemoryDisk;
use as4_flow::{CountNonces, Got, ListClock, Put, Sink, Source};
use as4_host::{Arrival, Door, MemoryLink};
use as4_values::NoMemory;
use office::{Call, Office};
use pass_book::Pass;
use sessions::{Opening, SharedOffice};
use std::alloc::{AllocError, Global};
use std::marker::Brand;
use std::sync::{Mutex, Wait};
use std::test::Fail;
use std::thread::Threads;
use workers::{Job, Worker, serve};

/// How often a guest looks whether the other one got its response.
const LOOKS: u64 = 1_000_000_000;

/// Sends its bytes one by one, the last one only when the flag is up. Fails if that doesn't happen.
#[derive(Drop)]
struct LateSource<'a, R: Wait> {
    rt: &'a R,
    flag: &'a Mutex<bool>,
    is_late: bool,
    bytes: &'static [u8],
    faults: u64,
}

impl<R: Wait> LateSource<'_, R> {
    // Waits until the flag is up.
    fn waits(&self) -> bool {
        for _ in 0..LOOKS {
            if *self.flag.lock(self.rt) {
                return true;
            }
        }
        false
    }
}

impl<R: Wait> Source for LateSource<'_, R> {
    ghost left = { λ _. None };

    ghost faults = { λ s. s.faults };

    fn read(&mut self, room: &mut [u8]) -> Got {
        let Some((first, rest)) = self.bytes.split_first() else {
            return Got::End;
        };
        if self.is_late && rest.is_empty() && !self.waits() {
            self.faults = self.faults.saturating_add(1);
            return Got::Failed;
        }
        room[0] = *first;
        self.bytes = rest;
        Got::Gave(1)
    }
}

/// Raises the flag when something is written.
#[derive(Drop)]
struct FlagSink<'a, R: Wait> {
    rt: &'a R,
    flag: &'a Mutex<bool>,
    raises: bool,
}

impl<R: Wait> Sink for FlagSink<'_, R> {
    ghost taken = { λ _. None };

    ghost faults = { λ _. 0 };

    fn write(&mut self, piece: &[u8]) -> Put {
        if self.raises {
            *self.flag.lock(self.rt) = true;
        }
        Put::Took(piece.len())
    }
}

/// A door with one guest.
#[derive(Drop)]
struct OneGuest<'a, R: Wait> {
    rt: &'a R,
    flag: &'a Mutex<bool>,
    is_late: bool,
    has_come: bool,
    reads: u64,
}

impl<'a, R: Wait> Door for OneGuest<'a, R> {
    type In = LateSource<'a, R>;

    type Out = FlagSink<'a, R>;

    ghost guests = { λ _. None };

    ghost answered = { λ _. None };

    ghost faults = { λ _. 0 };

    ghost reads = { λ d. d.reads };

    ghost writes = { λ _. 0 };

    fn next(&mut self) -> Arrival<LateSource<'a, R>, FlagSink<'a, R>> {
        if self.has_come {
            return Arrival::Closed;
        }
        self.has_come = true;
        let source = LateSource {
            rt: self.rt,
            flag: self.flag,
            is_late: self.is_late,
            bytes: PACKAGE,
            faults: 0,
        };
        let sink = FlagSink {
            rt: self.rt,
            flag: self.flag,
            raises: !self.is_late,
        };
        Arrival::Open(source, sink)
    }

    fn settle(&mut self, source: LateSource<'a, R>, sink: FlagSink<'a, R>) {
        if source.faults != 0 {
            self.reads = self.reads.saturating_add(1);
        }
        drop(source);
        drop(sink);
    }

    fn share(&self) -> Result<OneGuest<'a, R>, NoMemory> {
        Err(NoMemory)
    }
}

type Peer<'a, 'f, R> = Worker<'a, OneGuest<'f, R>, MemoryLink, ListClock, CountNonces>;

/// A worker that serves one guest.
fn hired<'a, 'f, R: Wait>(
    rt: &'f R,
    alloc: Global,
    pass: &mut Pass<'a, Call>,
    flag: &'f Mutex<bool>,
    is_late: bool,
) -> Result<Peer<'a, 'f, R>, AllocError>
    requires stake { 1 < pass.old.stake }
    ensures pass { IfOk result (λ _. pass.new.stake ≡ pass.old.stake - 1) }
    ensures book { pass.new.book ≡ pass.old.book }
    ensures worker { IfOk result (λ w. (w.pass.book ≡ pass.old.book) × (w.starved ≡ 0)) }
{
    let link = link_of(alloc, &[], &[0, 0, 0])?;
    Ok(Worker {
        job: Job::Peer,
        pass: pass.split(1),
        door: Some(OneGuest {
            rt,
            flag,
            is_late,
            has_come: false,
            reads: 0,
        }),
        link,
        clock: ListClock::of(Vec::new(alloc)),
        nonces: CountNonces::of(1),
        turns: 1,
        starved: 0,
    })
}

/// The shares of two workers, the first of which has the guest that waits for the other.
fn shares<J: Opening + Send + Sync, R: Threads + Wait + Sync>(
    rt: &R,
    alloc: Global,
    office: Office<'_, MemoryDisk>,
    mut pass: Pass<'_, Call>,
) -> Result<u64, AllocError>
    requires opened { IsOpened memory_meaning J.Opening office }
    requires pass { (pass.book ≡ J.book) × (pass.stake ≡ 2 ^ 63) }
{
    let flag = Mutex::new(false);
    let first = hired(rt, alloc, &mut pass, &flag, true)?;
    let second = hired(rt, alloc, &mut pass, &flag, false)?;
    let mut workers = [first, second];
    let shared: Mutex<SharedOffice<'_, MemoryDisk, J>> = Mutex::new(SharedOffice::new(office));
    serve(rt, alloc, &shared, &mut workers);
    drop(shared.into_inner().into_office());
    let mut share = 0_u64;
    for worker in workers {
        let Worker {
            job,
            pass: own,
            door,
            link,
            clock,
            nonces: _,
            turns: _,
            starved: _,
        } = worker;
        drop(job);
        drop(door);
        drop(link);
        drop(clock);
        share = share.saturating_add(own.share());
        drop(own);
    }
    drop(pass);
    Ok(share)
}

#[test]
fn two_sessions_run_at_once(rt: HostRuntime) -> Result<(), Fail> {
    let (office, pass) = opened(rt.alloc(), &[])?;
    assert_eq!(rt; shares::<Brand, _>(&rt, rt.alloc(), office, pass), Ok(2));
    Ok(())
}

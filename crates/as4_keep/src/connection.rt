//! The requests of one connection, one after another. The office is locked neither while a request is read nor while a
//! response is written.
ghost use Rattle.std.specs.Prelude.{◌≡◌, ◌≤◌, ◌<◌, ℕ, List, Option, is_some, length};
ghost use Rattle.as4_flow.specs.Flow.{before, between, flow};
ghost use Rattle.sessions.specs.Answering.{IsSamePass};
ghost use Rattle.sessions.specs.Shared.{IsLegal};
ghost use Rattle.as4_keep.specs.Connections.{Keeps, moment};
ghost use Rattle.as4_keep.specs.Parts.{BreaksUnread, MeetsRequest};

use crate::keep_end::KeepEnd;
use crate::next::{Next, after_request, may_go_on};
use crate::streams::{unread, write_out};
use as4_disk::Disk;
use as4_flow::{Clock, Nonces, Sink, Source};
use as4_http::{HttpRefusal, Intake};
use office::Call;
use pass_book::Pass;
use sessions::{DoorKind, Opening, SharedOffice, reply_to};
use std::alloc::Global;
use std::sync::{Mutex, Wait};

/// Serves the requests of one connection, at most `limit`. A response keeps the connection if its request allows that and
/// isn't the last one of the limit; another one closes it. A request that isn't answered in full ends the connection, too.
pub fn keep_session<R: Wait, D: Disk, J: Opening, S: Source, K: Sink, C: Clock, N: Nonces>(
    rt: &R,
    alloc: Global,
    office: &Mutex<SharedOffice<'_, D, J>>,
    pass: &mut Pass<'_, Call>,
    door: DoorKind,
    limit: u64,
    source: &mut S,
    sink: &mut K,
    clock: &mut C,
    nonces: &mut N,
) -> KeepEnd
    requires book { pass.old.book ≡ J.book }
    requires some { 1 ≤ limit }
    requires few { limit ≤ 1000 }
    ensures keeps { Keeps D.Disk J.Opening C.Clock N.Nonces door limit
        (moment pass.old clock.old nonces.old (flow (S.left source.old) (K.taken sink.old) (S.faults source.old) (K.faults sink.old)))
        (moment pass.new clock.new nonces.new (flow (S.left source.new) (K.taken sink.new) (S.faults source.new) (K.faults sink.new))) result }
    ensures tells { is_some (S.left source.new) ≡ is_some (S.left source.old) }
    // The calls that the pass has seen may have been made, one after another, since the office was opened.
    ensures legal { IsLegal J.Opening pass.old.list → IsLegal J.Opening pass.new.list }
    ensures pass { IsSamePass pass.old pass.new }
    ensures reads { S.faults source.old ≤ S.faults source.new }
    ensures writes { K.faults sink.old ≤ K.faults sink.new }
{
    let mut intake = Intake::new(alloc);
    for served in 0..limit {
        let is_last = served + 1 == limit;
        match serve_next(
            rt, alloc, office, pass, door, is_last, intake, source, sink, clock, nonces,
        ) {
            Next::GoesOn(ahead) => intake = ahead,
            Next::Closes => return KeepEnd::Closed { served: served + 1 },
            Next::Ended => return KeepEnd::Closed { served },
            Next::Breaks(ended) => return KeepEnd::Broken { served, ended },
        }
    }
    drop(intake);
    KeepEnd::Closed { served: limit }
}

// Serves the next request, if there is one.
fn serve_next<R: Wait, D: Disk, J: Opening, S: Source, K: Sink, C: Clock, N: Nonces>(
    rt: &R,
    alloc: Global,
    office: &Mutex<SharedOffice<'_, D, J>>,
    pass: &mut Pass<'_, Call>,
    door: DoorKind,
    is_last: bool,
    intake: Intake,
    source: &mut S,
    sink: &mut K,
    clock: &mut C,
    nonces: &mut N,
) -> Next
    requires book { pass.old.book ≡ J.book }
    ensures meets { MeetsRequest D.Disk J.Opening C.Clock N.Nonces door is_last
        (moment pass.old clock.old nonces.old (flow (before intake (S.left source.old)) (K.taken sink.old) (S.faults source.old) (K.faults sink.old)))
        (moment pass.new clock.new nonces.new (flow (S.left source.new) (K.taken sink.new) (S.faults source.new) (K.faults sink.new))) result }
    ensures tells { is_some (S.left source.new) ≡ is_some (S.left source.old) }
    ensures legal { IsLegal J.Opening pass.old.list → IsLegal J.Opening pass.new.list }
    ensures pass { IsSamePass pass.old pass.new }
    ensures reads { S.faults source.old ≤ S.faults source.new }
    ensures writes { K.faults sink.old ≤ K.faults sink.new }
{
    match intake.begin(source) {
        Ok((true, intake)) => serve_begun(
            rt, alloc, office, pass, door, is_last, intake, source, sink, clock, nonces,
        ),
        Ok((false, intake)) => {
            drop(intake);
            Next::Ended
        }
        Err(refusal) => break_unread(sink, refusal),
    }
}

// Serves a request of which there is a byte.
fn serve_begun<R: Wait, D: Disk, J: Opening, S: Source, K: Sink, C: Clock, N: Nonces>(
    rt: &R,
    alloc: Global,
    office: &Mutex<SharedOffice<'_, D, J>>,
    pass: &mut Pass<'_, Call>,
    door: DoorKind,
    is_last: bool,
    intake: Intake,
    source: &mut S,
    sink: &mut K,
    clock: &mut C,
    nonces: &mut N,
) -> Next
    requires book { pass.old.book ≡ J.book }
    requires begun { 0 < length intake }
    ensures meets { MeetsRequest D.Disk J.Opening C.Clock N.Nonces door is_last
        (moment pass.old clock.old nonces.old (flow (before intake (S.left source.old)) (K.taken sink.old) (S.faults source.old) (K.faults sink.old)))
        (moment pass.new clock.new nonces.new (flow (S.left source.new) (K.taken sink.new) (S.faults source.new) (K.faults sink.new))) result }
    ensures tells { is_some (S.left source.new) ≡ is_some (S.left source.old) }
    ensures legal { IsLegal J.Opening pass.old.list → IsLegal J.Opening pass.new.list }
    ensures pass { IsSamePass pass.old pass.new }
    ensures reads { S.faults source.old ≤ S.faults source.new }
    ensures writes { K.faults sink.old ≤ K.faults sink.new }
{
    match intake.read_kept(source) {
        Ok((request, allows, intake)) => {
            let goes_on = may_go_on(allows, is_last);
            let (ended, written) = reply_to(
                rt, alloc, office, pass, door, request, goes_on, clock, nonces,
            );
            let ended = write_out(sink, ended, written.bytes());
            drop(written);
            after_request(ended, goes_on, intake)
        }
        Err(refusal) => break_unread(sink, refusal),
    }
}

// Breaks a connection on which no further request was read.
fn break_unread<K: Sink>(sink: &mut K, refusal: HttpRefusal) -> Next
    ensures breaks { (left rest : Option (List ℕ)) (reads later : ℕ) → BreaksUnread refusal
        (between (flow left (K.taken sink.old) reads (K.faults sink.old)) (flow rest (K.taken sink.new) later (K.faults sink.new))) result }
    ensures counted { K.faults sink.old ≤ K.faults sink.new }
{
    let (ended, bytes) = unread(refusal);
    Next::Breaks(write_out(sink, ended, bytes))
}

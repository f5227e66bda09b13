//! The turn of a worker at a door whose guests send several requests each.
ghost use Rattle.std.specs.Prelude.{◌≡◌, ◌≤◌};
ghost use Rattle.sessions.specs.Answering.{IsSamePass};
ghost use Rattle.sessions.specs.Shared.{IsLegal};
ghost use Rattle.workers.specs.Endings.{after_session};
ghost use Rattle.workers.specs.Guests.{caller};
ghost use Rattle.as4_keep.specs.KeptGuests.{AtKeptDoor, MeetsKeptGuest, after_connection};

use crate::connection::keep_session;
use crate::keep_end::KeepEnd;
use as4_disk::Disk;
use as4_flow::{Clock, Nonces};
use as4_host::{Arrival, Door};
use office::Call;
use pass_book::Pass;
use sessions::{DoorKind, Ended, Opening, SharedOffice};
use std::alloc::Global;
use std::sync::{Mutex, Wait};
use workers::Turn;

/// Serves the next guest of the door, at most `limit` requests. Without a door there are no guests.
pub(crate) fn kept_door_turn<R: Wait, D: Disk, J: Opening, W: Door, C: Clock, N: Nonces>(
    rt: &R,
    alloc: Global,
    office: &Mutex<SharedOffice<'_, D, J>>,
    pass: &mut Pass<'_, Call>,
    kind: DoorKind,
    limit: u64,
    door: &mut Option<W>,
    clock: &mut C,
    nonces: &mut N,
) -> Turn
    requires book { pass.old.book ≡ J.book }
    requires some { 1 ≤ limit }
    requires few { limit ≤ 1000 }
    ensures meets { AtKeptDoor D.Disk J.Opening W.Door C.Clock N.Nonces limit kind door.old door.new
        (caller pass.old clock.old nonces.old) (caller pass.new clock.new nonces.new) result }
    ensures legal { IsLegal J.Opening pass.old.list → IsLegal J.Opening pass.new.list }
    ensures pass { IsSamePass pass.old pass.new }
{
    match door {
        Some(door) => kept_guest_turn(rt, alloc, office, pass, kind, limit, door, clock, nonces),
        None => Turn::Closed,
    }
}

// Serves the next guest, and settles its connection.
fn kept_guest_turn<R: Wait, D: Disk, J: Opening, W: Door, C: Clock, N: Nonces>(
    rt: &R,
    alloc: Global,
    office: &Mutex<SharedOffice<'_, D, J>>,
    pass: &mut Pass<'_, Call>,
    kind: DoorKind,
    limit: u64,
    door: &mut W,
    clock: &mut C,
    nonces: &mut N,
) -> Turn
    requires book { pass.old.book ≡ J.book }
    requires some { 1 ≤ limit }
    requires few { limit ≤ 1000 }
    ensures meets { MeetsKeptGuest D.Disk J.Opening W.Door C.Clock N.Nonces limit kind door.old door.new
        (caller pass.old clock.old nonces.old) (caller pass.new clock.new nonces.new) result }
    ensures legal { IsLegal J.Opening pass.old.list → IsLegal J.Opening pass.new.list }
    ensures pass { IsSamePass pass.old pass.new }
{
    match door.next() {
        Arrival::Open(source, sink) => {
            let (mut source, mut sink) = (source, sink);
            let end = keep_session(
                rt,
                alloc,
                office,
                pass,
                kind,
                limit,
                &mut source,
                &mut sink,
                clock,
                nonces,
            );
            door.settle(source, sink);
            after_connection(end)
        }
        Arrival::Closed => Turn::Closed,
        Arrival::Failed => Turn::Idle,
        Arrival::NoMemory => Turn::Starved,
    }
}

// How a turn goes on after a connection.
fn after_connection(end: KeepEnd) -> Turn
    ensures { result ≡ after_connection end }
{
    match end {
        KeepEnd::Closed { .. } => Turn::Worked,
        KeepEnd::Broken { served: _, ended } => after_request(ended),
    }
}

// How a turn goes on after a request that ended so.
fn after_request(ended: Ended) -> Turn
    ensures { result ≡ after_session ended }
{
    match ended {
        Ended::NoMemory => Turn::Starved,
        other => {
            drop(other);
            Turn::Worked
        }
    }
}

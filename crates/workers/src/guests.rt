//! The turn of a worker at a door.
ghost use Rattle.std.specs.Prelude.{◌≡◌};
ghost use Rattle.sessions.specs.Answering.{IsSamePass};
ghost use Rattle.sessions.specs.Shared.{IsLegal};
ghost use Rattle.workers.specs.Guests.{AtDoor, MeetsGuest, caller};

use crate::turn::{Turn, after_session};
use as4_disk::Disk;
use as4_flow::{Clock, Nonces};
use as4_host::{Arrival, Door};
use office::Call;
use pass_book::Pass;
use sessions::{DoorKind, Opening, SharedOffice, session};
use std::alloc::Global;
use std::sync::{Mutex, Wait};

/// Serves the next guest of the door. Without a door there are no guests.
pub(crate) fn door_turn<R: Wait, D: Disk, J: Opening, W: Door, C: Clock, N: Nonces>(
    rt: &R,
    alloc: Global,
    office: &Mutex<SharedOffice<'_, D, J>>,
    pass: &mut Pass<'_, Call>,
    kind: DoorKind,
    door: &mut Option<W>,
    clock: &mut C,
    nonces: &mut N,
) -> Turn
    requires book { pass.old.book ≡ J.book }
    ensures meets { AtDoor D.Disk J.Opening W.Door C.Clock N.Nonces kind door.old door.new
        (caller pass.old clock.old nonces.old) (caller pass.new clock.new nonces.new) result }
    ensures legal { IsLegal J.Opening pass.old.list → IsLegal J.Opening pass.new.list }
    ensures pass { IsSamePass pass.old pass.new }
{
    match door {
        Some(door) => guest_turn(rt, alloc, office, pass, kind, door, clock, nonces),
        None => Turn::Closed,
    }
}

// Serves the next guest, and settles its connection.
fn guest_turn<R: Wait, D: Disk, J: Opening, W: Door, C: Clock, N: Nonces>(
    rt: &R,
    alloc: Global,
    office: &Mutex<SharedOffice<'_, D, J>>,
    pass: &mut Pass<'_, Call>,
    kind: DoorKind,
    door: &mut W,
    clock: &mut C,
    nonces: &mut N,
) -> Turn
    requires book { pass.old.book ≡ J.book }
    ensures meets { MeetsGuest D.Disk J.Opening W.Door C.Clock N.Nonces kind door.old door.new
        (caller pass.old clock.old nonces.old) (caller pass.new clock.new nonces.new) result }
    ensures legal { IsLegal J.Opening pass.old.list → IsLegal J.Opening pass.new.list }
    ensures pass { IsSamePass pass.old pass.new }
{
    match door.next() {
        Arrival::Open(source, sink) => {
            let (mut source, mut sink) = (source, sink);
            let ended = session(
                rt,
                alloc,
                office,
                pass,
                kind,
                &mut source,
                &mut sink,
                clock,
                nonces,
            );
            door.settle(source, sink);
            after_session(ended)
        }
        Arrival::Closed => Turn::Closed,
        Arrival::Failed => Turn::Idle,
        Arrival::NoMemory => Turn::Starved,
    }
}

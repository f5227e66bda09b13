//! A door in memory.

use crate::made::{failing, has, stack, talk};
use as4_flow::{Got, Put};
use as4_host::{Arrival, Door, MemoryDoor, StreamPlan};
use std::alloc::Global;

/// What a call of `next` gives, once its guest was answered and settled.
#[derive(Clone, Copy, Debug, PartialEq)]
enum Visit {
    Talked(Got, [u8; 8], Put),
    Closed,
    Failed,
    NoMemory,
}

fn next(door: &mut MemoryDoor) -> Visit {
    match door.next() {
        Arrival::Open(mut source, mut sink) => {
            let (got, room, put) = talk(&mut source, &mut sink, b"hi");
            door.settle(source, sink);
            Visit::Talked(got, room, put)
        }
        Arrival::Closed => Visit::Closed,
        Arrival::Failed => Visit::Failed,
        Arrival::NoMemory => Visit::NoMemory,
    }
}

const ONE: Visit = Visit::Talked(Got::Gave(3), *b"one.....", Put::Took(2));

/// The first guest, and then none, of a door whose second call fails; and its counts.
fn guests(alloc: Global) -> Option<([Visit; 3], (u64, u64, u64))> {
    let failing_calls = vec![in alloc; 2].ok()?;
    let guests = stack(alloc, &[b"one"])?;
    let mut door = MemoryDoor::of(alloc, guests, failing_calls, StreamPlan::plain(alloc));
    let nexts = [next(&mut door), next(&mut door), next(&mut door)];
    let counts = door.counts();
    drop(door);
    Some((nexts, counts))
}

#[test]
fn a_door_gives_its_guests_and_then_closes(rt: HostRuntime) {
    let nexts = [ONE, Visit::Failed, Visit::Closed];
    assert_eq!(rt; guests(rt.alloc()), Some((nexts, (1, 0, 0))));
}

/// What a guest's streams give where the first read and the second write fail, and the counts.
fn faults(alloc: Global) -> Option<(Visit, (u64, u64, u64))> {
    let guests = stack(alloc, &[b"one"])?;
    let mut door = MemoryDoor::of(alloc, guests, Vec::new(alloc), failing(alloc, 1, 2)?);
    let first = next(&mut door);
    let counts = door.counts();
    drop(door);
    Some((first, counts))
}

#[test]
fn a_settled_guest_leaves_its_faults(rt: HostRuntime) {
    let first = Visit::Talked(Got::Failed, *b"........", Put::Took(2));
    assert_eq!(rt; faults(rt.alloc()), Some((first, (0, 1, 0))));
}

/// What a shared door gives, its counts, and whether the first door still has its guest.
fn shares(alloc: Global) -> Option<(Visit, (u64, u64, u64), bool)> {
    let guests = stack(alloc, &[b"one"])?;
    let door = MemoryDoor::of(alloc, guests, Vec::new(alloc), StreamPlan::plain(alloc));
    let mut second = door.share().ok()?;
    let first = next(&mut second);
    let counts = second.counts();
    drop(second);
    Some((first, counts, has(door.into_guests(), &[b"one"])))
}

#[test]
fn a_shared_door_has_no_guests(rt: HostRuntime) {
    assert_eq!(rt; shares(rt.alloc()), Some((Visit::Closed, (0, 0, 0), true)));
}

//! A host in memory.

use crate::made::{are, has, octets, stack, talk};
use as4_disk::{Disk, MemoryDisk, Part, Paths};
use as4_flow::{Clock, Nonces};
use as4_host::{Arrival, Door, FileGot, Host, HostRefusal, Link, MemoryHost, Stack};
use std::alloc::Global;
use std::time::Duration;

const STORE: Paths<'static> = Paths {
    selector: "s",
    leaf0: "s.0",
    leaf1: "s.1",
};

/// A host with one file, one guest, one answer, and three moments.
fn host(alloc: Global) -> Option<MemoryHost> {
    let moments = vec![in alloc; 7, 8, 9].ok()?;
    let mut host = MemoryHost::of(alloc, stack(alloc, &[b"yes"])?, moments);
    host.put_file("f", octets(alloc, b"0123")?).ok()?;
    host.put_guests("d", stack(alloc, &[b"one", b"two"])?).ok()?;
    Some(host)
}

/// Whether the file has these bytes.
fn holds(host: &MemoryHost, path: &str, bytes: &[u8]) -> bool {
    match host.file(path) {
        Some(file) => file.bytes() == bytes,
        None => false,
    }
}

/// What a read of a file gives, without its bytes.
#[derive(Clone, Copy, Debug, PartialEq)]
enum Found {
    Bytes(usize),
    Missing,
    TooLong,
    Failed,
    NoMemory,
}

fn read(host: &mut MemoryHost, path: &str, limit: u64) -> Found {
    match host.read_file(path, limit) {
        FileGot::Bytes(bytes) => {
            let len = bytes.bytes().len();
            drop(bytes);
            Found::Bytes(len)
        }
        FileGot::Missing => Found::Missing,
        FileGot::TooLong => Found::TooLong,
        FileGot::Failed => Found::Failed,
        FileGot::NoMemory => Found::NoMemory,
    }
}

/// Five reads, of which the fourth fails, and whether the host was asked for their names; and its faults.
fn reads(alloc: Global) -> Option<([Found; 5], bool, u64)> {
    let mut host = host(alloc)?;
    host.fail_at(vec![in alloc; 4].ok()?);
    let read = [
        read(&mut host, "f", 4),
        read(&mut host, "f", 3),
        read(&mut host, "g", 3),
        read(&mut host, "f", 4),
        read(&mut host, "f", 5),
    ];
    let was_asked = are(host.names(), &[b"f", b"f", b"g", b"f", b"f"]);
    let faults = host.faults();
    drop(host);
    Some((read, was_asked, faults))
}

#[test]
fn a_file_is_read_within_its_limit(rt: HostRuntime) {
    let read = [
        Found::Bytes(4),
        Found::TooLong,
        Found::Missing,
        Found::Failed,
        Found::Bytes(4),
    ];
    assert_eq!(rt; reads(rt.alloc()), Some((read, true, 1)));
}

/// Two writes, of which the second fails, and whether the files then have the bytes.
fn writes(alloc: Global) -> Option<(bool, bool, bool)> {
    let mut host = host(alloc)?;
    host.fail_at(vec![in alloc; 2].ok()?);
    let first = host.write_file("g", b"new") == Ok(());
    let second = host.write_file("f", b"new") == Err(HostRefusal::HostFailed);
    let are_held = holds(&host, "g", b"new") && holds(&host, "f", b"0123");
    drop(host);
    Some((first, second, are_held))
}

#[test]
fn a_written_file_has_its_bytes(rt: HostRuntime) {
    assert_eq!(rt; writes(rt.alloc()), Some((true, true, true)));
}

/// Whether a write to leaf 0 of the store succeeds.
fn append(disk: &mut MemoryDisk, bytes: &[u8]) -> bool {
    let at = disk.bytes(Part::Leaf0).len() as u64;
    disk.write_at(Part::Leaf0, at, bytes).is_ok()
}

/// Whether the opened store has the files' bytes, whether a write succeeds, whether the files then have it, and the
/// faults.
fn stores(alloc: Global, fails: u64) -> Option<(bool, bool, bool, u64)> {
    let mut host = host(alloc)?;
    host.put_file("s.0", octets(alloc, b"ab")?).ok()?;
    host.fail_stores_at(vec![in alloc; fails].ok()?);
    let Ok(mut disk) = host.open_disk(STORE) else {
        drop(host);
        return None;
    };
    let is_seen = disk.bytes(Part::Leaf0) == b"ab".as_slice()
        && disk.bytes(Part::Leaf1).is_empty()
        && disk.bytes(Part::Selector).is_empty();
    let is_written = append(&mut disk, b"cd");
    host.settle_disk(STORE, disk);
    let was_asked = are(host.names(), &[b"s.0", b"s.1", b"s"]);
    let leaf0: &[u8] = if is_written { b"abcd" } else { b"ab" };
    let are_held = holds(&host, "s.0", leaf0) && holds(&host, "s.1", b"") && holds(&host, "s", b"");
    let faults = host.faults();
    drop(host);
    Some((is_seen, is_written, are_held && was_asked, faults))
}

#[test]
fn a_settled_store_leaves_its_files(rt: HostRuntime) {
    assert_eq!(rt; stores(rt.alloc(), 0), Some((true, true, true, 0)));
    assert_eq!(rt; stores(rt.alloc(), 1), Some((true, false, true, 1)));
}

/// Whether the first guest comes, and whether the other is the host's again once the door is settled.
fn doors(alloc: Global) -> Option<(bool, bool)> {
    let mut host = host(alloc)?;
    let Ok(mut door) = host.open_door("d") else {
        drop(host);
        return None;
    };
    let has_come = match door.next() {
        Arrival::Open(mut source, mut sink) => {
            let (_, room, _) = talk(&mut source, &mut sink, b"hi");
            door.settle(source, sink);
            room == *b"one....."
        }
        Arrival::Closed | Arrival::Failed | Arrival::NoMemory => false,
    };
    host.put_guests("d", stack(alloc, &[b"new"])?).ok()?;
    host.settle_door("d", door);
    let door = host.open_door("d").ok()?;
    let are_left = has(door.into_guests(), &[b"new", b"two"]);
    drop(host);
    Some((has_come, are_left))
}

#[test]
fn a_settled_door_leaves_its_guests(rt: HostRuntime) {
    assert_eq!(rt; doors(rt.alloc()), Some((true, true)));
}

/// Whether the first dialer gives the answer, whether the second has none, and whether the host has what the first was
/// asked for and sent; and its counts.
fn dialers(alloc: Global) -> Option<(bool, bool, (u64, u64, u64))> {
    let mut host = host(alloc)?;
    let mut first = host.dialer();
    let mut second = host.dialer();
    let (mut source, mut sink) = first.open("a").ok()?;
    let (_, room, _) = talk(&mut source, &mut sink, b"one");
    first.settle(source, sink);
    let (mut source, mut sink) = second.open("b").ok()?;
    let (_, other_room, _) = talk(&mut source, &mut sink, b"two");
    second.settle(source, sink);
    host.settle_dialer(second);
    host.settle_dialer(first);
    let counts = host.counts();
    let was_asked = are(host.addresses(), &[b"a"]);
    let has_sent = has(host.into_sent(), &[b"one"]);
    let have_come = room == *b"yes....." && other_room == *b"........";
    Some((have_come, was_asked && has_sent, counts))
}

#[test]
fn the_first_dialer_has_the_answers(rt: HostRuntime) {
    assert_eq!(rt; dialers(rt.alloc()), Some((true, true, (0, 0, 0))));
}

/// The first moments of two clocks, and the first numbers of two sources of nonces.
fn draws(alloc: Global) -> Option<([u64; 2], [u128; 2])> {
    let mut host = MemoryHost::of(alloc, Stack::new(), vec![in alloc; 7].ok()?);
    host.count_from(5);
    let rest = Duration::from_millis(1);
    let (mut clock, mut other_clock) = (host.time(rest), host.time(rest));
    let (mut nonces, mut other_nonces) = (host.dice(), host.dice());
    let moments = [clock.now(), other_clock.now()];
    let numbers = [nonces.next(), other_nonces.next()];
    drop(clock);
    drop(other_clock);
    drop(nonces);
    drop(other_nonces);
    drop(host);
    Some((moments, numbers))
}

#[test]
fn clocks_and_nonces_are_the_hosts(rt: HostRuntime) {
    assert_eq!(rt; draws(rt.alloc()), Some(([7, 0], [5, 5 + (1 << 64)])));
}

//! Links and doors over loopback, each in a thread.
use as4_flow::{Got, Sink, Source, send_all};
use as4_host::{Arrival, Door, Host, Link, LinkRefusal};
use host_adapters::{HostCounts, SystemHost, TcpDoor, TcpLink};
use std::alloc::{AllocError, Global};
use std::fs::{File, Files};
use std::net::{Net, TcpListener, TcpStream};
use std::random::RandomSource;
use std::sync::Wait;
use std::test::Fail;
use std::thread;
use std::thread::Threads;
use std::time::Clock;

/// The machine that the tests run on.
pub trait Machine: Files<File = File>
    + Net<Listener = TcpListener, Stream = TcpStream>
    + Clock
    + RandomSource
    + Wait
    + AllocGlobal
    + Send
    + Sync
    + Copy
    + Drop {}

impl<
    R: Files<File = File>
        + Net<Listener = TcpListener, Stream = TcpStream>
        + Clock
        + RandomSource
        + Wait
        + AllocGlobal
        + Send
        + Sync
        + Copy
        + Drop,
> Machine for R {}

/// What a link or a door has counted where nothing failed.
pub const NONE: HostCounts = HostCounts {
    faults: 0,
    reads: 0,
    writes: 0,
};

/// A question with many bytes after it.
fn long_question(alloc: Global) -> Result<Vec<u8>, AllocError> {
    let mut bytes = Vec::from_slice(alloc, b"question")?;
    for _ in 0..65_536_u64 {
        bytes.push(b'.')?;
    }
    Ok(bytes)
}

/// The machine.
pub fn host<R: Machine>(rt: &R) -> SystemHost<R> {
    SystemHost::of(rt.alloc(), *rt)
}

/// A door at a port of loopback that the system picks.
pub fn door<R: Machine>(rt: &R) -> Option<TcpDoor<R>> {
    let mut host = host(rt);
    let door = host.open_door("http://127.0.0.1:0/").ok();
    drop(host);
    door
}

/// The address of a door at loopback.
pub fn address<R: Machine>(rt: &R, door: &TcpDoor<R>) -> Option<String> {
    let port = door.local_addr().ok()?.port();
    format!(in rt.alloc(); "http://127.0.0.1:{port}/").ok()
}

/// Whether exactly these bytes come next, in any number of pieces.
pub fn reads<S: Source>(source: &mut S, bytes: &[u8]) -> bool {
    let mut room = [0; 1];
    for byte in bytes {
        if source.read(&mut room) != Got::Gave(1) || room[0] != *byte {
            return false;
        }
    }
    true
}

/// Takes a guest, reads its bytes and answers. Whether all went well.
pub fn answers<D: Door>(door: &mut D, request: &[u8], response: &[u8]) -> bool {
    match door.next() {
        Arrival::Open(source, sink) => {
            let (mut source, mut sink) = (source, sink);
            let is_so = reads(&mut source, request) && send_all(&mut sink, response).is_ok();
            door.settle(source, sink);
            is_so
        }
        Arrival::Closed | Arrival::Failed | Arrival::NoMemory => false,
    }
}

/// Sends bytes to an address and reads the answer to its end. Whether all went well.
pub fn asks<L: Link>(link: &mut L, address: &str, request: &[u8], response: &[u8]) -> bool {
    match link.open(address) {
        Ok((source, sink)) => {
            let (mut source, mut sink) = (source, sink);
            let is_so = send_all(&mut sink, request).is_ok()
                && reads(&mut source, response)
                && source.read(&mut [0; 1]) == Got::End;
            link.settle(source, sink);
            is_so
        }
        Err(_) => false,
    }
}

/// A door and a link in two threads, with all that a server asks to send between its threads.
fn meet<D: Door + Send, L: Link + Send>(
    threads: &impl Threads,
    door: &mut D,
    link: &mut L,
    address: &str,
) -> (bool, bool)
where
    D::In: Send,
    D::Out: Send,
    L::In: Send,
    L::Out: Send,
{
    thread::join(
        threads,
        || answers(door, b"question", b"answer"),
        || asks(link, address, b"question", b"answer"),
    )
}

#[test]
fn a_link_reaches_a_door(rt: HostRuntime) -> Result<(), Fail> {
    let mut door = door(&rt).ok_or(AllocError)?;
    let address = address(&rt, &door).ok_or(AllocError)?;
    let mut link = TcpLink::of(rt.alloc(), rt);
    let met = meet(&rt, &mut door, &mut link, &address);
    let counts = (door.counts(), link.counts());
    drop(link);
    drop(address);
    drop(door);
    assert_eq!(rt; (met, counts), ((true, true), (NONE, NONE)));
    Ok(())
}

/// A request of which the door reads eight bytes alone. Whether the guest who sent it all gets the answer whole.
fn talk_past<R: Machine>(
    rt: &R,
    threads: &impl Threads,
    door: TcpDoor<R>,
) -> Option<(bool, bool, HostCounts)> {
    let mut door = door;
    let address = address(rt, &door)?;
    let mut link = TcpLink::of(rt.alloc(), *rt);
    let question = long_question(rt.alloc()).ok()?;
    let (answered, asked) = thread::join(
        threads,
        || answers(&mut door, b"question", b"answer"),
        || asks(&mut link, &address, &question, b"answer"),
    );
    let counts = link.counts();
    drop(question);
    drop(door);
    drop(link);
    drop(address);
    Some((answered, asked, counts))
}

#[test]
fn an_answer_to_a_request_that_was_not_read_arrives(rt: HostRuntime) -> Result<(), Fail> {
    let door = door(&rt).ok_or(AllocError)?;
    assert_eq!(rt; talk_past(&rt, &rt, door), Some((true, true, NONE)));
    Ok(())
}

/// Two doors that share a listener: each takes one of two guests.
fn share<R: Machine>(
    rt: &R,
    threads: &impl Threads,
    door: TcpDoor<R>,
) -> Option<(bool, bool, bool, bool, HostCounts)> {
    let mut first = door;
    let mut second = first.share().ok()?;
    let address = address(rt, &first)?;
    let mut link = TcpLink::of(rt.alloc(), *rt);
    let (one, asked) = thread::join(
        threads,
        || answers(&mut second, b"1", b"a"),
        || asks(&mut link, &address, b"1", b"a"),
    );
    drop(second);
    let (two, again) = thread::join(
        threads,
        || answers(&mut first, b"2", b"b"),
        || asks(&mut link, &address, b"2", b"b"),
    );
    let counts = first.counts();
    drop(first);
    drop(link);
    drop(address);
    Some((one, asked, two, again, counts))
}

#[test]
fn shared_doors_accept_from_one_listener(rt: HostRuntime) -> Result<(), Fail> {
    let door = door(&rt).ok_or(AllocError)?;
    assert_eq!(rt; share(&rt, &rt, door), Some((true, true, true, true, NONE)));
    Ok(())
}

/// Four connections to a door.
fn four<R: Machine>(rt: &R, door: &TcpDoor<R>) -> Option<[TcpStream; 4]> {
    let at = door.local_addr().ok()?;
    let first = TcpStream::connect(rt, at).ok()?;
    let second = TcpStream::connect(rt, at).ok()?;
    let third = TcpStream::connect(rt, at).ok()?;
    let fourth = TcpStream::connect(rt, at).ok()?;
    Some([first, second, third, fourth])
}

/// Four guests who send nothing, and then one who asks. Whether the door gives the one who asks.
fn pass<R: Machine>(
    rt: &R,
    threads: &impl Threads,
    door: TcpDoor<R>,
) -> Option<(bool, bool, HostCounts)> {
    let mut door = door;
    let address = address(rt, &door)?;
    let idle = four(rt, &door)?;
    let mut link = TcpLink::of(rt.alloc(), *rt);
    let (answered, asked) = meet(threads, &mut door, &mut link, &address);
    let counts = door.counts();
    drop(idle);
    drop(door);
    drop(link);
    drop(address);
    Some((answered, asked, counts))
}

#[test]
fn a_guest_who_asks_passes_those_who_send_nothing(rt: HostRuntime) -> Result<(), Fail> {
    let door = door(&rt).ok_or(AllocError)?;
    assert_eq!(rt; pass(&rt, &rt, door), Some((true, true, NONE)));
    Ok(())
}

/// A guest that goes without reading what it was sent, which resets the connection.
fn goes<L: Link>(link: &mut L, address: &str) -> bool {
    match link.open(address) {
        Ok((source, sink)) => {
            let (mut source, mut sink) = (source, sink);
            let is_so = send_all(&mut sink, b"q").is_ok() && reads(&mut source, b"a");
            link.settle(source, sink);
            is_so
        }
        Err(_) => false,
    }
}

/// Reads a byte from a guest, sends to it until that fails, and reads from it again. Whether both failed.
fn sends_until_it_fails<D: Door>(door: &mut D, bytes: &[u8]) -> bool {
    match door.next() {
        Arrival::Open(source, sink) => {
            let (mut source, mut sink) = (source, sink);
            let mut failed = !reads(&mut source, b"q");
            for _ in 0..10_000 {
                if !failed {
                    failed = send_all(&mut sink, bytes).is_err();
                }
            }
            let is_so = failed && source.read(&mut [0; 1]) != Got::Gave(1);
            door.settle(source, sink);
            is_so
        }
        Arrival::Closed | Arrival::Failed | Arrival::NoMemory => false,
    }
}

/// A guest that goes away, and then another. What the door has counted.
fn reset<R: Machine>(
    rt: &R,
    threads: &impl Threads,
    door: TcpDoor<R>,
) -> Option<(bool, bool, bool, bool, u64, u64)> {
    let mut door = door;
    let address = address(rt, &door)?;
    let mut link = TcpLink::of(rt.alloc(), *rt);
    let bytes = [b'a'; 4096];
    let (failed, left) = thread::join(
        threads,
        || sends_until_it_fails(&mut door, &bytes),
        || goes(&mut link, &address),
    );
    let (answered, asked) = thread::join(
        threads,
        || answers(&mut door, b"question", b"answer"),
        || asks(&mut link, &address, b"question", b"answer"),
    );
    let counts = door.counts();
    drop(door);
    drop(link);
    drop(address);
    Some((failed, left, answered, asked, counts.faults, counts.writes))
}

#[test]
fn a_guest_that_resets_is_a_fault_and_no_end(rt: HostRuntime) -> Result<(), Fail> {
    let door = door(&rt).ok_or(AllocError)?;
    assert_eq!(rt; reset(&rt, &rt, door), Some((true, true, true, true, 0, 1)));
    Ok(())
}

/// Whether each address is refused, and how many faults the link has counted.
fn refused<R: Machine>(rt: &R, addresses: &[&str]) -> (bool, u64) {
    let mut link = TcpLink::of(rt.alloc(), *rt);
    let mut are_so = true;
    for address in addresses {
        match link.open(address) {
            Ok((source, sink)) => {
                are_so = false;
                link.settle(source, sink);
            }
            Err(refusal) => are_so = are_so && refusal == LinkRefusal::LinkFailed,
        }
    }
    let faults = link.counts().faults;
    drop(link);
    (are_so, faults)
}

#[test]
fn an_address_that_nobody_serves_is_a_fault(rt: HostRuntime) -> Result<(), Fail> {
    let closed = door(&rt).ok_or(AllocError)?;
    let address = address(&rt, &closed).ok_or(AllocError)?;
    drop(closed);
    let refused = refused(&rt, &[&address, "http://127.0.0.1:x/", "http://[::1"]);
    drop(address);
    assert_eq!(rt; refused, (true, 3));
    Ok(())
}

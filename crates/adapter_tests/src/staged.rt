//! The system with a resolver and a clock that a test sets.
use crate::connections::{Machine, NONE, address, answers, asks, door, reads};
use as4_flow::{Got, Source, send_all};
use as4_host::{Arrival, Door, Link, LinkRefusal};
use host_adapters::{HostCounts, TcpDoor, TcpLink};
use std::alloc::AllocError;
use std::io::ErrorKind;
use std::net::{Ipv4Addr, Ipv6Addr, Net, SocketAddr, TcpListener, TcpStream};
use std::sync::atomic::{AtomicU64, Ordering};
use std::test::Fail;
use std::thread::Threads;
use std::time::{Clock, Duration};
use std::{io, thread};

/// The name `two` has an IPv6 and an IPv4 address, and no other name has any. The clock goes on by `step` seconds each time
/// that it is read.
#[derive(Drop)]
struct Staged<R: Machine> {
    system: R,
    seconds: AtomicU64,
    step: u64,
}

impl<R: Machine> Net for Staged<R> {
    type Stream = TcpStream;

    type Listener = TcpListener;

    fn bind(&self, addr: SocketAddr) -> io::Result<TcpListener> {
        self.system.bind(addr)
    }

    fn connect(&self, addr: SocketAddr) -> io::Result<TcpStream> {
        self.system.connect(addr)
    }

    fn connect_timeout(&self, addr: SocketAddr, timeout: Duration) -> io::Result<TcpStream> {
        self.system.connect_timeout(addr, timeout)
    }

    fn lookup_host(&self, host: &str, port: u16, found: &mut [SocketAddr]) -> io::Result<usize> {
        match found {
            [first, second, ..] if host == "two" => {
                *first = SocketAddr::from((Ipv6Addr::LOCALHOST, port));
                *second = SocketAddr::from((Ipv4Addr::LOCALHOST, port));
                Ok(2)
            }
            _ => Err(ErrorKind::NotFound.into()),
        }
    }
}

impl<R: Machine> Clock for Staged<R> {
    fn monotonic(&self) -> io::Result<Duration> {
        Ok(Duration::from_secs(self.seconds.fetch_add(self.step, Ordering::SeqCst)))
    }

    fn since_1970(&self) -> io::Result<Duration> {
        self.system.since_1970()
    }
}

fn staging<R: Machine>(rt: &R, step: u64) -> Staged<R> {
    Staged {
        system: *rt,
        seconds: AtomicU64::new(0),
        step,
    }
}

/// A door at IPv4's loopback, asked at a name with two addresses, and a name with none.
fn names<R: Machine>(
    rt: &R,
    threads: &impl Threads,
    door: TcpDoor<R>,
) -> Option<(bool, bool, bool, HostCounts)> {
    let system = staging(rt, 0);
    let mut door = door;
    let port = door.local_addr().ok()?.port();
    let two = format!(in rt.alloc(); "http://two:{port}/").ok()?;
    let mut link = TcpLink::of(rt.alloc(), &system);
    let (answered, asked) = thread::join(
        threads,
        || answers(&mut door, b"question", b"answer"),
        || asks(&mut link, &two, b"question", b"answer"),
    );
    let is_refused = match link.open("http://three/") {
        Ok((source, sink)) => {
            link.settle(source, sink);
            false
        }
        Err(refusal) => refusal == LinkRefusal::LinkFailed,
    };
    let counts = link.counts();
    drop(link);
    drop(door);
    drop(two);
    drop(system);
    Some((answered, asked, is_refused, counts))
}

#[test]
fn each_address_of_a_name_is_tried(rt: HostRuntime) -> Result<(), Fail> {
    let door = door(&rt).ok_or(AllocError)?;
    let one = HostCounts { faults: 1, ..NONE };
    assert_eq!(rt; names(&rt, &rt, door), Some((true, true, true, one)));
    Ok(())
}

/// Sends a byte, and reads three times a byte.
fn three_reads<L: Link>(link: &mut L, address: &str) -> Option<[Got; 3]> {
    let (source, sink) = link.open(address).ok()?;
    let (mut source, mut sink) = (source, sink);
    let _ = send_all(&mut sink, b"q");
    let mut room = [0; 1];
    let first = source.read(&mut room);
    let second = source.read(&mut room);
    let third = source.read(&mut room);
    link.settle(source, sink);
    Some([first, second, third])
}

/// An answer of three bytes, which is read after 0, 30 and 60 s of the source's time.
fn late<R: Machine>(
    rt: &R,
    threads: &impl Threads,
    door: TcpDoor<R>,
) -> Option<(bool, Option<[Got; 3]>, HostCounts)> {
    let system = staging(rt, 30);
    let mut door = door;
    let address = address(rt, &door)?;
    let mut link = TcpLink::of(rt.alloc(), &system);
    let (answered, read) = thread::join(
        threads,
        || answers(&mut door, b"q", b"abc"),
        || three_reads(&mut link, &address),
    );
    let counts = link.counts();
    drop(link);
    drop(door);
    drop(address);
    drop(system);
    Some((answered, read, counts))
}

#[test]
fn a_source_fails_when_its_time_is_spent(rt: HostRuntime) -> Result<(), Fail> {
    let door = door(&rt).ok_or(AllocError)?;
    let one = HostCounts { reads: 1, ..NONE };
    let reads = [Got::Gave(1), Got::Gave(1), Got::Failed];
    assert_eq!(rt; late(&rt, &rt, door), Some((true, Some(reads), one)));
    Ok(())
}

/// Answers with one byte, and then says nothing until the peer has closed the connection. Whether all went well.
fn falls_silent<D: Door>(door: &mut D) -> bool {
    match door.next() {
        Arrival::Open(source, sink) => {
            let (mut source, mut sink) = (source, sink);
            let is_so = reads(&mut source, b"q")
                && send_all(&mut sink, b"a").is_ok()
                && source.read(&mut [0; 1]) == Got::End;
            door.settle(source, sink);
            is_so
        }
        Arrival::Closed | Arrival::Failed | Arrival::NoMemory => false,
    }
}

/// A peer that falls silent while a source has a second left.
fn silent<R: Machine>(
    rt: &R,
    threads: &impl Threads,
    door: TcpDoor<R>,
) -> Option<(bool, Option<[Got; 3]>, HostCounts)> {
    let system = staging(rt, 59);
    let mut door = door;
    let address = address(rt, &door)?;
    let mut link = TcpLink::of(rt.alloc(), &system);
    let (answered, read) = thread::join(
        threads,
        || falls_silent(&mut door),
        || three_reads(&mut link, &address),
    );
    let counts = link.counts();
    drop(link);
    drop(door);
    drop(address);
    drop(system);
    Some((answered, read, counts))
}

#[test]
fn a_silent_peer_is_a_fault_and_no_end(rt: HostRuntime) -> Result<(), Fail> {
    let door = door(&rt).ok_or(AllocError)?;
    let one = HostCounts { reads: 1, ..NONE };
    let reads = [Got::Gave(1), Got::Failed, Got::Failed];
    assert_eq!(rt; silent(&rt, &rt, door), Some((true, Some(reads), one)));
    Ok(())
}

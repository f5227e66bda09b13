//! A link over TCP. It isn't observable.
ghost use Rattle.std.specs.Prelude.{◌≡◌, None};

use crate::counts::HostCounts;
use crate::pace::LIMIT;
use crate::place::place_of;
use crate::stream::{TcpHalf, pair};
use as4_flow::{ReaderSource, WriterSink};
use as4_host::{Link, LinkRefusal};
use std::alloc::Global;
use std::io;
use std::io::ErrorKind;
use std::net::{Net, TcpStream, ToSocketAddrs};
use std::time::{Clock, Duration};

/// Opens a connection to the host and the port of an address (`place_of`). Each address of a name is tried in turn, for 60 s
/// at most, until one answers.
#[derive(Drop)]
pub struct TcpLink<R: Net<Stream = TcpStream> + Clock + Copy + Drop> {
    alloc: Global,
    system: R,
    counts: HostCounts,
}

impl<R: Net<Stream = TcpStream> + Clock + Copy + Drop> TcpLink<R> {
    ghost use Rattle.host_adapters.specs.Adapters.{link_counts, no_faults};

    pub fn of(alloc: Global, system: R) -> TcpLink<R>
        ensures { link_counts result ≡ no_faults }
    {
        TcpLink {
            alloc,
            system,
            counts: HostCounts::none(),
        }
    }

    /// How many opens, settled sources and settled sinks have failed.
    pub fn counts(&self) -> HostCounts
        ensures { result ≡ link_counts self.now }
    {
        self.counts
    }
}

impl<R: Net<Stream = TcpStream> + Clock + Copy + Drop> Link for TcpLink<R> {
    type In = ReaderSource<TcpHalf<R>>;

    type Out = WriterSink<TcpHalf<R>>;

    ghost answers = { λ _. None };

    ghost addresses = { λ _. None };

    ghost sent = { λ _. None };

    ghost faults = { λ l. l.counts.faults };

    ghost reads = { λ l. l.counts.reads };

    ghost writes = { λ l. l.counts.writes };

    fn open(&mut self, address: &str) -> Result<(Self::In, Self::Out), LinkRefusal> {
        let Ok((room, source, sink)) = pair(self.alloc, self.system) else {
            return Err(LinkRefusal::NoMemory);
        };
        match connect(&self.system, address) {
            Ok(stream) => {
                room.put(stream);
                drop(room);
                Ok((source, sink))
            }
            Err(_) => {
                drop(room);
                drop(source);
                drop(sink);
                self.counts.fail();
                Err(LinkRefusal::LinkFailed)
            }
        }
    }

    fn settle(&mut self, source: Self::In, sink: Self::Out) {
        self.counts.settle(HostCounts {
            faults: 0,
            reads: source.faults(),
            writes: sink.faults(),
        });
        drop(source);
        drop(sink);
    }
}

fn connect<R: Net<Stream = TcpStream>>(net: &R, address: &str) -> io::Result<TcpStream> {
    let Some(place) = place_of(address) else {
        return Err(ErrorKind::InvalidInput.into());
    };
    let mut refusal = ErrorKind::AddrNotAvailable.into();
    for addr in place.to_socket_addrs(net)? {
        match TcpStream::connect_timeout(net, &addr, Duration::from_secs(LIMIT)) {
            Ok(stream) => {
                // Where the system refuses, it only sends small pieces later.
                let _ = stream.set_nodelay(true);
                return Ok(stream);
            }
            Err(error) => refusal = error,
        }
    }
    Err(refusal)
}

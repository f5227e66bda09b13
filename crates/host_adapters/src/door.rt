//! A door over TCP. It isn't observable.
ghost use Rattle.std.specs.Prelude.{◌≡◌, None};

use crate::counts::HostCounts;
use crate::entrance::Entrance;
use crate::shared::Shared;
use crate::stream::{TcpHalf, pair};
use as4_flow::{ReaderSource, WriterSink};
use as4_host::{Arrival, Door};
use as4_values::NoMemory;
use std::alloc::Global;
use std::io;
use std::io::Read;
use std::net::{Shutdown, SocketAddr, TcpStream};
use std::sync::Wait;
use std::time::{Clock, Duration, Instant};

/// How long a door reads on after a response, in seconds.
const LINGER: u64 = 1;

/// Accepts the connections of a listener, each once its first bytes have come.
#[derive(Drop)]
pub struct TcpDoor<R: Clock + Wait + Copy + Drop> {
    alloc: Global,
    system: R,
    entrance: Shared<Entrance>,
    // The connection of the guest who came last, which is closed gently when it is settled.
    last: Option<Shared<TcpStream>>,
    counts: HostCounts,
}

impl<R: Clock + Wait + Copy + Drop> TcpDoor<R> {
    ghost use Rattle.host_adapters.specs.Adapters.{door_counts, no_faults};

    pub(crate) fn of(alloc: Global, system: R, entrance: Shared<Entrance>) -> TcpDoor<R>
        ensures { door_counts result ≡ no_faults }
    {
        TcpDoor {
            alloc,
            system,
            entrance,
            last: None,
            counts: HostCounts::none(),
        }
    }

    /// How many calls of `next`, settled sources and settled sinks have failed.
    pub fn counts(&self) -> HostCounts
        ensures { result ≡ door_counts self.now }
    {
        self.counts
    }

    /// The address that it listens at, which tells the port where it was opened at port 0.
    pub fn local_addr(&self) -> io::Result<SocketAddr> {
        self.entrance.get()?.local_addr()
    }

    fn accept(&self) -> io::Result<TcpStream> {
        self.entrance.get()?.next(&self.system)
    }
}

// Says that no more bytes will come, and reads on until the peer closes, for a second at most. A connection that is closed
// with unread bytes is reset, and the peer might lose a response to a request that wasn't read to its end.
fn linger<R: Clock>(system: &R, stream: &Shared<TcpStream>) -> io::Result<()> {
    let mut stream = stream.get()?;
    stream.shutdown(Shutdown::Write)?;
    let mut room = [0; 4096];
    let start = Instant::now(system)?;
    for _ in 0..u32::MAX {
        let spent = Instant::now(system)?.duration_since(start);
        let Some(left) = Duration::from_secs(LINGER).checked_sub(spent) else {
            break;
        };
        if left.is_zero() {
            break;
        }
        stream.set_read_timeout(Some(left))?;
        if stream.read(&mut room)? == 0 {
            break;
        }
    }
    Ok(())
}

impl<R: Clock + Wait + Copy + Drop> Door for TcpDoor<R> {
    type In = ReaderSource<TcpHalf<R>>;

    type Out = WriterSink<TcpHalf<R>>;

    ghost guests = { λ _. None };

    ghost answered = { λ _. None };

    ghost faults = { λ d. d.counts.faults };

    ghost reads = { λ d. d.counts.reads };

    ghost writes = { λ d. d.counts.writes };

    fn next(&mut self) -> Arrival<Self::In, Self::Out> {
        let Ok((room, source, sink)) = pair(self.alloc, self.system) else {
            return Arrival::NoMemory;
        };
        match self.accept() {
            Ok(stream) => {
                room.put(stream);
                drop(self.last.replace(room));
                Arrival::Open(source, sink)
            }
            Err(_) => {
                drop(room);
                drop(source);
                drop(sink);
                self.counts.fail();
                Arrival::Failed
            }
        }
    }

    fn settle(&mut self, source: Self::In, sink: Self::Out) {
        self.counts.settle(HostCounts {
            faults: 0,
            reads: source.faults(),
            writes: sink.faults(),
        });
        drop(source);
        drop(sink);
        if let Some(stream) = self.last.take() {
            // Where it fails, the peer is gone.
            let _ = linger(&self.system, &stream);
            drop(stream);
        }
    }

    fn share(&self) -> Result<Self, NoMemory> {
        let entrance = self.entrance.share()?;
        Ok(TcpDoor::of(self.alloc, self.system, entrance))
    }
}

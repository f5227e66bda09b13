//! The two directions of a TCP connection. The system says nothing of content, so they aren't observable.
ghost use Rattle.std.specs.Prelude.{◌≡◌, IfOk};
ghost use Rattle.as4_flow.specs.Streams.{read_faults, write_faults};

use crate::pace::time_left;
use crate::shared::Shared;
use as4_flow::{ReaderSource, WriterSink};
use as4_values::NoMemory;
use std::alloc::Global;
use std::io;
use std::io::{ErrorKind, Read, Write};
use std::net::TcpStream;
use std::time::{Clock, Duration, Instant};

/// One direction of a connection. Its time begins with its first call, and `time_left` says when it is spent. From then on
/// each call fails.
#[derive(Drop)]
pub struct TcpHalf<R: Clock + Drop> {
    clock: R,
    stream: Shared<TcpStream>,
    start: Option<Instant>,
    moved: u64,
}

impl<R: Clock + Drop> TcpHalf<R> {
    fn of(clock: R, stream: Shared<TcpStream>) -> TcpHalf<R> {
        TcpHalf {
            clock,
            stream,
            start: None,
            moved: 0,
        }
    }

    // How long the next call may take.
    fn time(&mut self) -> io::Result<Duration> {
        let now = Instant::now(&self.clock)?;
        let start = self.start.unwrap_or(now);
        self.start = Some(start);
        let left = time_left(now.duration_since(start), self.moved);
        if left.is_zero() {
            return Err(ErrorKind::TimedOut.into());
        }
        Ok(left)
    }
}

impl<R: Clock + Drop> Read for TcpHalf<R> {
    fn read(&mut self, room: &mut [u8]) -> io::Result<usize> {
        let left = self.time()?;
        let mut stream = self.stream.get()?;
        stream.set_read_timeout(Some(left))?;
        let n = stream.read(room)?;
        self.moved = self.moved.saturating_add(n as u64);
        Ok(n)
    }
}

impl<R: Clock + Drop> Write for TcpHalf<R> {
    // A write to a peer that is gone fails and raises no signal: the kit sends with `MSG_NOSIGNAL`.
    fn write(&mut self, piece: &[u8]) -> io::Result<usize> {
        let left = self.time()?;
        let mut stream = self.stream.get()?;
        stream.set_write_timeout(Some(left))?;
        let n = stream.write(piece)?;
        self.moved = self.moved.saturating_add(n as u64);
        Ok(n)
    }

    // Nothing is kept back.
    fn flush(&mut self) -> io::Result<()> {
        Ok(())
    }
}

/// A pair of streams without a connection, and the room for it. It takes all memory that the pair needs.
pub(crate) fn pair<R: Clock + Copy + Drop>(
    alloc: Global,
    clock: R,
) -> Result<
    (
        Shared<TcpStream>,
        ReaderSource<TcpHalf<R>>,
        WriterSink<TcpHalf<R>>,
    ),
    NoMemory,
>
    ensures source { IfOk result (λ p. read_faults p.1 ≡ 0) }
    ensures sink { IfOk result (λ p. write_faults p.2 ≡ 0) }
{
    let room = Shared::room(alloc)?;
    let (read, write) = match (room.share(), room.share()) {
        (Ok(read), Ok(write)) => (read, write),
        (read, write) => {
            drop(read);
            drop(write);
            return Err(NoMemory);
        }
    };
    let Ok(source) = ReaderSource::of(alloc, TcpHalf::of(clock, read)) else {
        drop(write);
        return Err(NoMemory);
    };
    Ok((room, source, WriterSink::of(TcpHalf::of(clock, write))))
}

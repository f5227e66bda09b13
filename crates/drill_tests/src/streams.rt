//! What the contracts don't cover: that memory suffices, and that the bytes of the system's streams arrive.
ghost use Rattle.std.specs.Prelude.{◌≡◌, ◌≤◌, IfOk};

use as4_flow::{
    Got, MemorySink, MemorySource, Put, ReadRefusal, ReaderSource, Sink, Source, WriterSink,
    read_all, send_all,
};
use std::alloc::{AllocError, Global};
use std::io;
use std::io::{ErrorKind, Read, Write};

/// A source of these bytes in these pieces; one call fails.
fn source_of(alloc: Global, bytes: &[u8], pieces: &[usize], fails: u64) -> Option<MemorySource> {
    match (
        bytes.to_vec(alloc),
        pieces.to_vec(alloc),
        vec![in alloc; fails],
    ) {
        (Ok(bytes), Ok(pieces), Ok(failing)) => Some(MemorySource::of(bytes, pieces, failing)),
        (bytes, pieces, failing) => {
            drop(bytes);
            drop(pieces);
            drop(failing);
            None
        }
    }
}

/// A sink that takes these pieces; one call fails.
fn sink_of(alloc: Global, pieces: &[usize], fails: u64) -> Option<MemorySink> {
    match (pieces.to_vec(alloc), vec![in alloc; fails]) {
        (Ok(pieces), Ok(failing)) => Some(MemorySink::of(alloc, pieces, failing)),
        (pieces, failing) => {
            drop(pieces);
            drop(failing);
            None
        }
    }
}

/// The result of each read, and the room after it.
const READS: [(Got, [u8; 5]); 7] = [
    (Got::Gave(3), *b"012.."),
    (Got::Failed, *b"012.."),
    (Got::Gave(1), *b"312.."),
    (Got::Gave(4), *b"4567."),
    (Got::Gave(2), *b"8967."),
    (Got::End, *b"8967."),
    (Got::End, *b"8967."),
];

/// The first read with another result or other room.
fn first_other_read(source: &mut MemorySource) -> Option<usize> {
    let mut room = *b".....";
    for (call, (answer, after)) in READS.iter().enumerate() {
        if source.read(&mut room) != *answer || room != *after {
            return Some(call);
        }
    }
    None
}

/// The first read with another result, and the number of bytes left after the reads.
fn reads(alloc: Global) -> Option<(Option<usize>, usize)> {
    let mut source = source_of(alloc, b"0123456789", &[3, 0, 4], 2)?;
    let other = first_other_read(&mut source);
    let left = source.rest().len();
    drop(source);
    Some((other, left))
}

#[test]
fn a_source_gives_its_pieces_and_faults(rt: HostRuntime) {
    assert_eq!(rt; reads(rt.alloc()), Some((None, 0)));
}

/// The result of each write of four bytes.
const WRITES: [Put; 4] = [Put::Took(3), Put::Failed, Put::Took(1), Put::Took(4)];

/// The first write with another result.
fn first_other_write(sink: &mut MemorySink) -> Option<usize> {
    for (call, answer) in WRITES.iter().enumerate() {
        if sink.write(b"0123") != *answer {
            return Some(call);
        }
    }
    None
}

/// Whether memory suffices, the first write with another result, whether the sink has the bytes that it took, and
/// whether it returns them.
fn writes(alloc: Global) -> Option<(bool, Option<usize>, bool, bool)> {
    let mut sink = sink_of(alloc, &[3, 0], 2)?;
    let is_reserved = sink.reserve(9).is_ok();
    let other = first_other_write(&mut sink);
    let has_bytes = sink.bytes() == b"01200123".as_slice();
    let bytes = sink.into_bytes();
    let gives_bytes = bytes.as_slice() == b"01200123".as_slice();
    drop(bytes);
    Some((is_reserved, other, has_bytes, gives_bytes))
}

#[test]
fn a_sink_takes_its_pieces_and_faults(rt: HostRuntime) {
    assert_eq!(rt; writes(rt.alloc()), Some((true, None, true, true)));
}

/// The number of bytes, of ten in pieces of 4, 4 and 2, that are read within the limit when one call fails.
fn length_read(alloc: Global, limit: usize, fails: u64) -> Option<Result<usize, ReadRefusal>> {
    let mut source = source_of(alloc, b"0123456789", &[4, 4], fails)?;
    let read = read_all(alloc, &mut source, limit);
    drop(source);
    match read {
        Ok(bytes) => {
            let length = bytes.len();
            drop(bytes);
            Some(Ok(length))
        }
        Err(refusal) => Some(Err(refusal)),
    }
}

/// The limit, the call that fails, and the result.
const LIMITS: [(usize, u64, Result<usize, ReadRefusal>); 8] = [
    (10, 0, Ok(10)),
    (usize::MAX, 0, Ok(10)),
    (9, 0, Err(ReadRefusal::TooLong)),
    (0, 0, Err(ReadRefusal::TooLong)),
    (10, 3, Err(ReadRefusal::Failed)),
    (10, 4, Err(ReadRefusal::Failed)),
    (10, 5, Ok(10)),
    (5, 3, Err(ReadRefusal::TooLong)),
];

/// The first row with another result.
fn first_other_limit(alloc: Global) -> Option<usize> {
    for (row, (limit, fails, answer)) in LIMITS.iter().enumerate() {
        if length_read(alloc, *limit, *fails) != Some(*answer) {
            return Some(row);
        }
    }
    None
}

#[test]
fn a_source_is_read_to_its_end_within_the_limit(rt: HostRuntime) {
    assert_eq!(rt; first_other_limit(rt.alloc()), None);
}

/// Whether these bytes were read.
fn is_read(read: Result<Vec<u8>, ReadRefusal>, wanted: &[u8]) -> bool {
    match read {
        Ok(bytes) => {
            let is_same = bytes.as_slice() == wanted;
            drop(bytes);
            is_same
        }
        Err(_) => false,
    }
}

/// Whether a source of these bytes is read to its end.
fn arrives(alloc: Global, bytes: &[u8]) -> Option<bool> {
    let copy = bytes.to_vec(alloc).ok()?;
    let mut source = MemorySource::of(copy, Vec::new(alloc), Vec::new(alloc));
    let read = read_all(alloc, &mut source, 1 << 30);
    drop(source);
    Some(is_read(read, bytes))
}

/// Adds each byte this many times.
fn put_each_byte(bytes: &mut Vec<u8>, times: u32) -> Result<(), AllocError> {
    for byte in 0..=255u8 {
        put_often(bytes, byte, times)?;
    }
    Ok(())
}

fn put_often(bytes: &mut Vec<u8>, byte: u8, times: u32) -> Result<(), AllocError> {
    for _ in 0..times {
        bytes.push(byte)?;
    }
    Ok(())
}

// Across several steps of the buffer's growth.
#[test]
fn a_long_source_arrives_whole(rt: HostRuntime) {
    let alloc = rt.alloc();
    let mut bytes = Vec::new(alloc);
    let put = put_each_byte(&mut bytes, 20_001);
    let arrived = arrives(alloc, bytes.as_slice());
    drop(bytes);
    assert_eq!(rt; (put, arrived), (Ok(()), Some(true)));
}

/// Whether ten bytes are sent, whether three more are, and whether the sink has the ten.
fn sends(alloc: Global) -> Option<(bool, bool, bool)> {
    let mut sink = sink_of(alloc, &[3, 3], 4)?;
    let ten = send_all(&mut sink, b"0123456789").is_ok();
    let three = send_all(&mut sink, b"abc").is_ok();
    let has_ten = sink.bytes() == b"0123456789".as_slice();
    drop(sink);
    Some((ten, three, has_ten))
}

#[test]
fn all_is_sent_or_a_front(rt: HostRuntime) {
    assert_eq!(rt; sends(rt.alloc()), Some((true, false, true)));
}

/// Whether the bytes of a stream of the system are read.
fn is_carried_in(alloc: Global, bytes: &[u8]) -> Option<bool> {
    let mut source = ReaderSource::of(alloc, bytes).ok()?;
    let read = read_all(alloc, &mut source, bytes.len());
    drop(source);
    Some(is_read(read, bytes))
}

/// Whether the bytes are written to a stream of the system.
fn is_carried_out(alloc: Global, bytes: &[u8]) -> bool {
    let mut written = Vec::new(alloc);
    let mut sink = WriterSink::of(&mut written);
    let is_sent = send_all(&mut sink, bytes).is_ok();
    drop(sink);
    let is_same = written.as_slice() == bytes;
    drop(written);
    is_sent && is_same
}

#[test]
fn the_systems_streams_carry_all(rt: HostRuntime) {
    assert_eq!(rt; is_carried_in(rt.alloc(), b"0123456789"), Some(true));
    assert!(rt; is_carried_out(rt.alloc(), b"0123456789"));
}

/// A stream whose calls are interrupted twice, then transfer one byte, and then fail.
#[derive(Drop)]
struct Halting {
    calls: u8,
}

impl Halting {
    fn call(&mut self) -> io::Result<usize>
        ensures { IfOk result (λ n. n ≡ 1) }
    {
        self.calls = self.calls.saturating_add(1);
        match self.calls {
            1 | 2 => Err(io::Error::new(ErrorKind::Interrupted, "a signal")),
            3 => Ok(1),
            _ => Err(io::Error::other("gone")),
        }
    }
}

impl Read for Halting {
    fn read(&mut self, buf: &mut [u8]) -> io::Result<usize> {
        if buf.is_empty() { Ok(0) } else { self.call() }
    }
}

impl Write for Halting {
    fn write(&mut self, buf: &[u8]) -> io::Result<usize> {
        if buf.is_empty() { Ok(0) } else { self.call() }
    }

    fn flush(&mut self) -> io::Result<()> {
        Ok(())
    }
}

/// The results of two reads from such a stream, and the room after the first.
fn halting_reads(alloc: Global) -> Option<(Got, [u8; 4], Got)> {
    let mut source = ReaderSource::of(alloc, Halting { calls: 0 }).ok()?;
    let mut room = [7; 4];
    let first = source.read(&mut room);
    let after = room;
    let second = source.read(&mut room);
    drop(source);
    Some((first, after, second))
}

/// The results of two writes to such a stream.
fn halting_writes() -> (Put, Put) {
    let mut sink = WriterSink::of(Halting { calls: 0 });
    let first = sink.write(b"0123");
    let second = sink.write(b"123");
    drop(sink);
    (first, second)
}

#[test]
fn an_interrupted_call_is_made_again_and_a_fault_is_told(rt: HostRuntime) {
    let reads = (Got::Gave(1), [0, 7, 7, 7], Got::Failed);
    assert_eq!(rt; halting_reads(rt.alloc()), Some(reads));
    assert_eq!(rt; halting_writes(), (Put::Took(1), Put::Failed));
}

/// A stream that transfers one byte, fails once, and then transfers this many more single bytes before it ends.
#[derive(Drop)]
struct Stumbling {
    calls: u8,
    more: u8,
}

impl Stumbling {
    fn call(&mut self) -> io::Result<usize>
        ensures { IfOk result (λ n. n ≤ 1) }
    {
        self.calls = self.calls.saturating_add(1);
        if self.calls == 1 {
            return Ok(1);
        }
        if self.calls == 2 {
            return Err(io::Error::other("a fault"));
        }
        if self.more == 0 {
            return Ok(0);
        }
        self.more -= 1;
        Ok(1)
    }
}

impl Read for Stumbling {
    fn read(&mut self, buf: &mut [u8]) -> io::Result<usize> {
        if buf.is_empty() { Ok(0) } else { self.call() }
    }
}

impl Write for Stumbling {
    fn write(&mut self, buf: &[u8]) -> io::Result<usize> {
        if buf.is_empty() { Ok(0) } else { self.call() }
    }

    fn flush(&mut self) -> io::Result<()> {
        Ok(())
    }
}

/// The results of three reads from a stream that fails once and then ends.
fn stumbling_reads(alloc: Global) -> Option<(Got, Got, Got)> {
    let mut source = ReaderSource::of(alloc, Stumbling { calls: 0, more: 0 }).ok()?;
    let mut room = [7; 4];
    let first = source.read(&mut room);
    let second = source.read(&mut room);
    let third = source.read(&mut room);
    drop(source);
    Some((first, second, third))
}

/// Whether a stream that fails once, and then has this many more bytes, is read to its end despite the fault.
fn is_read_over(alloc: Global, more: u8) -> Option<bool> {
    let mut source = ReaderSource::of(alloc, Stumbling { calls: 0, more }).ok()?;
    let read = read_all(alloc, &mut source, 100);
    drop(source);
    match read {
        Ok(bytes) => {
            drop(bytes);
            Some(true)
        }
        Err(refusal) => Some(refusal != ReadRefusal::Failed),
    }
}

/// Whether all bytes are sent to a stream that fails once and then takes this many more.
fn is_sent_over(more: u8) -> bool {
    let mut sink = WriterSink::of(Stumbling { calls: 0, more });
    let sent = send_all(&mut sink, b"0123");
    drop(sink);
    sent.is_ok()
}

#[test]
fn a_stream_that_fails_once_is_not_read_or_written_on(rt: HostRuntime) {
    let reads = (Got::Gave(1), Got::Failed, Got::End);
    assert_eq!(rt; stumbling_reads(rt.alloc()), Some(reads));
    assert_eq!(rt; is_read_over(rt.alloc(), 0), Some(false));
    assert_eq!(rt; is_read_over(rt.alloc(), 3), Some(false));
    assert!(rt; !is_sent_over(3));
}

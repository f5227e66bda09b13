//! The system's streams as a source and a sink. The system says nothing of content, so these aren't observable; they
//! keep a count of the faults.
ghost use Rattle.std.specs.Prelude.{◌≡◌, ℕ, List, [], Some, None, if◌then◌else◌, ◌<◌, ◌≤◌, length, take, drop, IfSome, IfNone, IfOk};
ghost use Rattle.std.specs.Io.KnownBytes.{Consumes, Appends, Keeps, IsAtEnd};
ghost use Rattle.as4_flow.specs.Flow.{Told, before, one_more, Rose};

use crate::{Got, Put, Sink, Source};
use std::alloc::{AllocError, Global};
use std::io::{ErrorKind, Read, Write};

/// How often a call that a signal interrupts is made, before it counts as a fault.
const TRIES: u32 = 1_000;

const _: () = prove!(TRIES == 1000);

/// The most bytes that one read asks for.
const MOST: usize = 1 << 16;

const _: () = prove!(MOST == 65536);

/// Any reader of std as a source, as standard input or a socket. A read that gives no bytes is its end.
#[derive(Drop)]
pub struct ReaderSource<R: Read + Drop> {
    reader: R,
    // What a reader does to the room past what it gave isn't known, so it reads into this.
    buffer: Vec<u8>,
    faults: u64,
    ghost has_room: { 0 < length buffer.items },
}

impl<R: Read + Drop> ReaderSource<R> {
    ghost use Rattle.as4_flow.specs.Streams.{reader_of, read_faults};

    /// The only memory that it takes is this one's: 64 KiB.
    pub fn of(alloc: Global, reader: R) -> Result<ReaderSource<R>, AllocError>
        ensures reader { IfOk result (λ source. reader_of source ≡ reader) }
        ensures faults { IfOk result (λ source. read_faults source ≡ 0) }
    {
        Ok(ReaderSource {
            reader,
            buffer: vec![in alloc; 0; MOST]?,
            faults: 0,
        })
    }

    /// How many reads have failed, up to the last value of a `u64`.
    pub fn faults(&self) -> u64
        ensures { result ≡ read_faults self.now }
    {
        self.faults
    }
}

impl<R: Read + Drop> Source for ReaderSource<R> {
    ghost use Rattle.as4_flow.specs.Got.{IfGave, OnNothing, UnlessFailed, is_failed};
    ghost use Rattle.as4_flow.specs.Streams.{reader_of, read_faults};

    ghost left = { λ _. None };

    ghost faults = { λ s. s.faults };

    fn read(&mut self, room: &mut [u8]) -> Got
        requires { 0 < length room.old }
        ensures some { IfGave result (λ n. (1 ≤ n) × (n ≤ length room.new)) }
        ensures rest { IfGave result (λ n. drop n room.new ≡ drop n room.old) }

        ensures nothing { OnNothing result (room.new ≡ room.old) }

        ensures failed { result ≡ Got.Failed → Rose (read_faults self.old) (read_faults self.new) }
        ensures quiet { UnlessFailed result (read_faults self.new ≡ read_faults self.old) }
        ensures counted { read_faults self.old ≤ read_faults self.new }

        // Where the reader says what it has left, these bytes are the next of them.
        ensures consumes { IfGave result
            (λ n. Consumes (R.remaining (reader_of self.old)) (R.remaining (reader_of self.new)) (take n room.new)) }
        ensures at_end { result ≡ Got.End → IsAtEnd (R.remaining (reader_of self.new)) }
        ensures keeps { result ≡ Got.Failed →
            Keeps (R.remaining (reader_of self.old)) (R.remaining (reader_of self.new)) }

        // Each failure is counted, and nothing else is.
        ensures count { read_faults self.new ≡
            (if is_failed result then one_more (read_faults self.old) else read_faults self.old) }
    {
        match fill(&mut self.reader, &mut self.buffer, room) {
            Some(0) => Got::End,
            Some(n) => Got::Gave(n),
            None => {
                self.faults = self.faults.saturating_add(1);
                Got::Failed
            }
        }
    }
}

// Reads into the buffer, and copies what came to the start of the room. `None` is a fault.
fn fill<R: Read>(reader: &mut R, buffer: &mut Vec<u8>, room: &mut [u8]) -> Option<usize>
    requires buffer { 0 < length buffer.old.items }
    requires room { 0 < length room.old }
    ensures within { IfSome result (λ n. n ≤ length room.new) }
    ensures bytes { IfSome result (λ n. Consumes (R.remaining reader.old) (R.remaining reader.new) (take n room.new)) }
    ensures rest { IfSome result (λ n. drop n room.new ≡ drop n room.old) }
    ensures end { IfSome result (λ n. n ≡ 0 → IsAtEnd (R.remaining reader.new)) }

    ensures same { IfNone result (room.new ≡ room.old) }
    ensures none { IfNone result (Keeps (R.remaining reader.old) (R.remaining reader.new)) }
    ensures len { length buffer.new.items ≡ length buffer.old.items }
{
    let most = room.len().min(buffer.len());
    let part = &mut buffer[..most];
    let n = read_some(reader, part)?;
    room[..n].copy_from_slice(&part[..n]);
    Some(n)
}

// One read, made again where a signal interrupts it. `None` is a fault.
#[tactic(auto, using(crate::proofs::StreamsLemmas::kept_then_consumed, crate::proofs::StreamsLemmas::kept_then_kept))]
fn read_some<R: Read>(reader: &mut R, room: &mut [u8]) -> Option<usize>
    requires { 0 < length room.old }
    ensures within { IfSome result (λ n. n ≤ length room.new) }
    ensures bytes { IfSome result (λ n. Consumes (R.remaining reader.old) (R.remaining reader.new) (take n room.new)) }
    ensures end { IfSome result (λ n. n ≡ 0 → IsAtEnd (R.remaining reader.new)) }
    ensures none { IfNone result (Keeps (R.remaining reader.old) (R.remaining reader.new)) }
{
    for _ in 0..TRIES {
        match reader.read(room) {
            Ok(n) => return Some(n),
            Err(e) => {
                if e.kind() != ErrorKind::Interrupted {
                    return None;
                }
            }
        }
    }
    None
}

/// Any writer of std as a sink, as standard output or a socket. Use a writer without a buffer: the bytes that one
/// `write` took have then reached the stream, and nothing is flushed.
#[derive(Drop)]
pub struct WriterSink<W: Write + Drop> {
    writer: W,
    faults: u64,
}

impl<W: Write + Drop> WriterSink<W> {
    ghost use Rattle.as4_flow.specs.Streams.{writer_of, write_faults};

    pub fn of(writer: W) -> WriterSink<W>
        ensures writer { writer_of result ≡ writer }
        ensures faults { write_faults result ≡ 0 }
    {
        WriterSink { writer, faults: 0 }
    }

    /// How many writes have failed, up to the last value of a `u64`.
    pub fn faults(&self) -> u64
        ensures { result ≡ write_faults self.now }
    {
        self.faults
    }
}

impl<W: Write + Drop> Sink for WriterSink<W> {
    ghost use Rattle.as4_flow.specs.Put.{IfTook, is_refused};
    ghost use Rattle.as4_flow.specs.Streams.{writer_of, write_faults};

    ghost taken = { λ _. None };

    ghost faults = { λ s. s.faults };

    fn write(&mut self, piece: &[u8]) -> Put
        requires { 0 < length piece.now }
        ensures some { IfTook result (λ n. (1 ≤ n) × (n ≤ length piece.now)) }

        ensures failed { result ≡ Put.Failed → Rose (write_faults self.old) (write_faults self.new) }
        ensures quiet { IfTook result (λ _. write_faults self.new ≡ write_faults self.old) }
        ensures counted { write_faults self.old ≤ write_faults self.new }

        // Where the writer says what it holds, these bytes were appended to it.
        ensures appends { IfTook result
            (λ n. Appends (W.contents (writer_of self.old)) (W.contents (writer_of self.new)) (take n piece.now)) }
        ensures keeps { result ≡ Put.Failed →
            Keeps (W.contents (writer_of self.old)) (W.contents (writer_of self.new)) }

        // Each failure is counted, and nothing else is.
        ensures count { write_faults self.new ≡
            (if is_refused result then one_more (write_faults self.old) else write_faults self.old) }
    {
        match write_some(&mut self.writer, piece) {
            Some(n) => Put::Took(n),
            None => {
                self.faults = self.faults.saturating_add(1);
                Put::Failed
            }
        }
    }
}

// One write, made again where a signal interrupts it. `None` is a fault, as a write that takes nothing.
#[tactic(auto, using(crate::proofs::StreamsLemmas::kept_then_appended, crate::proofs::StreamsLemmas::kept_then_nothing, crate::proofs::StreamsLemmas::kept_then_kept))]
fn write_some<W: Write>(writer: &mut W, piece: &[u8]) -> Option<usize>
    ensures within { IfSome result (λ n. (1 ≤ n) × (n ≤ length piece.now)) }
    ensures bytes { IfSome result (λ n. Appends (W.contents writer.old) (W.contents writer.new) (take n piece.now)) }
    ensures none { IfNone result (Keeps (W.contents writer.old) (W.contents writer.new)) }
{
    for _ in 0..TRIES {
        match writer.write(piece) {
            Ok(0) => return None,
            Ok(n) => return Some(n),
            Err(e) => {
                if e.kind() != ErrorKind::Interrupted {
                    return None;
                }
            }
        }
    }
    None
}

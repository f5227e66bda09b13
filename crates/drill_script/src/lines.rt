//! A source, line by line.
//!
//!     bytes  LF  bytes  LF  ..      each line ends in an LF, which isn't part of the line
//!
//! The buffer has the lines that were returned, followed by the bytes that the reader holds. Before a read, the held
//! bytes move to the start. So each byte is moved once, and is searched for an LF once.
ghost use Rattle.std.specs.Prelude.{◌≡◌, ◌≢◌, ℕ, [], ◌+◌, ◌++◌, ◌<◌, ◌≤◌, length, take, drop, IfOk, OnOk};
ghost use Rattle.std.specs.Result.{OnErr};
ghost use Rattle.as4_flow.specs.Flow.{Rose, Told, before};
ghost use Rattle.byte_forms.specs.Parted.{Lacks, parted};

use crate::pieces::{drop_front, front_of, read_piece};
use as4_flow::Source;
use as4_values::Octets;
use std::alloc::Global;
use std::marker::Model;

/// The maximum number of bytes of a line, without its LF.
pub const LINE_LIMIT: usize = 1 << 20;

const _: () = prove!(LINE_LIMIT == 1048576);

/// The result of a reader of lines.
#[derive(Drop)]
pub enum LineGot {
    /// The next line, without its LF.
    Line(Octets),
    /// The source has ended, and nothing is held.
    End,
    /// The source has ended, and the reader holds bytes after the last LF.
    Unended,
    /// More bytes than the limit precede the next LF. Each later call returns the same.
    TooLong,
    /// The source failed. The next call continues where this one stopped.
    Failed,
    /// Out of memory. The next call continues where this one stopped.
    NoMemory,
}

/// The prefix of some bytes.
#[derive(Clone, Copy, Debug, PartialEq, Eq)]
pub(crate) enum Front {
    /// A line of this many bytes, and its LF.
    Line(usize),
    /// A part of a line, within the limit.
    Unfinished,
    /// More bytes than the limit, without an LF.
    TooLong,
}

/// The result of a read.
#[derive(Clone, Copy, Debug, PartialEq, Eq)]
pub(crate) enum Filled {
    Gave,
    End,
    Failed,
    NoMemory,
}

/// Reads the lines of a source. In contracts, its value is the bytes that it holds.
#[derive(Drop)]
pub struct LineReader {
    alloc: Global,
    buffer: Vec<u8>,
    // The number of bytes that were returned.
    start: usize,
}

impl Model for LineReader {
    ghost use Rattle.std.specs.Prelude.{ℕ, List, ◌≤◌, drop, length};

    ghost Value = { List ℕ };

    ghost view = { λ reader. drop reader.start reader.buffer.items };

    ghost invariant = { λ reader. reader.start ≤ length reader.buffer.items };
}

impl LineReader {
    ghost use Rattle.drill_script.specs.LineText.{line_limit};
    ghost use Rattle.drill_script.specs.Lines.{IfLine, IsAhead, OnNoLine, BeginsLong, ahead_limit};
    ghost use Rattle.drill_script.specs.Fronts.{Has, MatchFilled};

    /// A reader that holds nothing. It doesn't allocate.
    pub fn new(alloc: Global) -> LineReader
        ensures { result ≡ [] }
    {
        LineReader {
            alloc,
            buffer: Vec::new(alloc),
            start: 0,
        }
    }

    /// The next line of the source. The bytes after the line are held for the next call.
    #[tactic(auto, using(crate::proofs::FrontLemmas::never_long_line, crate::proofs::FrontLemmas::never_long_short))]
    pub fn next<S: Source>(&mut self, source: &mut S) -> LineGot
        ensures line { IfLine result
            (λ line. before self.old (S.left source.old) ≡ before (parted 10 line self.new) (S.left source.new)) }
        ensures lf { IfLine result (Lacks 10) }
        ensures within { IfLine result (λ line. length line ≤ line_limit) }

        ensures end { result ≡ LineGot.End → (self.old ≡ []) × Told (S.left source.old) (λ bytes. bytes ≡ []) }
        ensures unended { result ≡ LineGot.Unended
            → Told (before self.old (S.left source.old)) (λ bytes. (0 < length bytes) × Lacks 10 bytes) }
        ensures too_long { result ≡ LineGot.TooLong → Told (before self.old (S.left source.old)) BeginsLong }
        ensures failed { result ≡ LineGot.Failed → Rose (S.faults source.old) (S.faults source.new) }

        // If the held bytes begin too long, the reader reports it without allocating.
        ensures long { BeginsLong self.old → result ≡ LineGot.TooLong }

        // If no line is returned, no byte is lost.
        ensures kept { OnNoLine result (before self.new (S.left source.new) ≡ before self.old (S.left source.old)) }
        ensures counted { S.faults source.old ≤ S.faults source.new }

        // The reader reports each fault, and holds at most as many bytes as a line and a piece.
        ensures quiet { result ≢ LineGot.Failed → S.faults source.new ≡ S.faults source.old }
        ensures ahead { length self.old ≤ ahead_limit → IsAhead result self.new }
    {
        let mut scanned = 0;
        'pieces: loop {
            match self.front(scanned) {
                Front::Line(at) => return self.line(at),
                Front::TooLong => return LineGot::TooLong,
                Front::Unfinished => {}
            }
            scanned = self.len();
            match self.fill(source) {
                Filled::Gave => {}
                Filled::End if scanned == 0 => return LineGot::End,
                Filled::End => return LineGot::Unended,
                Filled::Failed => return LineGot::Failed,
                Filled::NoMemory => return LineGot::NoMemory,
            }
        }
    }

    // The number of bytes that it holds.
    fn len(&self) -> usize
        ensures { result ≡ length self.now }
    {
        self.buffer.len() - self.start
    }

    // The prefix of the bytes that it holds, the first `scanned` of which were searched.
    fn front(&self, scanned: usize) -> Front
        requires within { scanned ≤ length self.now }
        requires lacks { Lacks 10 (take scanned self.now) }
        ensures { Has self.now result }
    {
        front_of(&self.buffer[self.start..], scanned)
    }

    // Returns the line of this many bytes.
    fn line(&mut self, at: usize) -> LineGot
        requires { at < length self.old }
        ensures line { IfLine result (λ line. line ≡ take at self.old) }
        ensures rest { IfLine result (λ _. self.new ≡ drop (at + 1) self.old) }
        ensures none { OnNoLine result ((result ≡ LineGot.NoMemory) × (self.new ≡ self.old)) }
    {
        let end = self.start + at;
        match Vec::from_slice(self.alloc, &self.buffer[self.start..end]) {
            Ok(line) => {
                self.start = end + 1;
                LineGot::Line(Octets::of(line))
            }
            Err(_) => LineGot::NoMemory,
        }
    }

    // Reads a piece of the source, after the bytes that it holds.
    fn fill<S: Source>(&mut self, source: &mut S) -> Filled
        requires { length self.old ≤ line_limit }
        ensures whole { before self.old (S.left source.old) ≡ before self.new (S.left source.new) }
        ensures front { take (length self.old) self.new ≡ self.old }
        ensures more { MatchFilled result (length self.old < length self.new) (self.new ≡ self.old) }
        ensures left { MatchFilled result (Unit {0}) (S.left source.new ≡ S.left source.old) }
        ensures end { result ≡ Filled.End → Told (S.left source.old) (λ bytes. bytes ≡ []) }
        ensures failed { result ≡ Filled.Failed → Rose (S.faults source.old) (S.faults source.new) }
        ensures counted { S.faults source.old ≤ S.faults source.new }
        ensures quiet { result ≢ Filled.Failed → S.faults source.new ≡ S.faults source.old }
        ensures ahead { length self.new ≤ ahead_limit }
    {
        drop_front(&mut self.buffer, self.start);
        self.start = 0;
        read_piece(&mut self.buffer, source)
    }
}

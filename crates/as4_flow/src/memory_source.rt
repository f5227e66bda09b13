//! An observable source in memory: for tests, and for bytes that are there already.
ghost use Rattle.std.specs.Prelude.{◌≡◌, ℕ, Some, [], ◌<◌, ◌≤◌, ◌↔◌, length, take, drop, min};
ghost use Rattle.as4_flow.specs.Flow.{Told, before, Rose};
ghost use Rattle.as4_flow.specs.InMemory.{new_source, IsFailing, piece_size, after_read};

use crate::{Got, Source};
use std::marker::Model;

/// Bytes that come in pieces of given sizes, with faults in between.
#[derive(Drop)]
pub struct MemorySource {
    bytes: Vec<u8>,
    // How many of the bytes were given.
    given: usize,
    pieces: Vec<usize>,
    // How many of the pieces were used up.
    used: usize,
    failing: Vec<u64>,
    calls: u64,
    faults: u64,
}

impl Model for MemorySource {
    ghost use Rattle.std.specs.Prelude.{◌≤◌, drop, length};
    ghost use Rattle.as4_flow.specs.InMemory.{SourceState};

    ghost Value = { SourceState };

    ghost view = { λ s. record {
      bytes = drop s.given s.bytes.items;
      pieces = drop s.used s.pieces.items;
      failing = s.failing.items;
      calls = s.calls;
      faults = s.faults;
    } };

    ghost invariant = { λ s. (s.given ≤ length s.bytes.items) × (s.used ≤ length s.pieces.items) };
}

impl MemorySource {
    /// `pieces` are the most that each call gives, one used up by each call that gives; 0 counts as 1, and
    /// after the last a call gives as much as there is room for. `failing` are the numbers of the calls
    /// that fail, the first call being 1.
    pub fn of(bytes: Vec<u8>, pieces: Vec<usize>, failing: Vec<u64>) -> MemorySource
        ensures { result ≡ new_source bytes.items pieces.items failing.items }
    {
        MemorySource {
            bytes,
            given: 0,
            pieces,
            used: 0,
            failing,
            calls: 0,
            faults: 0,
        }
    }

    /// The bytes that are left.
    pub fn rest(&self) -> &[u8]
        ensures { result.now ≡ self.now.bytes }
    {
        &self.bytes[self.given..]
    }

    /// How many calls have failed, up to the last value of a `u64`.
    pub fn faults(&self) -> u64
        ensures { result ≡ self.now.faults }
    {
        self.faults
    }
}

impl Source for MemorySource {
    ghost use Rattle.as4_flow.specs.Got.{IfGave, OnNothing, UnlessFailed};

    ghost left = { λ s. Some s.bytes };

    ghost faults = { λ s. s.faults };

    fn read(&mut self, room: &mut [u8]) -> Got
        requires { 0 < length room.old }
        ensures some { IfGave result (λ n. (1 ≤ n) × (n ≤ length room.new)) }
        ensures bytes { IfGave result (λ n. Some self.old.bytes ≡ before (take n room.new) (Some self.new.bytes)) }
        ensures rest { IfGave result (λ n. drop n room.new ≡ drop n room.old) }

        ensures nothing { OnNothing result (room.new ≡ room.old) }
        ensures stays { OnNothing result (Some self.new.bytes ≡ Some self.old.bytes) }
        ensures end { result ≡ Got.End → Told (Some self.old.bytes) (λ bytes. bytes ≡ []) }

        ensures failed { result ≡ Got.Failed → Rose self.old.faults self.new.faults }
        ensures quiet { UnlessFailed result (self.new.faults ≡ self.old.faults) }
        ensures counted { self.old.faults ≤ self.new.faults }

        // Which calls fail, how much the others give, and what each leaves.
        ensures fails { (result ≡ Got.Failed) ↔ IsFailing self.old.failing self.old.calls }
        ensures piece { IfGave result
            (λ n. n ≡ piece_size self.old.pieces (min (length self.old.bytes) (length room.old))) }
        ensures state { self.new ≡ after_read result self.old }
    {
        self.calls = self.calls.saturating_add(1);
        if self.failing.contains(&self.calls) {
            self.faults = self.faults.saturating_add(1);
            return Got::Failed;
        }
        let left = &self.bytes[self.given..];
        if left.is_empty() {
            return Got::End;
        }
        let n = next_size(&self.pieces[self.used..], left.len().min(room.len()));
        room[..n].copy_from_slice(&left[..n]);
        self.given += n;
        self.used = self.pieces.len().min(self.used.saturating_add(1));
        Got::Gave(n)
    }
}

/// The size of the next piece, where at most this many bytes can go.
pub(crate) fn next_size(pieces: &[usize], most: usize) -> usize
    ensures { result ≡ piece_size pieces.now most }
{
    match pieces {
        [] => most,
        [size, ..] => (*size).max(1).min(most),
    }
}

//! An observable sink in memory: for tests, and for bytes that are needed in one place.
ghost use Rattle.std.specs.Prelude.{◌≡◌, ◌⊎◌, ℕ, Some, ◌<◌, ◌+◌, ◌≤◌, length, take, OnOk};
ghost use Rattle.as4_flow.specs.Flow.{appended, Rose};
ghost use Rattle.as4_flow.specs.InMemory.{new_sink, IsFailing, piece_size, after_write};

use crate::memory_source::next_size;
use crate::{Put, Sink};
use std::alloc::{AllocError, Global};
use std::marker::Model;

/// Takes bytes in pieces of given sizes, with faults in between.
#[derive(Drop)]
pub struct MemorySink {
    bytes: Vec<u8>,
    pieces: Vec<usize>,
    // How many of the pieces were used up.
    used: usize,
    failing: Vec<u64>,
    calls: u64,
    faults: u64,
}

impl Model for MemorySink {
    ghost use Rattle.std.specs.Prelude.{◌≤◌, ◌-◌, drop, length, vec_capacity};
    ghost use Rattle.as4_flow.specs.InMemory.{SinkState};

    ghost Value = { SinkState };

    ghost view = { λ s. record {
      bytes = s.bytes.items;
      room = vec_capacity s.bytes - length s.bytes.items;
      pieces = drop s.used s.pieces.items;
      failing = s.failing.items;
      calls = s.calls;
      faults = s.faults;
    } };

    ghost invariant = { λ s. s.used ≤ length s.pieces.items };
}

impl MemorySink {
    /// `pieces` are the most that each call takes, one used up by each call that takes; 0 counts as 1, and
    /// after the last a call takes all that it is given. `failing` are the numbers of the calls that
    /// fail, the first call being 1. A call that finds no memory fails too.
    pub fn of(alloc: Global, pieces: Vec<usize>, failing: Vec<u64>) -> MemorySink
        ensures { result ≡ new_sink pieces.items failing.items }
    {
        MemorySink {
            bytes: Vec::new(alloc),
            pieces,
            used: 0,
            failing,
            calls: 0,
            faults: 0,
        }
    }

    /// Takes the memory for this many more bytes, which no write then lacks.
    pub fn reserve(&mut self, more: usize) -> Result<(), AllocError>
        ensures ok { OnOk result (more ≤ self.new.room) }
        ensures others { self.new ≡ record self.old { room = self.new.room } }
    {
        self.bytes.reserve(more)
    }

    /// The bytes that were taken.
    pub fn bytes(&self) -> &[u8]
        ensures { result.now ≡ self.now.bytes }
    {
        &self.bytes
    }

    /// How many calls have failed, up to the last value of a `u64`.
    pub fn faults(&self) -> u64
        ensures { result ≡ self.now.faults }
    {
        self.faults
    }

    pub fn into_bytes(self) -> Vec<u8>
        ensures { result.items ≡ self.bytes }
    {
        let MemorySink {
            bytes,
            pieces: _,
            used: _,
            failing: _,
            calls: _,
            faults: _,
        } = self;
        bytes
    }
}

impl Sink for MemorySink {
    ghost use Rattle.as4_flow.specs.Put.{IfTook};

    ghost taken = { λ s. Some s.bytes };

    ghost faults = { λ s. s.faults };

    fn write(&mut self, piece: &[u8]) -> Put
        requires { 0 < length piece.now }
        ensures some { IfTook result (λ n. (1 ≤ n) × (n ≤ length piece.now)) }
        ensures bytes { IfTook result (λ n. Some self.new.bytes ≡ appended (Some self.old.bytes) (take n piece.now)) }

        ensures stays { result ≡ Put.Failed → Some self.new.bytes ≡ Some self.old.bytes }
        ensures failed { result ≡ Put.Failed → Rose self.old.faults self.new.faults }
        ensures quiet { IfTook result (λ _. self.new.faults ≡ self.old.faults) }
        ensures counted { self.old.faults ≤ self.new.faults }

        // Which calls fail, how much the others take, and what each leaves.
        ensures fails { IsFailing self.old.failing self.old.calls → result ≡ Put.Failed }
        ensures cause { result ≡ Put.Failed → IsFailing self.old.failing self.old.calls ⊎
            (self.old.room < piece_size self.old.pieces (length piece.now)) }
        ensures piece { IfTook result (λ n. n ≡ piece_size self.old.pieces (length piece.now)) }
        ensures room { IfTook result (λ n. self.old.room ≤ self.new.room + n) }
        ensures room_stays { result ≡ Put.Failed → self.old.room ≤ self.new.room }
        ensures state { self.new ≡ after_write result piece.now self.new.room self.old }
    {
        self.calls = self.calls.saturating_add(1);
        if self.failing.contains(&self.calls) {
            self.faults = self.faults.saturating_add(1);
            return Put::Failed;
        }
        let n = next_size(&self.pieces[self.used..], piece.len());
        if self.bytes.extend_from_slice(&piece[..n]).is_err() {
            self.faults = self.faults.saturating_add(1);
            return Put::Failed;
        }
        self.used = self.pieces.len().min(self.used.saturating_add(1));
        Put::Took(n)
    }
}

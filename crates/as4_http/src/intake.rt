//! The bytes that were read from a source and belong to no message yet.
ghost use Rattle.std.specs.Prelude.{◌≡◌, [], ◌+◌, ◌++◌, ◌≤◌, length, drop, IfOk, OnErr, IfErr, IsErrOf};
ghost use Rattle.as4_flow.specs.Flow.{Rose, Told};
ghost use Rattle.as4_http.specs.Came.{Came};
ghost use Rattle.as4_http.specs.Refused.{IsStop};

use crate::gathered::Gathered;
use crate::{HttpRefusal, MAX_PIECE};
use as4_flow::Source;
use std::alloc::Global;
use std::marker::Model;

/// Reads messages from a source, one after another, and holds the bytes that it read past the last. Contracts see
/// it as these bytes.
#[derive(Drop)]
pub struct Intake {
    alloc: Global,
    came: Gathered,
    // The number of bytes that went into messages.
    start: usize,
}

impl Model for Intake {
    ghost use Rattle.std.specs.Prelude.{ℕ, List, ◌≤◌, drop, length};

    ghost Value = { List ℕ };

    ghost view = { λ intake. drop intake.start intake.came };

    ghost invariant = { λ intake. intake.start ≤ length intake.came };
}

impl Intake {
    /// An intake that holds nothing. It allocates nothing.
    pub fn new(alloc: Global) -> Intake
        ensures { result ≡ [] }
    {
        Intake {
            alloc,
            came: Gathered::new(alloc),
            start: 0,
        }
    }

    pub(crate) fn alloc(&self) -> Global {
        self.alloc
    }

    pub(crate) fn bytes(&self) -> &[u8]
        ensures { result.now ≡ self.now }
    {
        &self.came.bytes()[self.start..]
    }

    pub(crate) fn len(&self) -> usize
        ensures { result ≡ length self.now }
    {
        self.came.len() - self.start
    }

    /// Drops the first n bytes.
    pub(crate) fn skip(&mut self, n: usize)
        requires { n ≤ length self.old }
        ensures { self.new ≡ drop n self.old }
    {
        let rest = self.len() - n;
        self.start = self.came.len() - rest;
    }

    /// Appends a piece of the source to the bytes that it holds, and returns how many came.
    pub(crate) fn fill<S: Source>(&mut self, source: &mut S) -> Result<usize, HttpRefusal>
        ensures some { IfOk result (λ n. 1 ≤ n) }
        ensures few { IfOk result (λ n. n ≤ MAX_PIECE) }
        ensures came { IfOk result (λ n. Came n self.old self.new (S.left source.old) (S.left source.new)) }
        ensures same { OnErr result ((self.new ≡ self.old) × (S.left source.new ≡ S.left source.old)) }
        ensures stop { IfErr result IsStop }
        ensures cut { IsErrOf result HttpRefusal.Cut → Told (S.left source.old) (λ bytes. bytes ≡ []) }
        ensures fault { IsErrOf result HttpRefusal.ReadFault → Rose (S.faults source.old) (S.faults source.new) }
        ensures quiet { ¬ IsErrOf result HttpRefusal.ReadFault → S.faults source.new ≡ S.faults source.old }
        ensures counted { S.faults source.old ≤ S.faults source.new }
    {
        // The bytes that it holds move to the start of the buffer: each byte moves at most once a message or chunk.
        self.came.drop_front(self.start);
        self.start = 0;
        self.came.fill(source, MAX_PIECE)
    }
}

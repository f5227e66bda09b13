//! A door in memory, which is observable.
ghost use Rattle.std.specs.Prelude.{◌≡◌, [], ◌∷◌, ◌++◌, reverse, Some, IfOk};
ghost use Rattle.as4_flow.specs.Flow.{one_more};
ghost use Rattle.as4_host.specs.InMemory.{new_door};

use crate::counts::raised;
use crate::stack::Stack;
use crate::{Arrival, Door, KeptSink, StreamPlan};
use as4_flow::MemorySource;
use as4_values::{NoMemory, Octets};
use std::alloc::Global;
use std::marker::Model;

/// Gives the guests of a list, and keeps the bytes that its settled sinks took.
#[derive(Drop)]
pub struct MemoryDoor {
    alloc: Global,
    guests: Stack,
    // The last settled sink's on top.
    answered: Stack,
    plan: StreamPlan,
    failing: Vec<u64>,
    calls: u64,
    faults: u64,
    reads: u64,
    writes: u64,
}

impl Model for MemoryDoor {
    ghost use Rattle.std.specs.Prelude.{reverse};
    ghost use Rattle.as4_host.specs.InMemory.{DoorState};

    ghost Value = { DoorState };

    ghost view = { λ d. record {
      guests = d.guests;
      answered = reverse d.answered;
      failing = d.failing.items;
      calls = d.calls;
      faults = d.faults;
      reads = d.reads;
      writes = d.writes;
    } };
}

impl MemoryDoor {
    /// The streams of each guest move and fail by the plan. `failing` are the numbers of the calls of `next` that fail,
    /// the first being 1; a call that finds no memory isn't counted.
    pub fn of(alloc: Global, guests: Stack, failing: Vec<u64>, plan: StreamPlan) -> MemoryDoor
        ensures { result ≡ new_door guests failing.items }
    {
        MemoryDoor {
            alloc,
            guests,
            answered: Stack::new(),
            plan,
            failing,
            calls: 0,
            faults: 0,
            reads: 0,
            writes: 0,
        }
    }

    /// How many calls of `next`, settled sources and settled sinks had failed.
    pub fn counts(&self) -> (u64, u64, u64)
        ensures { result ≡ (self.now.faults, self.now.reads, self.now.writes) }
    {
        (self.faults, self.reads, self.writes)
    }

    /// The guests that haven't come.
    pub fn into_guests(self) -> Stack
        ensures { result ≡ self.guests }
    {
        let (guests, answered) = self.into_parts();
        drop(answered);
        guests
    }

    /// The bytes that its settled sinks took, the last one's on top.
    pub fn into_answered(self) -> Stack
        ensures { reverse result ≡ self.answered }
    {
        let (guests, answered) = self.into_parts();
        drop(guests);
        answered
    }

    // The guests that haven't come, and the bytes that its settled sinks took, the last one's on top.
    fn into_parts(self) -> (Stack, Stack)
        ensures guests { result.0 ≡ self.guests }
        ensures answered { reverse result.1 ≡ self.answered }
    {
        let MemoryDoor {
            alloc: _,
            guests,
            answered,
            plan: _,
            failing: _,
            calls: _,
            faults: _,
            reads: _,
            writes: _,
        } = self;
        (guests, answered)
    }

    // Counts a call of `next`, and whether it fails.
    fn is_failing(&mut self) -> bool
        ensures counted { self.new ≡ record self.old { calls = one_more self.old.calls } }
    {
        self.calls = self.calls.saturating_add(1);
        self.failing.contains(&self.calls)
    }
}

impl Door for MemoryDoor {
    type In = MemorySource;

    type Out = KeptSink;

    ghost guests = { λ d. Some d.guests };

    ghost answered = { λ d. Some d.answered };

    ghost faults = { λ d. d.faults };

    ghost reads = { λ d. d.reads };

    ghost writes = { λ d. d.writes };

    fn next(&mut self) -> Arrival<MemorySource, KeptSink> {
        let (plan, room) = match (self.plan.try_copy(self.alloc), Stack::room(self.alloc)) {
            (Ok(plan), Ok(room)) => (plan, room),
            (plan, room) => {
                drop(plan);
                drop(room);
                return Arrival::NoMemory;
            }
        };
        if self.is_failing() {
            drop(plan);
            drop(room);
            self.faults = self.faults.saturating_add(1);
            return Arrival::Failed;
        }
        let Some(guest) = self.guests.pop() else {
            drop(plan);
            drop(room);
            return Arrival::Closed;
        };
        let (source, sink) = plan.pair(self.alloc, guest);
        Arrival::Open(source, KeptSink { sink, room })
    }

    fn settle(&mut self, source: MemorySource, sink: KeptSink) {
        let KeptSink { sink, room } = sink;
        self.reads = raised(source.faults(), self.reads);
        self.writes = raised(sink.faults(), self.writes);
        drop(source);
        self.answered.push(Octets::of(sink.into_bytes()), room);
    }

    fn share(&self) -> Result<MemoryDoor, NoMemory> {
        let (failing, plan) = match (
            self.failing.to_vec(self.alloc),
            self.plan.try_copy(self.alloc),
        ) {
            (Ok(failing), Ok(plan)) => (failing, plan),
            (failing, plan) => {
                drop(failing);
                drop(plan);
                return Err(NoMemory);
            }
        };
        Ok(MemoryDoor::of(self.alloc, Stack::new(), failing, plan))
    }
}

//! A link in memory, which is observable.
ghost use Rattle.std.specs.Prelude.{◌≡◌, [], ◌∷◌, ◌++◌, reverse, Some, IfOk, OnOk, OnErr};
ghost use Rattle.as4_flow.specs.Flow.{one_more};
ghost use Rattle.as4_host.specs.InMemory.{new_link};

use crate::counts::raised;
use crate::stack::Stack;
use crate::{KeptSink, Link, LinkRefusal, StreamPlan};
use as4_flow::MemorySource;
use as4_values::{NoMemory, Octets, Seq};
use std::alloc::Global;
use std::marker::Model;

/// Gives the answers of a list, and keeps the bytes that its settled sinks took.
#[derive(Drop)]
pub struct MemoryLink {
    alloc: Global,
    answers: Stack,
    addresses: Vec<Octets>,
    // The last settled sink's on top.
    sent: Stack,
    plan: StreamPlan,
    failing: Vec<u64>,
    calls: u64,
    faults: u64,
    reads: u64,
    writes: u64,
}

impl Model for MemoryLink {
    ghost use Rattle.std.specs.Prelude.{reverse};
    ghost use Rattle.as4_host.specs.InMemory.{LinkState};

    ghost Value = { LinkState };

    ghost view = { λ l. record {
      answers = l.answers;
      addresses = l.addresses.items;
      sent = reverse l.sent;
      failing = l.failing.items;
      calls = l.calls;
      faults = l.faults;
      reads = l.reads;
      writes = l.writes;
    } };
}

impl MemoryLink {
    /// The streams of each pair move and fail by the plan. `failing` are the numbers of the opens that fail, the first
    /// being 1; an open that finds no memory isn't counted.
    pub fn of(alloc: Global, answers: Stack, failing: Vec<u64>, plan: StreamPlan) -> MemoryLink
        ensures { result ≡ new_link answers failing.items }
    {
        MemoryLink {
            alloc,
            answers,
            addresses: Vec::new(alloc),
            sent: Stack::new(),
            plan,
            failing,
            calls: 0,
            faults: 0,
            reads: 0,
            writes: 0,
        }
    }

    /// The addresses that it was asked for.
    pub fn addresses(&self) -> &[Octets]
        ensures { result.now ≡ self.now.addresses }
    {
        &self.addresses
    }

    /// How many opens, settled sources and settled sinks had failed.
    pub fn counts(&self) -> (u64, u64, u64)
        ensures { result ≡ (self.now.faults, self.now.reads, self.now.writes) }
    {
        (self.faults, self.reads, self.writes)
    }

    /// The bytes that its settled sinks took, the last one's on top.
    pub fn into_sent(self) -> Stack
        ensures { reverse result ≡ self.sent }
    {
        let (addresses, sent) = self.into_parts();
        drop(addresses);
        sent
    }

    /// The addresses that it was asked for, and the bytes that its settled sinks took, the last one's on top.
    pub(crate) fn into_parts(self) -> (Vec<Octets>, Stack)
        ensures addresses { result.0.items ≡ self.addresses }
        ensures sent { reverse result.1 ≡ self.sent }
    {
        let MemoryLink {
            alloc: _,
            answers: _,
            addresses,
            sent,
            plan: _,
            failing: _,
            calls: _,
            faults: _,
            reads: _,
            writes: _,
        } = self;
        (addresses, sent)
    }

    // Takes the memory that an open needs, and keeps the address.
    fn ask(&mut self, address: &str) -> Result<(StreamPlan, Box<Stack>), NoMemory>
        ensures ok { OnOk result
            (self.new ≡ record self.old { addresses = self.old.addresses ++ address.now ∷ [] }) }
        ensures err { OnErr result (self.new ≡ self.old) }
    {
        let name = Vec::from_slice(self.alloc, address.as_bytes());
        match (
            self.plan.try_copy(self.alloc),
            name,
            Stack::room(self.alloc),
        ) {
            (Ok(plan), Ok(name), Ok(room)) => {
                if let Err(refused) = self.addresses.push(Octets::of(name)) {
                    drop(refused);
                    drop(plan);
                    drop(room);
                    return Err(NoMemory);
                }
                Ok((plan, room))
            }
            (plan, name, room) => {
                drop(plan);
                drop(name);
                drop(room);
                Err(NoMemory)
            }
        }
    }

    // Counts an open, and whether it fails.
    fn is_failing(&mut self) -> bool
        ensures counted { self.new ≡ record self.old { calls = one_more self.old.calls } }
    {
        self.calls = self.calls.saturating_add(1);
        self.failing.contains(&self.calls)
    }
}

impl Link for MemoryLink {
    type In = MemorySource;

    type Out = KeptSink;

    ghost answers = { λ l. Some l.answers };

    ghost addresses = { λ l. Some l.addresses };

    ghost sent = { λ l. Some l.sent };

    ghost faults = { λ l. l.faults };

    ghost reads = { λ l. l.reads };

    ghost writes = { λ l. l.writes };

    fn open(&mut self, address: &str) -> Result<(MemorySource, KeptSink), LinkRefusal> {
        let Ok((plan, room)) = self.ask(address) else {
            return Err(LinkRefusal::NoMemory);
        };
        if self.is_failing() {
            drop(plan);
            drop(room);
            self.faults = self.faults.saturating_add(1);
            return Err(LinkRefusal::LinkFailed);
        }
        let answer = match self.answers.pop() {
            Some(answer) => answer,
            None => Octets::of(Vec::new(self.alloc)),
        };
        let (source, sink) = plan.pair(self.alloc, answer);
        Ok((source, KeptSink { sink, room }))
    }

    fn settle(&mut self, source: MemorySource, sink: KeptSink) {
        let KeptSink { sink, room } = sink;
        self.reads = raised(source.faults(), self.reads);
        self.writes = raised(sink.faults(), self.writes);
        drop(source);
        self.sent.push(Octets::of(sink.into_bytes()), room);
    }
}

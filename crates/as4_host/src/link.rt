//! What opens a pair of streams to an address, and counts the faults of the pairs that it is given back.
//!
//!     open    gives a source and a sink, or fails, which is counted
//!     settle  takes a pair back: where its source or its sink has failed, that is counted too
ghost use Rattle.std.specs.Prelude.{◌≡◌, ℕ, Option, List, ◌≤◌, IfOk, OnErr};
ghost use Rattle.as4_flow.specs.Flow.{flow};
ghost use Rattle.as4_host.specs.Lists.{Opens, and_one};
ghost use Rattle.as4_host.specs.Counts.{raised};

use as4_flow::{Sink, Source};

/// Why no pair was opened.
#[derive(Clone, Copy, Debug, PartialEq, Eq)]
pub enum LinkRefusal {
    /// The address couldn't be reached.
    LinkFailed,
    /// There was no memory, and nobody was asked.
    NoMemory,
}

pub trait Link {
    ghost use Rattle.as4_host.specs.Links.{dialed, HasLinkCause};

    type In: Source + Drop;

    type Out: Sink + Drop;

    /// The bytes that each of its next sources will give, where the link is observable.
    ghost answers: { Self → Option (List (List ℕ)) };

    /// The addresses that it was asked for, where it is observable.
    ghost addresses: { Self → Option (List (List ℕ)) };

    /// The bytes that each settled sink took, where the link is observable.
    ghost sent: { Self → Option (List (List ℕ)) };

    /// How many opens failed, up to the last value of a `u64`.
    ghost faults: { Self → ℕ };

    /// How many settled sources had failed, up to the last value of a `u64`.
    ghost reads: { Self → ℕ };

    /// How many settled sinks had failed, up to the last value of a `u64`.
    ghost writes: { Self → ℕ };

    /// Opens a pair of streams to the address. The source gives the first answer, and no bytes where there is none.
    fn open(&mut self, address: &str) -> Result<(Self::In, Self::Out), LinkRefusal>
        ensures opens { IfOk result (λ pair. Opens (answers self.old) (answers self.new)
            (flow (Self.In.left pair.0) (Self.Out.taken pair.1) (Self.In.faults pair.0) (Self.Out.faults pair.1))) }
        ensures refused { OnErr result (answers self.new ≡ answers self.old) }
        ensures addresses { addresses self.new ≡ dialed result address.now (addresses self.old) }
        ensures cause { HasLinkCause (faults self.old) (faults self.new) result }
        ensures others { (sent self.new ≡ sent self.old) × (reads self.new ≡ reads self.old)
            × (writes self.new ≡ writes self.old) };

    /// Takes a pair back. It takes no memory.
    fn settle(&mut self, source: Self::In, sink: Self::Out)
        ensures sent { sent self.new ≡ and_one (sent self.old) (Self.Out.taken sink) }
        ensures reads { reads self.new ≡ raised (Self.In.faults source) (reads self.old) }
        ensures writes { writes self.new ≡ raised (Self.Out.faults sink) (writes self.old) }
        ensures counted { (reads self.old ≤ reads self.new) × (writes self.old ≤ writes self.new) }
        ensures others { (answers self.new ≡ answers self.old) × (addresses self.new ≡ addresses self.old)
            × (faults self.new ≡ faults self.old) };
}

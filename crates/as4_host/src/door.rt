//! What gives a pair of streams for each guest that comes, and counts the faults of the pairs that it is given back.
//!
//!     next    gives a source and a sink; or no more guests will come; or it fails, which is counted
//!     settle  takes a pair back: where its source or its sink has failed, that is counted too
//!     share   gives a second door on the same entrance
ghost use Rattle.std.specs.Prelude.{◌≡◌, ◌≢◌, ℕ, Option, List, [], ◌≤◌, IfOk};
ghost use Rattle.as4_flow.specs.Flow.{Told, flow};
ghost use Rattle.as4_host.specs.Lists.{Opens, and_one, none_of};
ghost use Rattle.as4_host.specs.Counts.{raised};

use as4_flow::{Sink, Source};
use as4_values::NoMemory;

/// What a door answers.
#[derive(Drop)]
pub enum Arrival<I: Drop, O: Drop> {
    /// A guest has come, who sends through the source and is answered through the sink.
    Open(I, O),
    /// No more guests will come.
    Closed,
    /// The entrance failed. The next call may give a guest.
    Failed,
    /// There was no memory. The guest waits.
    NoMemory,
}

pub trait Door {
    ghost use Rattle.as4_host.specs.Arrivals.{IfOpen, OnRefused, OnClosed, HasDoorCause};

    type In: Source + Drop;

    type Out: Sink + Drop;

    /// Its guests: the bytes that each of its next sources will give, where the door is observable.
    ghost guests: { Self → Option (List (List ℕ)) };

    /// The bytes that each settled sink took, where the door is observable.
    ghost answered: { Self → Option (List (List ℕ)) };

    /// How many calls of `next` failed, up to the last value of a `u64`.
    ghost faults: { Self → ℕ };

    /// How many settled sources had failed, up to the last value of a `u64`.
    ghost reads: { Self → ℕ };

    /// How many settled sinks had failed, up to the last value of a `u64`.
    ghost writes: { Self → ℕ };

    /// Gives the streams of the next guest.
    fn next(&mut self) -> Arrival<Self::In, Self::Out>
        ensures opens { IfOpen result (λ source sink. Opens (guests self.old) (guests self.new)
            (flow (Self.In.left source) (Self.Out.taken sink) (Self.In.faults source) (Self.Out.faults sink))) }
        ensures guest { IfOpen result (λ _ _. Told (guests self.old) (λ all. all ≢ [])) }
        ensures refused { OnRefused result (guests self.new ≡ guests self.old) }
        ensures closed { OnClosed result (Told (guests self.old) (λ all. all ≡ [])) }
        ensures cause { HasDoorCause (faults self.old) (faults self.new) result }
        ensures others { (reads self.new ≡ reads self.old) × (writes self.new ≡ writes self.old)
            × (answered self.new ≡ answered self.old) };

    /// Takes a pair back. It takes no memory.
    fn settle(&mut self, source: Self::In, sink: Self::Out)
        ensures answered { answered self.new ≡ and_one (answered self.old) (Self.Out.taken sink) }
        ensures reads { reads self.new ≡ raised (Self.In.faults source) (reads self.old) }
        ensures writes { writes self.new ≡ raised (Self.Out.faults sink) (writes self.old) }
        ensures counted { (reads self.old ≤ reads self.new) × (writes self.old ≤ writes self.new) }
        ensures others { (guests self.new ≡ guests self.old) × (faults self.new ≡ faults self.old) };

    /// A second door on the same entrance. Those who are this door's guests already stay its guests.
    fn share(&self) -> Result<Self, NoMemory>
    where
        Self: Sized,
        ensures guests { IfOk result (λ door. guests door ≡ none_of (guests self.now)) }
        ensures answered { IfOk result (λ door. answered door ≡ none_of (answered self.now)) }
        ensures counts { IfOk result (λ door. (faults door ≡ 0) × (reads door ≡ 0) × (writes door ≡ 0)) };
}

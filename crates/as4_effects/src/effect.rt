//! Effects: the changes at one endpoint.

ghost use Rattle.std.specs.Prelude.{◌≤◌};
ghost use Rattle.as4_values.specs.declared.moment.TheConstants.{MAX_MOMENT};

use crate::carried::Carried;
use crate::delivery::Delivery;
use crate::kept::Kept;
use crate::submission::Submission;
use as4_values::{Code, NoMemory, PlainData};
use std::alloc::Global;

/// The clock was set.
#[derive(Drop)]
pub struct Tick {
    /// In milliseconds since 1970, before the year 10,000.
    pub moment: u64,
    pub ghost dated: { moment ≤ MAX_MOMENT },
}

/// One change at one endpoint of an exchange.
#[derive(Drop)]
pub enum Effect {
    /// A message was submitted.
    Submitted(Submission),
    /// The clock was set.
    Ticked(Tick),
    /// The submission of this number was sent again, or for the first time.
    Tried { number: u64 },
    /// A user message was received.
    Delivered(Delivery),
    /// The receipt for the submission of this number was received (ebMS 3.0 Core, section 5.2.3.3).
    Receipted { number: u64 },
    /// An error for the submission of this number was received: it is refused (ebMS 3.0 Core, section 6).
    Refused { number: u64, code: Code },
    /// The received messages up to and including this one, counted from 0, were confirmed.
    Confirmed { upto: u64 },
    /// Written by compaction: a submission with its current state. No event makes it.
    Carried(Carried),
    /// Written by compaction: the header of a message that was received and confirmed. No event makes it.
    Kept(Kept),
}

impl PlainData for Tick {
    fn try_clone(&self, _alloc: Global) -> Result<Tick, NoMemory> {
        Ok(Tick {
            moment: self.moment,
        })
    }

    fn same(&self, other: &Tick) -> bool {
        self.moment == other.moment
    }
}

impl PlainData for Effect {
    fn try_clone(&self, alloc: Global) -> Result<Effect, NoMemory> {
        match self {
            Effect::Submitted(submission) => Ok(Effect::Submitted(submission.try_clone(alloc)?)),
            Effect::Ticked(tick) => Ok(Effect::Ticked(tick.try_clone(alloc)?)),
            Effect::Tried { number } => Ok(Effect::Tried { number: *number }),
            Effect::Delivered(delivery) => Ok(Effect::Delivered(delivery.try_clone(alloc)?)),
            Effect::Receipted { number } => Ok(Effect::Receipted { number: *number }),
            Effect::Refused { number, code } => Ok(Effect::Refused {
                number: *number,
                code: code.try_clone(alloc)?,
            }),
            Effect::Confirmed { upto } => Ok(Effect::Confirmed { upto: *upto }),
            Effect::Carried(carried) => Ok(Effect::Carried(carried.try_clone(alloc)?)),
            Effect::Kept(kept) => Ok(Effect::Kept(kept.try_clone(alloc)?)),
        }
    }

    fn same(&self, other: &Effect) -> bool {
        match (self, other) {
            (Effect::Submitted(submission), Effect::Submitted(other)) => submission.same(other),
            (Effect::Ticked(tick), Effect::Ticked(other)) => tick.same(other),
            (Effect::Tried { number }, Effect::Tried { number: other }) => number == other,
            (Effect::Delivered(delivery), Effect::Delivered(other)) => delivery.same(other),
            (Effect::Receipted { number }, Effect::Receipted { number: other }) => number == other,
            (
                Effect::Refused { number, code },
                Effect::Refused {
                    number: other_number,
                    code: other_code,
                },
            ) => number == other_number && code.same(other_code),
            (Effect::Confirmed { upto }, Effect::Confirmed { upto: other }) => upto == other,
            (Effect::Carried(carried), Effect::Carried(other)) => carried.same(other),
            (Effect::Kept(kept), Effect::Kept(other)) => kept.same(other),
            _ => false,
        }
    }
}

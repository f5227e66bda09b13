//! A step with all memory that it takes, its record included.
ghost use Rattle.std.specs.Prelude.{◌≡◌, []};

use as4_disk::FaultCounts;
use exchange_model::{Event, Reply};
use journal::Frame;
use msh_core::Plan;
use std::marker::Model;

/// What an office is about to do with an event. `Office::prepare` makes one, and `Office::enact` or `Office::abandon`
/// takes it.
#[derive(Drop)]
pub struct Ready {
    pub(crate) event: Event,
    pub(crate) plan: Plan,
    // The record of the plan's effects, if it has some.
    pub(crate) frame: Option<Frame>,
    // The disk failed when the payloads of a message were read.
    pub(crate) failed: Option<FaultCounts>,
}

impl Model for Ready {
    ghost use Rattle.msh_journal.specs.Frames.{IsFrameOf};
    ghost use Rattle.office.specs.Preparing.{Prepared};

    ghost Value = { Prepared };

    ghost view = { λ ready. record { event = ready.event; plan = ready.plan; failed = ready.failed } };

    ghost invariant = { λ ready. IsFrameOf ready.plan.outcome.effects ready.frame };
}

impl Ready {
    ghost use Rattle.msh_journal.specs.Frames.{IsFrameOf};

    /// The plan of a `Read`, which has no record; with the counts of faults if the disk failed.
    pub(crate) fn reading(event: Event, plan: Plan, failed: Option<FaultCounts>) -> Ready
        requires { plan.outcome.effects ≡ [] }
        ensures { result ≡ record { event = event; plan = plan; failed = failed } }
    {
        Ready {
            event,
            plan,
            frame: None,
            failed,
        }
    }

    /// What the office will reply, unless the disk fails or has failed.
    pub fn reply(&self) -> &Reply
        ensures { result.now ≡ self.now.plan.outcome.reply }
    {
        self.plan.reply()
    }

    /// Takes it apart.
    pub(crate) fn into_parts(self) -> (Event, Plan, Option<Frame>, Option<FaultCounts>)
        ensures event { result.0 ≡ self.event }
        ensures plan { result.1 ≡ self.plan }
        ensures frame { IsFrameOf self.plan.outcome.effects result.2 }
        ensures failed { result.3 ≡ self.failed }
    {
        let Ready {
            event,
            plan,
            frame,
            failed,
        } = self;
        (event, plan, frame, failed)
    }
}

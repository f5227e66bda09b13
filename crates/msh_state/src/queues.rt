//! The queues in which submissions wait (ebMS 3.0 Core, section 3.4, on message partition channels).

ghost use Rattle.std.specs.Prelude.{◌≡◌, IfOk, IsTrue};
ghost use Rattle.as4_effects.specs.declared.effect.Effect.{Effect};
ghost use Rattle.msh_state.specs.Rooms.{TakesNoRoom, queue_at, queue_for};
ghost use Rattle.exchange_model.specs.Apply.{after};
ghost use Rattle.exchange_model.specs.End.{End};
ghost use Rattle.exchange_model.specs.Questions.{queue_of};

use crate::tables::EndTables;
use as4_effects::{Effect, Queue};
use as4_values::{NoMemory, PlainData, Route};
use std::alloc::Global;

/// A law: an effect that takes no room doesn't change the queue of any effect.
pub fn queue_for_kept()
    ensures { (e f : Effect) (end : End) → TakesNoRoom e → queue_for (after e end).sent f ≡ queue_for end.sent f }
{}

/// The queue in which submissions of this route wait.
pub fn queue_of(alloc: Global, route: &Route) -> Result<Queue, NoMemory>
    ensures { IfOk result (λ queue. queue ≡ queue_of route.now) }
{
    match route {
        Route::Push { .. } => Ok(Queue::Push),
        Route::Pull { mpc, .. } => Ok(Queue::Channel(mpc.try_clone(alloc)?)),
    }
}

impl EndTables {
    /// The queue in which the effect moves a submission.
    #[tactic(auto, unfolding(crate::specs::Rooms::queue_for))]
    pub fn queue_for(&self, effect: &Effect) -> Result<Queue, NoMemory>
        ensures { IfOk result (λ queue. queue ≡ queue_for self.now.end.sent effect.now) }
    {
        match effect {
            Effect::Submitted(submission) => queue_of(self.alloc, &submission.route),
            Effect::Tried { number } => self.queue_at(*number),
            Effect::Receipted { number } => self.queue_at(*number),
            Effect::Refused { number, .. } => self.queue_at(*number),
            Effect::Carried(carried) => queue_of(self.alloc, &carried.submission.route),
            Effect::Ticked(_) | Effect::Delivered(_) | Effect::Confirmed { .. } | Effect::Kept(_) =>
                Ok(Queue::Push),
        }
    }

    /// The queue of the submission of this number.
    pub(crate) fn queue_at(&self, number: u64) -> Result<Queue, NoMemory>
        ensures { IfOk result (λ queue. queue ≡ queue_at number self.now.end.sent) }
    {
        match self.outbox.get(number) {
            Some(submission) => queue_of(self.alloc, &submission.route),
            None => Ok(Queue::Push),
        }
    }
}

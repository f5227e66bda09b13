//! Reserves room for effects before they are applied: this takes the memory, and may fail.

ghost use Rattle.std.specs.Prelude.{◌≡◌, Some, IsSome, OnOk};
ghost use Rattle.msh_state.specs.Rooms.{HasRoom, IsThere, queue_at};
ghost use Rattle.exchange_model.specs.Questions.{queue_of, sent_at};

use crate::queues::queue_of;
use crate::tables::EndTables;
use as4_effects::{Effect, Submission};
use as4_values::NoMemory;

impl EndTables {
    /// Reserves room for the effect, and changes nothing else.
    #[tactic(auto, unfolding(crate::specs::Rooms::HasRoom, crate::specs::Rooms::IsThere))]
    pub fn reserve(&mut self, effect: &Effect) -> Result<(), NoMemory>
        requires there { IsThere self.old.end.sent effect.now }
        ensures ok { OnOk result (HasRoom self.new.rooms self.new.end.sent effect.now) }
        ensures end { self.new.end ≡ self.old.end }
        ensures places { self.new.places ≡ self.old.places }
    {
        match effect {
            Effect::Submitted(submission) => self.reserve_submission(submission),
            Effect::Tried { number } => self.reserve_again(*number),
            Effect::Delivered(delivery) => self.inbox.reserve(&delivery.header.id),
            Effect::Carried(carried) => self.reserve_submission(&carried.submission),
            Effect::Kept(kept) => self.inbox.reserve(&kept.header.id),
            _ => Ok(()),
        }
    }

    /// Reserves room for a submission, in the outbox and in its queue.
    fn reserve_submission(&mut self, submission: &Submission) -> Result<(), NoMemory>
        ensures outbox { OnOk result (self.new.rooms.outbox ≡ Some submission.now.header.id) }
        ensures channels { OnOk result (self.new.rooms.channels
            ≡ Some (record { queue = queue_of submission.now.route; number = submission.now.number })) }
        ensures end { self.new.end ≡ self.old.end }
        ensures places { self.new.places ≡ self.old.places }
    {
        let queue = queue_of(self.alloc, &submission.route)?;
        self.outbox.reserve(&submission.header.id)?;
        self.channels.reserve(&queue, submission.number)?;
        Ok(())
    }

    /// Reserves room for a submission in its queue.
    fn reserve_again(&mut self, number: u64) -> Result<(), NoMemory>
        requires { IsSome (sent_at number self.old.end.sent) }
        ensures ok { OnOk result (self.new.rooms.channels
            ≡ Some (record { queue = queue_at number self.old.end.sent; number = number })) }
        ensures end { self.new.end ≡ self.old.end }
        ensures places { self.new.places ≡ self.old.places }
    {
        let queue = self.queue_at(number)?;
        self.channels.reserve(&queue, number)?;
        Ok(())
    }
}

//! Applies effects to the tables. `reserve` has taken the memory that they need: nothing here takes memory, and nothing
//! can fail.
//!
//!     Submitted  the outbox has one more, which waits in its queue
//!     Tried      it waits again with a later due moment, if it may be sent again
//!     Receipted  it is settled, and no longer waits
//!     Refused    the same
//!     Ticked     the spent ones expire: none of these waits
//!     Delivered  the inbox has one more, whose payloads are in the record
//!     Confirmed  the payloads of those up to and including a number no longer count
//!     Carried    the outbox has one more, with its state, which waits if it may be sent again
//!     Kept       the inbox has one more, which is confirmed
//!
//! The calls of `Outbox::len` are for its contract: each submission is at the place of its number.

ghost use Rattle.std.specs.Prelude.{◌≡◌, ◌<◌, None, Some, IsTrue, length, set, slice_get};
ghost use Rattle.channels.specs.Queues.{waiting_at, without};
ghost use Rattle.msh_state.specs.Again.{with_again};
ghost use Rattle.inbox.specs.Spots.{Spot};
ghost use Rattle.msh_state.specs.Places.{delivery_len, places_after};
ghost use Rattle.msh_state.specs.Rooms.{HasRoom, TakesNoRoom, queue_at, queue_for};
ghost use Rattle.msh_state.specs.Waiting.{waiting_in};
ghost use Rattle.exchange_model.specs.Apply.{after, is_fit};
ghost use Rattle.exchange_model.specs.Questions.{sent_at};

use crate::tables::EndTables;
use crate::waiting;
use as4_effects::{Carried, Delivery, Effect, Kept, Measured, Queue, Submission, Tick};
use as4_values::Code;
use channels::Channels;
use outbox::Outbox;

impl EndTables {
    /// Applies an effect of the record at this gate. Takes no memory.
    #[tactic(auto, unfolding(crate::specs::Rooms::TakesNoRoom, crate::specs::Places::places_after))]
    pub fn apply(&mut self, effect: Effect, queue: &Queue, gate: u64)
        requires fit { IsTrue (is_fit effect self.old.end) }
        requires room { HasRoom self.old.rooms self.old.end.sent effect }
        requires queue { queue.now ≡ queue_for self.old.end.sent effect }
        ensures end { self.new.end ≡ after effect self.old.end }
        ensures places { self.new.places ≡ places_after effect gate self.old.places }
        ensures rooms { TakesNoRoom effect → self.new.rooms ≡ self.old.rooms }
    {
        match effect {
            Effect::Submitted(submission) => self.submit(submission, queue),
            Effect::Ticked(tick) => self.tick(tick),
            Effect::Tried { number } => self.send_again(number, queue),
            Effect::Delivered(delivery) => self.deliver(delivery, gate),
            Effect::Receipted { number } => self.receipt(number, queue),
            Effect::Refused { number, code } => self.refuse(number, code, queue),
            Effect::Confirmed { upto } => self.confirm(upto),
            Effect::Carried(carried) => self.carry(carried, queue),
            Effect::Kept(kept) => self.keep(kept),
        }
    }

    #[tactic(auto, unfolding(exchange_model::specs::Apply::after, exchange_model::specs::Apply::is_fit, crate::specs::Rooms::HasRoom, crate::specs::Rooms::queue_for))]
    fn carry(&mut self, carried: Carried, queue: &Queue)
        requires fit { IsTrue (is_fit (Effect.Carried carried) self.old.end) }
        requires room { HasRoom self.old.rooms self.old.end.sent (Effect.Carried carried) }
        requires queue { queue.now ≡ queue_for self.old.end.sent (Effect.Carried carried) }
        ensures end { self.new.end ≡ after (Effect.Carried carried) self.old.end }
        ensures places { self.new.places ≡ self.old.places }
    {
        let number = carried.submission.number;
        let _numbered = self.outbox.len();
        self.outbox.carry(carried);
        put_back(&self.outbox, &mut self.channels, queue, number);
    }

    #[tactic(auto, unfolding(exchange_model::specs::Apply::after, exchange_model::specs::Apply::is_fit, crate::specs::Rooms::HasRoom, crate::specs::Places::places_after))]
    fn keep(&mut self, kept: Kept)
        requires fit { IsTrue (is_fit (Effect.Kept kept) self.old.end) }
        requires room { HasRoom self.old.rooms self.old.end.sent (Effect.Kept kept) }
        ensures end { self.new.end ≡ after (Effect.Kept kept) self.old.end }
        ensures places { self.new.places ≡ places_after (Effect.Kept kept) 0 self.old.places }
    {
        let Kept { header } = kept;
        self.inbox.keep(header);
    }

    #[tactic(auto, unfolding(exchange_model::specs::Apply::after, exchange_model::specs::Apply::is_fit, crate::specs::Rooms::HasRoom, crate::specs::Rooms::queue_for))]
    fn submit(&mut self, submission: Submission, queue: &Queue)
        requires fit { IsTrue (is_fit (Effect.Submitted submission) self.old.end) }
        requires room { HasRoom self.old.rooms self.old.end.sent (Effect.Submitted submission) }
        requires queue { queue.now ≡ queue_for self.old.end.sent (Effect.Submitted submission) }
        ensures end { self.new.end ≡ after (Effect.Submitted submission) self.old.end }
        ensures places { self.new.places ≡ self.old.places }
    {
        let number = submission.number;
        let _numbered = self.outbox.len();
        self.outbox.commit_submit(submission);
        put_back(&self.outbox, &mut self.channels, queue, number);
    }

    #[tactic(auto, unfolding(exchange_model::specs::Apply::after, exchange_model::specs::Apply::is_fit))]
    fn tick(&mut self, tick: Tick)
        requires { IsTrue (is_fit (Effect.Ticked tick) self.old.end) }
        ensures end { self.new.end ≡ after (Effect.Ticked tick) self.old.end }
        ensures places { self.new.places ≡ self.old.places }
        ensures rooms { self.new.rooms ≡ self.old.rooms }
    {
        let _failed = self.outbox.fail_spent(tick.moment);
        self.moment = tick.moment;
    }

    #[tactic(auto, unfolding(exchange_model::specs::Apply::after, exchange_model::specs::Apply::is_fit, crate::specs::Rooms::HasRoom, crate::specs::Rooms::queue_for))]
    fn send_again(&mut self, number: u64, queue: &Queue)
        requires fit { IsTrue (is_fit (Effect.Tried number) self.old.end) }
        requires room { HasRoom self.old.rooms self.old.end.sent (Effect.Tried number) }
        requires queue { queue.now ≡ queue_for self.old.end.sent (Effect.Tried number) }
        ensures end { self.new.end ≡ after (Effect.Tried number) self.old.end }
        ensures places { self.new.places ≡ self.old.places }
    {
        let _numbered = self.outbox.len();
        take_out(&self.outbox, &mut self.channels, queue, number);
        self.outbox.mark_tried(number, self.moment);
        put_back(&self.outbox, &mut self.channels, queue, number);
    }

    #[tactic(auto, unfolding(exchange_model::specs::Apply::after, exchange_model::specs::Apply::is_fit, crate::specs::Rooms::HasRoom, crate::specs::Places::places_after))]
    fn deliver(&mut self, delivery: Delivery, gate: u64)
        requires fit { IsTrue (is_fit (Effect.Delivered delivery) self.old.end) }
        requires room { HasRoom self.old.rooms self.old.end.sent (Effect.Delivered delivery) }
        ensures end { self.new.end ≡ after (Effect.Delivered delivery) self.old.end }
        ensures places { self.new.places ≡ places_after (Effect.Delivered delivery) gate self.old.places }
    {
        let length = body_len(&delivery);
        let Delivery { header, payloads } = delivery;
        self.inbox.commit(header, &payloads, gate, length);
    }

    #[tactic(auto, unfolding(exchange_model::specs::Apply::after, exchange_model::specs::Apply::is_fit, crate::specs::Rooms::queue_for))]
    fn receipt(&mut self, number: u64, queue: &Queue)
        requires fit { IsTrue (is_fit (Effect.Receipted number) self.old.end) }
        requires queue { queue.now ≡ queue_for self.old.end.sent (Effect.Receipted number) }
        ensures end { self.new.end ≡ after (Effect.Receipted number) self.old.end }
        ensures places { self.new.places ≡ self.old.places }
        ensures rooms { self.new.rooms ≡ self.old.rooms }
    {
        let _numbered = self.outbox.len();
        take_out(&self.outbox, &mut self.channels, queue, number);
        self.outbox.mark_receipted(number);
    }

    #[tactic(auto, unfolding(exchange_model::specs::Apply::after, exchange_model::specs::Apply::is_fit, crate::specs::Rooms::queue_for))]
    fn refuse(&mut self, number: u64, code: Code, queue: &Queue)
        requires fit { IsTrue (is_fit (Effect.Refused number code) self.old.end) }
        requires queue { queue.now ≡ queue_for self.old.end.sent (Effect.Refused number code) }
        ensures end { self.new.end ≡ after (Effect.Refused number code) self.old.end }
        ensures places { self.new.places ≡ self.old.places }
        ensures rooms { self.new.rooms ≡ self.old.rooms }
    {
        let _numbered = self.outbox.len();
        take_out(&self.outbox, &mut self.channels, queue, number);
        self.outbox.mark_ended(number, code);
    }

    #[tactic(auto, unfolding(exchange_model::specs::Apply::after, exchange_model::specs::Apply::is_fit))]
    fn confirm(&mut self, upto: u64)
        requires { IsTrue (is_fit (Effect.Confirmed upto) self.old.end) }
        ensures end { self.new.end ≡ after (Effect.Confirmed upto) self.old.end }
        ensures places { self.new.places ≡ self.old.places }
        ensures rooms { self.new.rooms ≡ self.old.rooms }
    {
        self.inbox.confirm(upto);
    }

    /// The payloads of the message of this number were moved: the record at this gate delivers it now.
    pub fn moved(&mut self, n: u64, gate: u64)
        requires { n < length self.old.places }
        ensures end { self.new.end ≡ self.old.end }
        ensures places { (p : Spot) → slice_get self.old.places n ≡ Some p
            → self.new.places ≡ set self.old.places n (record p { gate = gate }) }
        ensures rooms { self.new.rooms ≡ self.old.rooms }
    {
        self.inbox.moved(n, gate);
    }
}

/// The length of a record's body that delivers this message alone.
#[tactic(auto, using(crate::proofs::LengthLemmas::measured), unfolding(crate::specs::Places::delivery_len))]
fn body_len(delivery: &Delivery) -> u64
    ensures { result ≡ delivery_len delivery.now.header delivery.now.payloads }
{
    delivery.add_len(2)
}

/// Takes a submission out of its queue, if it waits there.
fn take_out(outbox: &Outbox, channels: &mut Channels, queue: &Queue, number: u64)
    requires step { channels.old.waiting ≡ waiting_in outbox.now.sent }
    requires queue { queue.now ≡ queue_at number outbox.now.sent }
    ensures waiting { channels.new.waiting ≡ without number channels.old.waiting }
    ensures room { channels.new.room ≡ channels.old.room }
{
    let _numbered = outbox.len();
    if waiting::waits(outbox, number) {
        if let Some(due) = outbox.due(number) {
            channels.remove(queue, due, number);
        }
    }
}

/// Puts a submission into its queue, if it waits.
fn put_back(outbox: &Outbox, channels: &mut Channels, queue: &Queue, number: u64)
    requires gone { waiting_at number channels.old.waiting ≡ None }
    requires queue { queue.now ≡ queue_at number outbox.now.sent }
    requires room { channels.old.room ≡ Some (record { queue = queue.now; number = number }) }
    ensures { channels.new.waiting ≡ with_again (sent_at number outbox.now.sent) channels.old.waiting }
{
    let _numbered = outbox.len();
    if waiting::waits(outbox, number) {
        if let Some(due) = outbox.due(number) {
            channels.insert(queue, due, number);
        }
    }
}

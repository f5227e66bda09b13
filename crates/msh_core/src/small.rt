//! Ticks and confirmations, which take no memory.
ghost use Rattle.std.specs.Prelude.{◌≡◌, ◌+◌, ◌≤◌, nat_le};
ghost use Rattle.exchange_model.specs.Apply.{applied};
ghost use Rattle.exchange_model.specs.declared.event.Event.{Event as EventValue};
ghost use Rattle.exchange_model.specs.declared.outcome.Outcome.{Outcome as OutcomeValue};

use crate::machine::{Core, MAX_JOURNAL};
use as4_effects::{Effect, Queue, Tick};
use as4_values::MAX_MOMENT;
use exchange_model::{Reply, What};

/// The size of the record of a tick or of a confirmation.
pub(crate) const SMALL_RECORD: u64 = 20;

/// What an endpoint is about to do at a tick or a confirmation.
#[derive(Drop)]
pub enum SmallPlan {
    /// The clock is set to this moment.
    Tick { moment: u64 },
    /// The messages up to and including this one are confirmed.
    Confirm { upto: u64 },
    /// Nothing changes.
    Rest(Reply),
}

impl Core {
    ghost use Rattle.msh_core.specs.Small.{CanGo, IsSmallReady, PlansFor, StandsFor};

    /// What a tick to this moment does; in milliseconds since 1970-01-01T00:00:00Z.
    pub fn plan_tick(&self, stamp: u64) -> SmallPlan
        requires { stamp ≤ MAX_MOMENT }
        ensures step { (event : EventValue) → event.what ≡ What.Tick → event.stamp ≡ stamp → PlansFor self.now event result }
        ensures ready { IsSmallReady self.now result }
    {
        if stamp <= self.tables.moment() {
            return SmallPlan::Rest(Reply::Ticked { failed: 0 });
        }
        if !self.has_small_room() {
            return self.small_full();
        }
        SmallPlan::Tick { moment: stamp }
    }

    /// What a confirmation of the messages up to and including this one does.
    pub fn plan_confirm(&self, upto: u64) -> SmallPlan
        ensures step { (event : EventValue) → event.what ≡ What.Confirm upto → PlansFor self.now event result }
        ensures ready { IsSmallReady self.now result }
    {
        if upto < self.tables.confirmed() {
            return SmallPlan::Rest(Reply::Gone);
        }
        if upto >= self.tables.received() {
            return SmallPlan::Rest(Reply::NoEntry);
        }
        if !self.has_small_room() {
            return self.small_full();
        }
        SmallPlan::Confirm { upto }
    }

    /// Whether the journal has room for a small record.
    fn has_small_room(&self) -> bool
        ensures { result ≡ nat_le (self.now.end.size + 20) MAX_JOURNAL }
    {
        self.tables.size() + SMALL_RECORD <= MAX_JOURNAL
    }

    /// The journal has no room for a small record.
    fn small_full(&self) -> SmallPlan
        ensures { result ≡ SmallPlan.Rest (Reply.Full self.now.end.size 20) }
    {
        let size = self.tables.size();
        let need = SMALL_RECORD;
        SmallPlan::Rest(Reply::Full { size, need })
    }

    /// Carries out a plan for the present state. No payloads come or move.
    pub fn commit_small(&mut self, plan: SmallPlan) -> Reply
        requires { IsSmallReady self.old plan }
        ensures step { (outcome : OutcomeValue) → StandsFor self.old.end plan outcome
            → (self.new.end ≡ applied outcome.effects self.old.end) × (result ≡ outcome.reply) }
        ensures places { self.new.places ≡ self.old.places }
        ensures modes { self.new.modes ≡ self.old.modes }
    {
        match plan {
            SmallPlan::Rest(reply) => reply,
            SmallPlan::Tick { moment } => {
                drop(plan);
                self.commit_tick(moment)
            }
            SmallPlan::Confirm { upto } => {
                drop(plan);
                self.commit_confirm(upto)
            }
        }
    }

    #[tactic(auto, unfolding(exchange_model::specs::Apply::is_fit, msh_state::specs::Places::places_after, msh_state::specs::Rooms::HasRoom, msh_state::specs::Rooms::queue_for), using(crate::proofs::RecordLemmas::size_after))]
    fn commit_tick(&mut self, moment: u64) -> Reply
        requires { CanGo self.old.end (SmallPlan.Tick moment) }
        ensures step { (outcome : OutcomeValue) → StandsFor self.old.end (SmallPlan.Tick moment) outcome
            → (self.new.end ≡ applied outcome.effects self.old.end) × (result ≡ outcome.reply) }
        ensures places { self.new.places ≡ self.old.places }
        ensures modes { self.new.modes ≡ self.old.modes }
    {
        let failed = self.tables.spent(moment);
        self.tables
            .apply(Effect::Ticked(Tick { moment }), &Queue::Push, 0);
        self.tables.grow(SMALL_RECORD);
        Reply::Ticked { failed }
    }

    #[tactic(auto, unfolding(exchange_model::specs::Apply::is_fit, msh_state::specs::Places::places_after, msh_state::specs::Rooms::HasRoom, msh_state::specs::Rooms::queue_for), using(crate::proofs::RecordLemmas::size_after))]
    fn commit_confirm(&mut self, upto: u64) -> Reply
        requires { CanGo self.old.end (SmallPlan.Confirm upto) }
        ensures step { (outcome : OutcomeValue) → StandsFor self.old.end (SmallPlan.Confirm upto) outcome
            → (self.new.end ≡ applied outcome.effects self.old.end) × (result ≡ outcome.reply) }
        ensures places { self.new.places ≡ self.old.places }
        ensures modes { self.new.modes ≡ self.old.modes }
    {
        self.tables
            .apply(Effect::Confirmed { upto }, &Queue::Push, 0);
        self.tables.grow(SMALL_RECORD);
        Reply::Confirmed { upto }
    }
}

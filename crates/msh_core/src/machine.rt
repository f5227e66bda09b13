//! The core: one endpoint with its processing modes.

ghost use Rattle.std.specs.Prelude.{◌≡◌, ◌+◌, ◌≤◌, ◌^◌, IfOk, IfSome, IsOk, None, false, length, option_copied, option_map, true};
ghost use Rattle.std.specs.List.{sum_by};
ghost use Rattle.as4_effects.specs.Effects.{effects_body, effects_limit, most_bytes_of};
ghost use Rattle.msh_state.specs.Places.{places_after_all};
ghost use Rattle.msh_state.specs.Rooms.{new_tables};
ghost use Rattle.msh_state.specs.Standing.{CanStand};
ghost use Rattle.msh_state.specs.Totals.{AreTotals};
ghost use Rattle.exchange_model.specs.Apply.{applied, record_len};
ghost use Rattle.exchange_model.specs.Questions.{sent_at};
ghost use Rattle.exchange_model.specs.Table.{IsLimited, Step, has_room};
ghost use Rattle.exchange_model.specs.declared.outcome.Outcome.{Outcome as OutcomeValue};
ghost use Rattle.msh_transitions.specs.Free.{IsFree};
ghost use Rattle.msh_core.specs.Machine.{IsGiven, IsReady};

use crate::applying::{apply_all, room_for};
use crate::plan::Plan;
use as4_effects::{Effect, Submission};
use as4_values::{MAX_MOMENT, NoMemory, Seq};
use event_code::body_len;
use exchange_model::{Event, Outcome, Reply};
use msh_state::{EndTables, Totals};
use msh_transitions::{rests, row_of};
use outcome_laws::an_event_has_one_outcome;
use pmodes::Modes;
use std::alloc::Global;
use std::marker::Model;

/// The most bytes of a journal.
pub const MAX_JOURNAL: u64 = 4_294_967_296;

const _: () = prove!(MAX_JOURNAL == 4294967296);

/// One endpoint with its processing modes. It reads no clock, disk or network: whatever happens is an event.
#[derive(Drop)]
pub struct Core {
    pub(crate) alloc: Global,
    modes: Modes,
    pub(crate) tables: EndTables,
}

impl Model for Core {
    ghost use Rattle.msh_core.specs.Machine.{IsConsistent, Machine};

    ghost Value = { Machine };

    ghost view = { λ core. record { end = core.tables.end; places = core.tables.places; modes = core.modes; rooms = core.tables.rooms } };

    ghost invariant = { λ core. IsConsistent core.tables.end core.tables.places };
}

impl Core {
    /// An endpoint to which nothing has happened yet.
    #[tactic(auto, using(crate::proofs::MeasuredLemmas::new_consistent))]
    pub fn new(alloc: Global, modes: Modes) -> Core
        ensures { result ≡ record { end = new_tables.end; places = new_tables.places; modes = modes; rooms = new_tables.rooms } }
    {
        Core {
            alloc,
            modes,
            tables: EndTables::new(alloc),
        }
    }

    /// What the endpoint does with an event. Takes all the memory that this needs; changes nothing but the reserved
    /// room. If the outcome is free (no effects, and a bare reply), this doesn't fail. The reply to `Read` comes without
    /// payloads: `held` says where they are, and `Plan::filled` puts them in.
    pub fn prepare(&mut self, event: &Event) -> Result<Plan, NoMemory>
        ensures given { IfOk result (λ plan. IsGiven self.old.modes self.old.end event.now plan.outcome) }
        ensures ready { IfOk result (IsReady self.new) }
        ensures short { IfOk result (λ plan. length (effects_body plan.outcome.effects) ≤ 2 ^ 30) }
        ensures free { (outcome : OutcomeValue) → Step self.old.modes self.old.end event.now outcome → IsFree outcome → IsOk result }
        ensures end { self.new.end ≡ self.old.end }
        ensures places { self.new.places ≡ self.old.places }
        ensures modes { self.new.modes ≡ self.old.modes }
    {
        let row = row_of(self.alloc, &self.modes, &self.tables, event)?;
        let outcome = limited(self.alloc, &self.tables, row);
        if outcome.effects.items().is_empty() {
            return Ok(Plan::of(outcome, Seq::of(Vec::new(self.alloc))));
        }
        match room_for(self.alloc, &mut self.tables, &outcome.effects) {
            Ok(queues) => Ok(Plan::of(outcome, queues)),
            Err(error) => {
                // Laws: an event has one outcome, so this `Err` excludes the memory-free one.
                an_event_has_one_outcome();
                drop(outcome);
                Err(error)
            }
        }
    }

    /// Carries out a plan for the present state. The plan's effects are in the record at this gate. Takes no memory.
    pub fn commit(&mut self, plan: Plan, gate: u64) -> Reply
        requires { IsReady self.old plan }
        ensures end { self.new.end ≡ applied plan.outcome.effects self.old.end }
        ensures places { self.new.places ≡ places_after_all plan.outcome.effects gate self.old.places }
        ensures modes { self.new.modes ≡ self.old.modes }
        ensures reply { result ≡ plan.outcome.reply }
    {
        let (effects, queues, reply) = plan.into_parts();
        if effects.items().is_empty() {
            drop(effects);
            drop(queues);
            return reply;
        }
        let len = record_len(&effects);
        apply_all(&mut self.tables, effects, &queues, gate);
        self.tables.grow(len);
        reply
    }

    /// The clock, in milliseconds since 1970-01-01T00:00:00Z.
    pub fn moment(&self) -> u64
        ensures value { result ≡ self.now.end.moment }
        ensures dated { result ≤ MAX_MOMENT }
    {
        self.tables.moment()
    }

    /// The size of the journal in bytes.
    pub fn size(&self) -> u64
        ensures { result ≡ self.now.end.size }
    {
        self.tables.size()
    }

    /// The submission of this number.
    pub fn submission(&self, number: u64) -> Option<&Submission>
        ensures { option_copied result ≡ option_map (λ s. s.submission) (sent_at number self.now.end.sent) }
    {
        self.tables.get(number)
    }

    /// Counts of the submissions by state, and of the received messages.
    pub fn totals(&self) -> Totals
        ensures { AreTotals self.now.end result }
    {
        self.tables.totals()
    }
}

/// The row, if the journal has room for its record; else the reply `Full`.
#[tactic(auto, unfolding(exchange_model::specs::Table::has_room))]
fn limited(alloc: Global, tables: &EndTables, row: Outcome) -> Outcome
    requires { CanStand tables.now.end row.effects }
    ensures limited { IsLimited tables.now.end row result }
    ensures stands { CanStand tables.now.end result.effects }
    ensures room { has_room tables.now.end result.effects ≡ true }
    ensures short { length (effects_body result.effects) ≤ 2 ^ 30 }
{
    match lacking(tables, &row.effects) {
        None => row,
        Some(need) => {
            drop(row);
            let size = tables.size();
            rests(alloc, Reply::Full { size, need })
        }
    }
}

/// The size of the effects' record, if the journal has no room for it.
#[tactic(auto, unfolding(exchange_model::specs::Table::has_room), using(crate::proofs::ShortLemmas::short_body))]
fn lacking(tables: &EndTables, effects: &Seq<Effect>) -> Option<u64>
    requires stands { CanStand tables.now.end effects.now }
    ensures none { result ≡ None → has_room tables.now.end effects.now ≡ true }
    ensures short { length (effects_body effects.now) ≤ 2 ^ 30 }
    ensures some { IfSome result (λ need. (need ≡ record_len effects.now) × (has_room tables.now.end effects.now ≡ false)) }
{
    let need = record_len(effects);
    if effects.items().is_empty() {
        return None;
    }
    if tables.size() + need <= MAX_JOURNAL {
        return None;
    }
    Some(need)
}

/// The size of the effects' record.
#[tactic(auto, unfolding(exchange_model::specs::Apply::record_len))]
pub(crate) fn record_len(effects: &Seq<Effect>) -> u64
    requires { length effects.now ≤ effects_limit }
    ensures value { result ≡ record_len effects.now }
    ensures few { result ≤ 549755894795 }
    ensures most { length (effects_body effects.now) ≤ 2 + sum_by most_bytes_of effects.now }
{
    body_len(effects) + 9
}

//! A step that an office is about to make: its record is written, and then the endpoint changes.
ghost use Rattle.std.specs.Prelude.{◌≡◌, ◌+◌, ◌≤◌, ◌^◌, List, None, is_ok, is_some, length, true};
ghost use Rattle.as4_effects.specs.declared.effect.Effect.{Effect};
ghost use Rattle.exchange_model.specs.Apply.{applied, first_unfit};
ghost use Rattle.exchange_model.specs.End.{End};
ghost use Rattle.exchange_model.specs.Table.{has_room};
ghost use Rattle.exchange_model.specs.declared.outcome.Outcome.{Outcome};
ghost use Rattle.inbox.specs.Spots.{Spot};
ghost use Rattle.msh_core.specs.Machine.{Machine};
ghost use Rattle.msh_core.specs.Small.{CanGo, StandsFor};
ghost use Rattle.msh_journal.specs.Frames.{IsFrameOf};
ghost use Rattle.msh_journal.specs.Payloads.{IsJournalWith};
ghost use Rattle.msh_recovery.specs.Records.{IsBodyOf};
ghost use Rattle.msh_state.specs.Places.{places_after_all};
ghost use Rattle.office.specs.Recording.{Appends, AppendsAt, HasOutcome, Records, TellsCounts};

use as4_disk::{Disk, FaultCounts};
use event_code::{confirm_body, tick_body};
use exchange_model::Reply;
use journal::{Frame, Journal, JournalFault};
use msh_core::{Core, Plan, SmallPlan};
use msh_journal::append_effects;
use msh_recovery::a_record_is_put;

/// A step that an office is about to make.
#[derive(Drop)]
pub(crate) enum StepToMake {
    /// A plan, with its record if it has effects.
    Planned(Plan, Option<Frame>),
    /// A plan for a tick or a confirmation. The office has a frame for its record.
    WithoutMemory(SmallPlan),
}

impl StepToMake {
    /// Appends the record to the journal, if there is one, and returns its gate.
    pub(crate) fn write<D: Disk>(
        &self,
        journal: &mut Journal<D>,
        small: &mut Frame,
    ) -> Result<u64, FaultCounts>
        requires ready { (machine : Machine) × (outcome : Outcome) × HasOutcome machine outcome self.now
            × IsJournalWith D.Disk machine.end machine.places journal.old }
        requires small { length small.old ≡ 11 }
        ensures small { length small.new ≡ 11 }
        ensures records { (machine : Machine) (outcome : Outcome) → HasOutcome machine outcome self.now
            → IsJournalWith D.Disk machine.end machine.places journal.old
            → Records D.Disk journal.old journal.new machine.end machine.places outcome result }
        ensures cause { TellsCounts (D.fault_count journal.old.disk) (D.fault_count journal.new.disk) result }
        ensures tells { is_some (D.seen journal.new.disk) ≡ is_some (D.seen journal.old.disk) }
    {
        match self {
            StepToMake::Planned(_, frame) => write_planned(journal, frame),
            StepToMake::WithoutMemory(plan) => write_small(journal, small, plan),
        }
    }

    /// Makes the step. Its record has this gate.
    pub(crate) fn commit(self, core: &mut Core, gate: u64) -> Reply
        requires ready { (outcome : Outcome) × HasOutcome core.old outcome self }
        ensures made { (outcome : Outcome) → HasOutcome core.old outcome self
            → (core.new.end ≡ applied outcome.effects core.old.end) × (result ≡ outcome.reply) }
        ensures places { (outcome : Outcome) → HasOutcome core.old outcome self
            → core.new.places ≡ places_after_all outcome.effects gate core.old.places }
        ensures modes { core.new.modes ≡ core.old.modes }
    {
        match self {
            StepToMake::Planned(plan, frame) => {
                drop(frame);
                core.commit(plan, gate)
            }
            StepToMake::WithoutMemory(plan) => core.commit_small(plan),
        }
    }
}

/// Appends the record of a plan, if there is one.
fn write_planned<D: Disk>(
    journal: &mut Journal<D>,
    frame: &Option<Frame>,
) -> Result<u64, FaultCounts>
    requires ready { (end : End) × (places : List Spot) × (effects : List Effect) × IsJournalWith D.Disk end places journal.old
        × IsFrameOf effects frame.now × (has_room end effects ≡ true) }
    ensures records { (end : End) (places : List Spot) (outcome : Outcome) → IsJournalWith D.Disk end places journal.old
        → IsFrameOf outcome.effects frame.now → first_unfit outcome.effects end ≡ None
        → Records D.Disk journal.old journal.new end places outcome result }
    ensures cause { TellsCounts (D.fault_count journal.old.disk) (D.fault_count journal.new.disk) result }
    ensures tells { is_some (D.seen journal.new.disk) ≡ is_some (D.seen journal.old.disk) }
{
    match frame {
        None => Ok(0),
        Some(frame) => write_frame(journal, frame),
    }
}

/// Appends the record of a plan that takes no memory, if it has one.
fn write_small<D: Disk>(
    journal: &mut Journal<D>,
    frame: &mut Frame,
    plan: &SmallPlan,
) -> Result<u64, FaultCounts>
    requires ready { (end : End) × (places : List Spot) × IsJournalWith D.Disk end places journal.old × CanGo end plan.now }
    requires frame { length frame.old ≡ 11 }
    ensures frame { length frame.new ≡ 11 }
    ensures records { (end : End) (places : List Spot) (outcome : Outcome) → IsJournalWith D.Disk end places journal.old
        → CanGo end plan.now → StandsFor end plan.now outcome
        → Records D.Disk journal.old journal.new end places outcome result }
    ensures cause { TellsCounts (D.fault_count journal.old.disk) (D.fault_count journal.new.disk) result }
    ensures tells { is_some (D.seen journal.new.disk) ≡ is_some (D.seen journal.old.disk) }
{
    match plan {
        SmallPlan::Rest(_) => Ok(0),
        SmallPlan::Tick { moment } => {
            frame.fill(&tick_body(*moment));
            write_frame(journal, frame)
        }
        SmallPlan::Confirm { upto } => {
            frame.fill(&confirm_body(*upto));
            write_frame(journal, frame)
        }
    }
}

/// Appends the record.
fn write_frame<D: Disk>(journal: &mut Journal<D>, frame: &Frame) -> Result<u64, FaultCounts>
    requires ready { (end : End) × (places : List Spot) × IsJournalWith D.Disk end places journal.old
        × (end.size + (length frame.now + 9) ≤ 2 ^ 32) }
    ensures appends { (end : End) (places : List Spot) (effects : List Effect) → IsJournalWith D.Disk end places journal.old
        → IsBodyOf effects frame.now → first_unfit effects end ≡ None
        → AppendsAt D.Disk journal.old journal.new end places effects result }
    ensures cause { TellsCounts (D.fault_count journal.old.disk) (D.fault_count journal.new.disk) result }
    ensures tells { is_some (D.seen journal.new.disk) ≡ is_some (D.seen journal.old.disk) }
{
    a_record_is_put::<D>();
    match append_effects(journal, frame) {
        Ok(gate) => Ok(gate),
        Err(JournalFault::Disk { before, after }) => Err(FaultCounts { before, after }),
        Err(_) => unreachable!(),
    }
}

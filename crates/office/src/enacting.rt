//! How a step is made: its record is written, the endpoint changes, and the call is entered.
ghost use Rattle.std.specs.Prelude.{◌≡◌, ◌≢◌, ◌≤◌, Err, IfOk, IsErrOf, None, true, false};
ghost use Rattle.exchange_model.specs.Table.{Step};
ghost use Rattle.exchange_model.specs.declared.event.Event.{Event as EventValue};
ghost use Rattle.exchange_model.specs.declared.outcome.Outcome.{Outcome};
ghost use Rattle.msh_transitions.specs.Free.{IsFree};
ghost use Rattle.office.specs.Preparing.{FailsReading, Prepares};
ghost use Rattle.office.specs.Recording.{HasReply, IsStepFor};
ghost use Rattle.office.specs.State.{OfficeState, TakesEvents};
ghost use Rattle.office.specs.Steps.{Handles, IsConfirmationOf, IsTickTo};

use crate::call::Call;
use crate::entering::{enter_done, enter_refused, enter_stop};
use crate::fault::OfficeFault;
use crate::office::Office;
use crate::ready::Ready;
use crate::step_to_make::StepToMake;
use as4_disk::{Disk, FaultCounts};
use as4_values::MAX_MOMENT;
use exchange_model::{Event, Reply, What};
use pass_book::{MAX_ENTRIES, Pass};

impl<'a, D: Disk> Office<'a, D> {
    /// Makes the step that was prepared on the present state, and answers the reply that `Ready::reply` showed. At `Ok` its
    /// record is on the disk. If the disk failed when the step was prepared, the `Stop` is entered now. It takes no memory.
    pub fn enact(&mut self, pass: &mut Pass<'_, Call>, ready: Ready) -> Result<Reply, OfficeFault>
        requires book { pass.old.book ≡ self.old.book }
        requires ready { (first : OfficeState D) × Prepares D.Disk first self.old ready }
        ensures handles { (first : OfficeState D) → Prepares D.Disk first self.old ready
            → Handles D.Disk first self.new pass.old pass.new ready.event result }
        ensures reply { IfOk result (λ reply. reply ≡ ready.plan.outcome.reply) }
        ensures memory { IsErrOf result OfficeFault.NoMemory → ⊥ }
    {
        let (event, plan, frame, failed) = ready.into_parts();
        match failed {
            None => self.make(pass, event, StepToMake::Planned(plan, frame)),
            Some(halt) => {
                drop(plan);
                drop(frame);
                Err(self.stop(pass, event, halt))
            }
        }
    }

    /// Drops a step that was prepared on the present state, as if there were no memory for it. If the disk failed when it
    /// was prepared, the `Stop` is entered.
    pub fn abandon(&mut self, pass: &mut Pass<'_, Call>, ready: Ready) -> OfficeFault
        requires book { pass.old.book ≡ self.old.book }
        requires ready { (first : OfficeState D) × Prepares D.Disk first self.old ready }
        ensures handles { (first : OfficeState D) → Prepares D.Disk first self.old ready
            → Handles D.Disk first self.new pass.old pass.new ready.event (Err result) }
        ensures starved { ready.failed ≡ None → result ≡ OfficeFault.NoMemory }
    {
        let _ = &self.alloc;
        let (event, plan, frame, failed) = ready.into_parts();
        drop(plan);
        drop(frame);
        match failed {
            None => {
                drop(event);
                OfficeFault::NoMemory
            }
            Some(halt) => self.stop(pass, event, halt),
        }
    }

    /// Prepares the event's step and makes it. `NoMemory` is reported only while events are made, and not if nothing is to
    /// change and the reply has no text and no message in it, except for `Quiet` and `Full`.
    pub fn step(&mut self, pass: &mut Pass<'_, Call>, event: Event) -> Result<Reply, OfficeFault>
        requires book { pass.old.book ≡ self.old.book }
        ensures handles { Handles D.Disk self.old self.new pass.old pass.new event result }
        ensures free { (outcome : Outcome) → Step self.old.modes self.old.end event outcome → IsFree outcome
            → IsErrOf result OfficeFault.NoMemory → ⊥ }
        ensures takes { IsErrOf result OfficeFault.NoMemory → TakesEvents self.old }
    {
        if !self.takes_events() {
            return Err(self.refuse(pass, event));
        }
        match self.prepare(event) {
            Ok(ready) => self.enact(pass, ready),
            Err(_) => Err(OfficeFault::NoMemory),
        }
    }

    /// Sets the clock to this moment, in milliseconds since 1970-01-01T00:00:00Z, as an event with nonce 0. It takes no
    /// memory.
    #[tactic(auto, unfolding(exchange_model::specs::Coming::may_come))]
    pub fn tick(&mut self, pass: &mut Pass<'_, Call>, stamp: u64) -> Result<Reply, OfficeFault>
        requires book { pass.old.book ≡ self.old.book }
        requires dated { stamp ≤ MAX_MOMENT }
        ensures handles { (event : EventValue) × IsTickTo stamp event × Handles D.Disk self.old self.new pass.old pass.new event result }
        ensures memory { IsErrOf result OfficeFault.NoMemory → ⊥ }
    {
        let plan = self.core.plan_tick(stamp);
        let event = Event {
            stamp,
            nonce: 0,
            what: What::Tick,
        };
        self.make(pass, event, StepToMake::WithoutMemory(plan))
    }

    /// Confirms the messages up to and including this one, as an event with nonce 0 and stamp 0. It takes no memory.
    #[tactic(auto, unfolding(exchange_model::specs::Coming::may_come))]
    pub fn confirm(&mut self, pass: &mut Pass<'_, Call>, upto: u64) -> Result<Reply, OfficeFault>
        requires book { pass.old.book ≡ self.old.book }
        ensures handles { (event : EventValue) × IsConfirmationOf upto event × Handles D.Disk self.old self.new pass.old pass.new event result }
        ensures memory { IsErrOf result OfficeFault.NoMemory → ⊥ }
    {
        let plan = self.core.plan_confirm(upto);
        let event = Event {
            stamp: 0,
            nonce: 0,
            what: What::Confirm { upto },
        };
        self.make(pass, event, StepToMake::WithoutMemory(plan))
    }

    /// Writes the record, commits the step and enters the call; on a disk fault enters a `Stop`.
    fn make(
        &mut self,
        pass: &mut Pass<'_, Call>,
        event: Event,
        step: StepToMake,
    ) -> Result<Reply, OfficeFault>
        requires book { pass.old.book ≡ self.old.book }
        requires ready { TakesEvents self.old → IsStepFor D.Disk self.old event step }
        ensures handles { Handles D.Disk self.old self.new pass.old pass.new event result }
        ensures reply { IfOk result (HasReply step) }
        ensures memory { IsErrOf result OfficeFault.NoMemory → ⊥ }
    {
        if !self.takes_events() {
            drop(step);
            return Err(self.refuse(pass, event));
        }
        match step.write(&mut self.journal, &mut self.small) {
            Ok(gate) => {
                let reply = step.commit(&mut self.core, gate);
                Ok(enter_done(&mut self.keeper, pass, event, reply))
            }
            Err(halt) => {
                drop(step);
                self.halt = Some(halt);
                Err(enter_stop(&mut self.keeper, pass, Some(event), halt))
            }
        }
    }

    /// Enters a `Stop`: the disk failed when the payloads of a message were read.
    fn stop(&mut self, pass: &mut Pass<'_, Call>, event: Event, fault: FaultCounts) -> OfficeFault
        requires book { pass.old.book ≡ self.old.book }
        requires failed { (first : OfficeState D) × FailsReading D.Disk first self.old event fault }
        ensures handles { (first : OfficeState D) → FailsReading D.Disk first self.old event fault
            → Handles D.Disk first self.new pass.old pass.new event (Err result) }
        ensures memory { result ≢ OfficeFault.NoMemory }
    {
        self.halt = Some(fault);
        enter_stop(&mut self.keeper, pass, Some(event), fault)
    }

    /// Whether events are made: there is room for an entry, and the disk hasn't failed.
    pub(crate) fn takes_events(&self) -> bool
        ensures takes { result ≡ true → TakesEvents self.now }
        ensures refuses { result ≡ false → TakesEvents self.now → ⊥ }
    {
        self.keeper.len() < MAX_ENTRIES && self.halt.is_none()
    }

    /// Answers an event that isn't made.
    fn refuse(&mut self, pass: &mut Pass<'_, Call>, event: Event) -> OfficeFault
        requires book { pass.old.book ≡ self.old.book }
        requires refuses { TakesEvents self.old → ⊥ }
        ensures handles { Handles D.Disk self.old self.new pass.old pass.new event (Err result) }
        ensures memory { result ≢ OfficeFault.NoMemory }
    {
        let is_full = self.keeper.len() == MAX_ENTRIES;
        match self.halt {
            Some(halt) if !is_full => enter_refused(&mut self.keeper, pass, event, halt),
            _ => {
                drop(event);
                self.keeper.show(pass);
                OfficeFault::Worn
            }
        }
    }
}

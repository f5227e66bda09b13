//! How a step is prepared: it is planned, and all its memory is taken.
ghost use Rattle.std.specs.Prelude.{◌≡◌, ◌≤◌, ◌^◌, ℕ, [], IfErr, IfOk, IfSome, IsOk, Err, None, length};
ghost use Rattle.as4_effects.specs.Effects.{effects_body, effects_limit};
ghost use Rattle.exchange_model.specs.Table.{Rests, Step, read_reply};
ghost use Rattle.exchange_model.specs.declared.event.Event.{Event as EventValue};
ghost use Rattle.exchange_model.specs.declared.outcome.Outcome.{Outcome};
ghost use Rattle.msh_recovery.specs.Opens.{KeepsEnd};
ghost use Rattle.msh_transitions.specs.Free.{IsBare, IsFree};
ghost use Rattle.msh_core.specs.Machine.{IsReady};
ghost use Rattle.msh_transitions.specs.Given.{bare_read};
ghost use Rattle.office.specs.Preparing.{Completes, IsStarved, Prepares, ReadsPayloads};
ghost use Rattle.office.specs.Calls.{stop_of};
ghost use Rattle.office.specs.State.{TakesEvents, machine_of};
ghost use Rattle.office.specs.Steps.{Handles};
ghost use Rattle.office.specs.declared.call.Call.{Call};
ghost use Rattle.pass_book.specs.States.{PassState};

use crate::fault::OfficeFault;
use crate::office::Office;
use crate::ready::Ready;
use as4_disk::{Disk, FaultCounts};
use as4_values::{NoMemory, Payload, Seq};
use exchange_model::{Event, Reply, What};
use journal::JournalFault;
use msh_core::{Held, Plan};
use msh_journal::{fetch_payloads, frame_of};
use outcome_laws::an_event_has_one_outcome;
use std::alloc::Global;

impl<'a, D: Disk> Office<'a, D> {
    /// Plans an event's step, and takes all memory for it and for its record. For a `Read` it reads the payloads from the
    /// disk. Only room is made: the endpoint doesn't change. It takes no memory if nothing is to change and the reply has
    /// no text and no message in it, except for `Quiet` and `Full`.
    pub fn prepare(&mut self, event: Event) -> Result<Ready, NoMemory>
        ensures event { IfOk result (λ ready. ready.event ≡ event) }
        ensures ready { IfOk result (λ ready. Prepares D.Disk self.old self.new ready) }
        ensures starved { IfErr result (λ _. (pass : PassState Call)
            → Handles D.Disk self.old self.new pass pass event (Err OfficeFault.NoMemory)) }
        ensures free { (outcome : Outcome) → Step self.old.modes self.old.end event outcome → IsFree outcome
            → IsOk result }
    {
        match self.core.prepare(&event) {
            Ok(plan) => match number_read(&event) {
                Some(number) => self.prepare_read(event, plan, number),
                None => {
                    // Laws: an event has one outcome, so an `Err` excludes the memory-free one.
                    an_event_has_one_outcome();
                    ready_of(self.alloc, event, plan)
                }
            },
            Err(error) => {
                drop(event);
                Err(error)
            }
        }
    }

    /// Completes the plan of a `Read` with the payloads.
    fn prepare_read(&mut self, event: Event, plan: Plan, number: u64) -> Result<Ready, NoMemory>
        requires asked { event.what ≡ What.Read number }
        requires rests { Rests (bare_read self.old.end number) plan.outcome }
        requires planned { IsReady (machine_of self.old) plan }
        ensures event { IfOk result (λ ready. ready.event ≡ event) }
        ensures ready { IfOk result (λ ready. Prepares D.Disk self.old self.new ready) }
        ensures starved { IfErr result (λ _. (pass : PassState Call)
            → Handles D.Disk self.old self.new pass pass event (Err OfficeFault.NoMemory)) }
        ensures free { IsBare (read_reply self.old.end number) → IsOk result }
    {
        match self.read_payloads(plan, number) {
            Ok((plan, failed)) => Ok(Ready::reading(event, plan, failed)),
            Err(error) => {
                drop(event);
                Err(error)
            }
        }
    }

    /// Puts the payloads of this message into the reply. An office that makes no events reads nothing.
    fn read_payloads(
        &mut self,
        plan: Plan,
        number: u64,
    ) -> Result<(Plan, Option<FaultCounts>), NoMemory>
        requires rests { Rests (bare_read self.old.end number) plan.outcome }
        requires planned { IsReady (machine_of self.old) plan }
        ensures read { IfOk result (λ read. ReadsPayloads D.Disk self.old self.new number read.0 read.1) }
        ensures starved { IfErr result (λ _. (event : EventValue) (pass : PassState Call) → event.what ≡ What.Read number
            → Handles D.Disk self.old self.new pass pass event (Err OfficeFault.NoMemory)) }
        ensures free { IsBare (read_reply self.old.end number) → IsOk result }
    {
        if !self.takes_events() {
            return Ok((self.unread(plan), None));
        }
        self.read_open(plan, number)
    }

    /// The plan of a `Read` of an office that makes no events. If it stands still, the reply says so.
    fn unread(&self, plan: Plan) -> Plan
        requires planned { IsReady (machine_of self.now) plan }
        ensures planned { IsReady (machine_of self.now) result }
        ensures rests { result.outcome.effects ≡ plan.outcome.effects }
        ensures refused { IfSome (stop_of self.now.list) (λ halt. result.outcome.reply ≡ Reply.Stopped halt.before halt.after) }
        ensures safe { stop_of self.now.list ≡ None → KeepsEnd D.Disk self.now.disk self.now.end }
    {
        match self.halt {
            Some(halt) => plan.replying(stopped(halt)),
            None => plan,
        }
    }

    /// Puts the payloads of this message into the reply, if it is open. If the disk fails, the reply says so.
    fn read_open(
        &mut self,
        plan: Plan,
        number: u64,
    ) -> Result<(Plan, Option<FaultCounts>), NoMemory>
        requires going { TakesEvents self.old }
        requires rests { Rests (bare_read self.old.end number) plan.outcome }
        requires planned { IsReady (machine_of self.old) plan }
        ensures read { IfOk result (λ read. ReadsPayloads D.Disk self.old self.new number read.0 read.1) }
        ensures starved { IfErr result (λ _. (event : EventValue) (pass : PassState Call) → event.what ≡ What.Read number
            → Handles D.Disk self.old self.new pass pass event (Err OfficeFault.NoMemory)) }
        ensures free { IsBare (read_reply self.old.end number) → IsOk result }
    {
        match self.core.held(number) {
            Held::Entry { header, gate, .. } => {
                let fetched = fetch_payloads(self.alloc, &mut self.journal, header, gate);
                completed(plan, fetched)
            }
            Held::Gone => Ok((plan, None)),
            Held::NoEntry => Ok((plan, None)),
        }
    }
}

/// The plan of a `Read` after its payloads were fetched.
fn completed(
    plan: Plan,
    fetched: Result<Option<Seq<Payload>>, JournalFault>,
) -> Result<(Plan, Option<FaultCounts>), NoMemory>
    ensures made { IfOk result (λ made. Completes plan fetched made.0 made.1) }
    ensures starved { IfErr result (λ _. IsStarved fetched) }
{
    match fetched {
        Ok(Some(payloads)) => Ok((plan.filled(payloads), None)),
        Ok(None) => Ok((plan.replying(Reply::Gone), None)),
        Err(JournalFault::Disk { before, after }) => {
            let halt = FaultCounts { before, after };
            Ok((plan.replying(stopped(halt)), Some(halt)))
        }
        Err(_) => {
            drop(plan);
            Err(NoMemory)
        }
    }
}

/// The number of the message that the event reads.
fn number_read(event: &Event) -> Option<u64>
    ensures asked { IfSome result (λ number. event.now.what ≡ What.Read number) }
    ensures other { result ≡ None → (number : ℕ) → event.now.what ≡ What.Read number → ⊥ }
{
    match event.what {
        What::Read { n } => Some(n),
        _ => None,
    }
}

/// The event with its plan, and with the plan's record.
fn ready_of(alloc: Global, event: Event, plan: Plan) -> Result<Ready, NoMemory>
    requires counted { length plan.outcome.effects ≤ effects_limit }
    requires short { length (effects_body plan.outcome.effects) ≤ 2 ^ 30 }
    ensures ready { IfOk result (λ ready. ready ≡ record { event = event; plan = plan; failed = None }) }
    ensures free { plan.outcome.effects ≡ [] → IsOk result }
{
    match frame_of(alloc, plan.effects()) {
        Ok(frame) => Ok(Ready {
            event,
            plan,
            frame,
            failed: None,
        }),
        Err(error) => {
            drop(event);
            drop(plan);
            Err(error)
        }
    }
}

/// The reply of an office that stands still.
fn stopped(halt: FaultCounts) -> Reply
    ensures { result ≡ Reply.Stopped halt.before halt.after }
{
    let FaultCounts { before, after } = halt;
    Reply::Stopped { before, after }
}

//! What the contracts of an office's calls say of a power failure inside them, in the words of the laws over openings.
ghost use Rattle.std.specs.Prelude.{◌≡◌, ◌++◌, ◌∷◌, [], ℕ, Result, Some, None};
ghost use Rattle.as4_disk.specs.Leaving.{LeavesOnly};
ghost use Rattle.as4_disk.specs.declared.fault_counts.FaultCounts.{FaultCounts};
ghost use Rattle.as4_flow.specs.Flow.{Told};
ghost use Rattle.exchange_model.specs.declared.event.Event.{Event};
ghost use Rattle.exchange_model.specs.declared.reply.Reply.{Reply};
ghost use Rattle.office.specs.Calls.{stop_of};
ghost use Rattle.office.specs.Folds.{Checkpoints};
ghost use Rattle.office.specs.Left.{IsLeft};
ghost use Rattle.office.specs.State.{OfficeState};
ghost use Rattle.office.specs.Steps.{Handles};
ghost use Rattle.office.specs.declared.call.Call.{Call};
ghost use Rattle.office.specs.declared.call.Call.TheVariants.{Stop};
ghost use Rattle.office.specs.declared.fault.OfficeFault.{OfficeFault};
ghost use Rattle.pass_book.specs.States.{PassState};

use as4_disk::Disk;

/// At each moment of a call a power failure leaves what an entered `Stop` of this call would have left, whatever the call
/// answers: of the calls that handle an event, and of a checkpoint.
pub fn a_call_leaves_what_its_stop_would<D: Disk>()
    ensures handles { (old new : OfficeState D) (pass_old pass_new : PassState Call) (event : Event) (result : Result Reply OfficeFault)
        (halt : FaultCounts) → Handles D.Disk old new pass_old pass_new event result → stop_of old.list ≡ None
        → Told (D.seen old.disk) (λ _. LeavesOnly D.Disk old.disk new.disk
        (IsLeft old.modes old.end (old.list ++ Stop (Some event) halt ∷ []))) }
    ensures compacts { (old new : OfficeState D) (pass_old pass_new : PassState Call) (result : Result ℕ OfficeFault)
        (halt : FaultCounts) → Checkpoints D.Disk old new pass_old pass_new result → stop_of old.list ≡ None
        → Told (D.seen old.disk) (λ _. LeavesOnly D.Disk old.disk new.disk
        (IsLeft old.modes old.end (old.list ++ Stop None halt ∷ []))) }
{}

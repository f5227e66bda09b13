//! What is found of a call's own step when the office is opened again, in the words of the contracts of its calls.
ghost use Rattle.std.specs.Prelude.{◌≡◌, ℕ, List, None, Result, Ok, Err};
ghost use Rattle.as4_disk.specs.Image.{Image};
ghost use Rattle.as4_disk.specs.Memory.{DiskState};
ghost use Rattle.as4_disk.specs.MemoryMeaning.{memory_meaning};
ghost use Rattle.mode_values.specs.declared.mode.Mode.{Mode};
ghost use Rattle.exchange_model.specs.End.{End};
ghost use Rattle.exchange_model.specs.declared.event.Event.{Event};
ghost use Rattle.exchange_model.specs.declared.reply.Reply.{Reply};
ghost use Rattle.exchange_model.specs.declared.what.What.TheVariants.{Read};
ghost use Rattle.office.specs.Calls.{stop_of};
ghost use Rattle.office.specs.Left.{IsLeft};
ghost use Rattle.office.specs.State.{OfficeState};
ghost use Rattle.office.specs.Steps.{Handles};
ghost use Rattle.office.specs.declared.call.Call.{Call};
ghost use Rattle.office.specs.declared.fault.OfficeFault.{OfficeFault};
ghost use Rattle.office.specs.declared.fault.OfficeFault.TheVariants.{Disk as DiskFault};
ghost use Rattle.pass_book.specs.States.{PassState};
ghost use Rattle.history_laws.specs.Gates.{IsFound, Stands, StepsByGate, WaitsForGate};

use as4_disk::Disk;
use msh_recovery::an_image_opens_to_one_end;
use outcome_laws::an_event_has_one_outcome;

/// A call's own step stands by its gate (its record's commit byte). After a reply a restart finds the end after the step;
/// after a refusal, unless the disk failed, the end before. The step's record is all that the call writes, and until its gate
/// is written, a restart finds the end before. So after calls without a fault a restart finds the end that they led to.
pub fn a_step_stands_by_its_gate<D: Disk>()
    ensures stands { (old new : OfficeState D) (pass_old pass_new : PassState Call) (event : Event) (result : Result Reply OfficeFault)
        → Handles D.Disk old new pass_old pass_new event result → Stands D.Disk old new event result }
    ensures calls { (modes : List Mode) (calls : List Call) (end : End) (image : Image) → stop_of calls ≡ None
        → IsLeft modes end calls image → IsFound image end }
{
    an_image_opens_to_one_end();
}

/// Over a disk in memory, at each moment of a call that writes a record. Until the call has made two of its four changes, which
/// write and sync all of the record but its gate, a restart finds the end before. Then it finds one of both ends, and once all
/// four are made, the end after. The first part also holds where the disk fails inside the call.
pub fn a_step_in_memory_waits_for_its_gate()
    ensures replied { (old new : OfficeState DiskState) (pass_old pass_new : PassState Call) (event : Event) (r : Reply)
        → Handles memory_meaning old new pass_old pass_new event (Ok r) → StepsByGate old new event r }
    ensures failed { (old new : OfficeState DiskState) (pass_old pass_new : PassState Call) (event : Event) (before after : ℕ)
        → Handles memory_meaning old new pass_old pass_new event (Err (DiskFault before after))
        → ¬ ((n : ℕ) × (event.what ≡ Read n)) → WaitsForGate old.disk new.disk old.end }
{
    an_image_opens_to_one_end();
    an_event_has_one_outcome();
}

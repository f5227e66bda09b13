//! How the records of a journal are read, and their effects replayed.
ghost use Rattle.std.specs.Prelude.{◌≡◌, ℕ, ◌+◌, ◌≤◌, ◌^◌, List, [], IfErr, IfOk, OnOk, length, true, false};
ghost use Rattle.as4_disk.specs.Leaving.{LeavesOnly, Quiet};
ghost use Rattle.as4_flow.specs.Flow.{Told};
ghost use Rattle.msh_journal.specs.Reading.{EndsReading, HasReplayedAll, ReadsOn, RecordBrings};
ghost use Rattle.msh_recovery.specs.Records.{RecordLeads, RecordsLead};
ghost use Rattle.msh_recovery.specs.Unfit.{IsNoJournal};
ghost use Rattle.exchange_model.specs.End.{End, empty_end};
ghost use Rattle.journal.specs.Leaf.{front_of};
ghost use Rattle.journal.specs.Faults.{CountsFault, IsOpeningFault};
ghost use Rattle.journal.specs.State.{HasRead};
ghost use Rattle.journal.specs.Store.{Reopens, picked_leaf};

use as4_disk::Disk;
use as4_values::NoMemory;
use event_code::{BodyRefusal, one_body, read_body};
use journal::{Journal, JournalFault};
use msh_core::{Core, ReplayRefusal};
use std::alloc::Global;

/// Reads all records of a journal of which none was read, and replays their effects on a new core.
pub(crate) fn read_all<D: Disk>(
    alloc: Global,
    journal: &mut Journal<D>,
    core: &mut Core,
) -> Result<(), JournalFault>
    requires new { (core.old.end ≡ empty_end) × (core.old.places ≡ []) × (journal.old.gate ≡ 8) }
    ensures read { OnOk result ((bodies : List (List ℕ))
        × HasReplayedAll D.Disk journal.old journal.new core.new.end core.new.places bodies) }
    ensures modes { core.new.modes ≡ core.old.modes }
    ensures any_moment { HasRead D.Disk journal.old [] → Told (D.seen journal.old.disk) (λ b.
        LeavesOnly D.Disk journal.old.disk journal.new.disk (Reopens b)) }
    ensures not_journal { IfErr result (λ e. (at : ℕ) → e ≡ JournalFault.NotJournal at
        → HasRead D.Disk journal.old [] → Told (D.seen journal.old.disk) (λ b.
        IsNoJournal at (picked_leaf b))) }
    ensures untouched { IfErr result (λ e. (at : ℕ) → e ≡ JournalFault.NotJournal at
        → Quiet D.Disk journal.old.disk journal.new.disk) }
    ensures faults { IfErr result IsOpeningFault }
    ensures counts { CountsFault D.Disk journal.old.disk journal.new.disk result }
{
    'records: while replay_next(alloc, journal, core)? {}
    Ok(())
}

/// Reads the next record and replays its effects. False at the closed gate.
fn replay_next<D: Disk>(
    alloc: Global,
    journal: &mut Journal<D>,
    core: &mut Core,
) -> Result<bool, JournalFault>
    requires led { (bodies : List (List ℕ)) × RecordsLead bodies empty_end core.old.end
        × (journal.old.gate ≡ length (front_of journal.old.version bodies)) }
    ensures more { IfOk result (λ more. more ≡ true
        → ReadsOn D.Disk journal.old journal.new core.old.end core.old.places core.new.end core.new.places) }
    ensures quiet { IfOk result (λ more. more ≡ true
        → Quiet D.Disk journal.old.disk journal.new.disk) }
    ensures done { IfOk result (λ more. more ≡ false
        → EndsReading D.Disk journal.old journal.new × (core.new.end ≡ core.old.end)
        × (core.new.places ≡ core.old.places)) }
    ensures modes { core.new.modes ≡ core.old.modes }
    ensures any_moment { (bodies : List (List ℕ)) → HasRead D.Disk journal.old bodies
        → Told (D.seen journal.old.disk) (λ b.
        LeavesOnly D.Disk journal.old.disk journal.new.disk (Reopens b)) }
    ensures not_journal { IfErr result (λ e. (at : ℕ) → e ≡ JournalFault.NotJournal at
        → (bodies : List (List ℕ)) → HasRead D.Disk journal.old bodies
        → RecordsLead bodies empty_end core.old.end → Told (D.seen journal.old.disk) (λ b.
        IsNoJournal at (picked_leaf b))) }
    ensures untouched { IfErr result (λ e. (at : ℕ) → e ≡ JournalFault.NotJournal at
        → Quiet D.Disk journal.old.disk journal.new.disk) }
    ensures faults { IfErr result IsOpeningFault }
    ensures counts { CountsFault D.Disk journal.old.disk journal.new.disk result }
{
    let Some((gate, body)) = journal.next_record(alloc)? else {
        return Ok(false);
    };
    let led = replay(alloc, core, body.bytes(), gate);
    drop(body);
    match led {
        Ok(true) => Ok(true),
        Ok(false) => Err(JournalFault::NotJournal { at: gate }),
        Err(_) => Err(JournalFault::NoMemory),
    }
}

/// Replays the effects of the record at this gate. False where its body isn't that of effects, or they don't fit.
fn replay(alloc: Global, core: &mut Core, body: &[u8], gate: u64) -> Result<bool, NoMemory>
    requires room { core.old.end.size + (length body.now + 9) ≤ 2 ^ 32 }
    ensures led { IfOk result (λ led. led ≡ true
        → RecordBrings body.now gate core.old.end core.old.places core.new.end core.new.places) }
    ensures unfit { IfOk result (λ led. led ≡ false → (next : End) → RecordLeads body.now core.old.end next → ⊥) }
    ensures modes { core.new.modes ≡ core.old.modes }
{
    one_body();
    let effects = match read_body(alloc, body) {
        Ok(effects) => effects,
        Err(BodyRefusal::NotBody) => return Ok(false),
        Err(BodyRefusal::NoMemory) => return Err(NoMemory),
    };
    match core.replay(effects, gate) {
        Ok(()) => Ok(true),
        Err(ReplayRefusal::Unfit { .. }) => Ok(false),
        Err(ReplayRefusal::NoMemory) => Err(NoMemory),
    }
}

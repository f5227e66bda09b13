//! Laws of the records of an end: each is the contract of a function that does nothing.
ghost use Rattle.std.specs.Prelude.{◌≡◌, ◌≢◌, ◌⊎◌, ℕ, ◌<◌, Bool, false, [], Some, ◌+◌, ◌*◌, ◌^◌, ◌≤◌, List, drop, length, map};
ghost use Rattle.std.specs.List.{sum_by};
ghost use Rattle.as4_disk.specs.Image.{Image};
ghost use Rattle.as4_disk.specs.Memory.{DiskState, MakesChange, MayLeave, picked};
ghost use Rattle.as4_disk.specs.Runs.{MakesAll};
ghost use Rattle.as4_disk.specs.declared.change.Pick.{Pick};
ghost use Rattle.as4_disk.specs.declared.change.Pick.TheVariants.{New};
ghost use Rattle.as4_disk.specs.declared.part.Part.{Part};
ghost use Rattle.as4_effects.specs.declared.effect.Effect.{Effect};
ghost use Rattle.as4_flow.specs.Flow.{Told};
ghost use Rattle.msh_recovery.specs.Opens.{IsAt, IsJournalOf, IsOld, OpensAs, OpensWith, ReadsAs};
ghost use Rattle.msh_recovery.specs.Puts.{Puts};
ghost use Rattle.msh_recovery.specs.Records.{RecordLeads, RecordsLead, alone};
ghost use Rattle.msh_recovery.specs.Unfit.{IsNoJournal};
ghost use Rattle.event_code.specs.Spelled.{AreSpelled};
ghost use Rattle.exchange_model.specs.End.{End, empty_end};
ghost use Rattle.exchange_model.specs.Fold.{IsFolded, IsFoldedSize, folded_size, resized};
ghost use Rattle.fold_laws.specs.Reached.{IsReached};
ghost use Rattle.journal.specs.Calls.{record_calls};
ghost use Rattle.journal.specs.Leaf.{IsBroken, frame_of};
ghost use Rattle.journal.specs.Store.{leaf_of, picked_leaf};

use as4_disk::{Disk, a_stopped_run_is_known};
use event_code::one_body;

/// A record leads from an end to one other. So a disk opens to one end, and reads as that one.
pub fn an_image_opens_to_one_end()
    ensures leads { (body : List ℕ) (start a b : End) → RecordLeads body start a → RecordLeads body start b → a ≡ b }
    ensures one { (image : Image) (a b : End) → OpensAs image a → OpensAs image b → a ≡ b }
    ensures read { (image : Image) (a b : End) → ReadsAs image a → ReadsAs image b → a ≡ b }
    ensures whole { (image : Image) (end : End) → OpensAs image end → ReadsAs image end }
{
    one_body();
}

/// A leaf is no journal of an end at one place at most.
pub fn a_leaf_is_no_journal_at_one_place()
    ensures { (leaf : List ℕ) (a b : ℕ) → IsNoJournal a leaf → IsNoJournal b leaf → a ≡ b }
{
    one_body();
}

/// A disk that is whole is broken at no place. One that is whole, or whose records read as an end, is a journal of an end.
pub fn no_whole_disk_is_unfit()
    ensures broken { (image : Image) (end : End) (at : ℕ) → OpensAs image end → IsBroken at (picked_leaf image) → ⊥ }
    ensures whole { (image : Image) (end : End) (at : ℕ) → OpensAs image end → IsNoJournal at (picked_leaf image) → ⊥ }
    ensures read { (image : Image) (end : End) (at : ℕ) → ReadsAs image end → IsNoJournal at (picked_leaf image) → ⊥ }
{
    one_body();
}

/// A record that leads on from the end of a journal, and has room there, is put behind the others so that no crash leaves
/// anything but the end before, the one behind, or the one before with this record pending.
pub fn a_record_is_put<D: Disk>()
    ensures { (journal : _) (end next : End) (body : List ℕ) → IsJournalOf D.Disk end journal
        → RecordLeads body end next → end.size + (length body + 9) ≤ 2 ^ 32 → Told (D.seen journal.disk) (λ _.
        Puts (D.may_leave journal.disk) (leaf_of journal.is_second) journal.gate (drop 1 (frame_of body)) end next) }
{}

/// Where a disk in memory stops at one of the four calls that put a record there, its step stands where the gate was
/// written, which is the third, and the crash left all as it was written. Else the end before is left, with the record
/// pending at most.
pub fn a_stopped_record_stands_or_not()
    ensures { (old new : DiskState) (part : Part) (gate : ℕ) (body : List ℕ) (end next : End) (ok : Bool) (call : ℕ) (pick : Pick)
        → Puts (MayLeave old) part gate (drop 1 (frame_of body)) end next
        → MakesAll MakesChange (record_calls part gate body) old new ok
        → old.failing ≡ [] → old.stop ≡ Some call → 1 ≤ call → call ≤ 4
        → (ok ≡ false) × (new.ran_out ≡ false
        → (3 ≤ call → pick ≡ New → IsAt (picked pick new) next)
        × ((call < 3) ⊎ (pick ≢ New)
        → OpensWith (picked pick new) end (λ n. n ≡ next) × (IsOld (picked_leaf (picked pick new)) → ⊥))) }
{
    a_stopped_run_is_known();
}

/// What an end is folded to leads to it from the empty end, each effect in a record of its own.
pub fn a_fold_leads_to_its_end()
    ensures { (end : End) (effects : List Effect) → IsReached end → IsFolded end effects → AreSpelled effects
        → RecordsLead (map alone effects) empty_end (resized (folded_size effects) end) }
{}

/// The fold of an end isn't much longer than the records that led to it.
pub fn a_fold_of_few_bytes_is_short()
    ensures { (bodies : List (List ℕ)) (end : End) (size : ℕ) → RecordsLead bodies empty_end end → IsFoldedSize end size
        → size ≤ 29 + 4 * sum_by length bodies }
{}

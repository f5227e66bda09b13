//! How the journal of an endpoint is opened.
ghost use Rattle.std.specs.Prelude.{◌≡◌, ℕ, [], IfErr, IfOk, IsNone, OnOk, is_some};
ghost use Rattle.as4_disk.specs.Leaving.{FirstThen, LeavesOnly, Quiet};
ghost use Rattle.as4_flow.specs.Flow.{Told};
ghost use Rattle.msh_journal.specs.Payloads.{IsJournalWith};
ghost use Rattle.msh_recovery.specs.Opens.{IsOld, ReadsAs, ReopensAs};
ghost use Rattle.msh_recovery.specs.Unfit.{IsNoJournal};
ghost use Rattle.exchange_model.specs.End.{End, empty_end};
ghost use Rattle.exchange_model.specs.Fold.{IsFoldedSize, resized};
ghost use Rattle.journal.specs.Leaf.{IsNew};
ghost use Rattle.journal.specs.Faults.{CountsFault, IsCause, IsOpeningFault};
ghost use Rattle.journal.specs.State.{HasRead};
ghost use Rattle.journal.specs.Store.{picked_leaf};
ghost use Rattle.journal.specs.declared.version.Version.TheVariants.{One, Two};

use crate::folding::{Compaction, fold_end};
use crate::reading::read_all;
use as4_disk::Disk;
use event_code::one_body;
use journal::{Journal, JournalFault};
use msh_core::Core;
use msh_recovery::a_fold_of_few_bytes_is_short;
use pmodes::Modes;
use std::alloc::Global;

/// The version of a journal that is appended to.
const WRITTEN_VERSION: u8 = 2;

/// Opens the journal of an endpoint, and gives the endpoint that its records lead to. A journal of version 1 is compacted
/// into one of version 2 first.
pub fn open_end<D: Disk>(
    alloc: Global,
    disk: D,
    modes: Modes,
) -> Result<(Journal<D>, Core), (JournalFault, D)>
    ensures kept { IfOk result (λ opened. IsJournalWith D.Disk opened.1.end opened.1.places opened.0) }
    ensures modes { IfOk result (λ opened. opened.1.modes ≡ modes) }

    // The endpoint is that of the records as the disk read; where the leaf was of version 1, its journal was compacted.
    ensures end { IfOk result (λ opened. Told (D.seen disk) (λ b. (end : End) × ReadsAs b end
        × (IsOld (picked_leaf b) → (size : ℕ) × IsFoldedSize end size × (opened.1.end ≡ resized size end))
        × (¬ IsOld (picked_leaf b) → opened.1.end ≡ end))) }

    // Until the journal has settled its selector and its leaf a crash leaves what it might have left before, and from then
    // on a disk that opens as it read.
    ensures any_moment { IfOk result (λ opened. Told (D.seen disk) (λ b.
        FirstThen D.Disk disk opened.0.disk (D.may_leave disk) (ReopensAs b))) }
    ensures failed_moment { IfErr result (λ e. Told (D.seen disk) (λ b.
        FirstThen D.Disk disk e.1 (D.may_leave disk) (ReopensAs b))) }

    ensures not_journal { IfErr result (λ e. (at : ℕ) → e.0 ≡ JournalFault.NotJournal at
        → Told (D.seen disk) (λ b. IsNoJournal at (picked_leaf b))) }
    ensures untouched { IfErr result (λ e. (at : ℕ) → e.0 ≡ JournalFault.NotJournal at
        → Told (D.seen disk) (λ _. Quiet D.Disk disk e.1)) }
    ensures faults { IfErr result (λ e. IsOpeningFault e.0) }
    ensures cause { IfErr result (λ e. IsCause (D.fault_count disk) (D.fault_count e.1) e.0) }
    ensures fine { IfOk result (λ opened. D.fault_count opened.0.disk ≡ D.fault_count disk) }
    ensures tells { IfOk result (λ opened. is_some (D.seen opened.0.disk) ≡ is_some (D.seen disk)) }
    ensures failed_tells { IfErr result (λ e. is_some (D.seen e.1) ≡ is_some (D.seen disk)) }
{
    let mut journal = match Journal::open(alloc, disk) {
        Ok(journal) => journal,
        Err(failed) => {
            drop(modes);
            return Err(failed);
        }
    };
    let mut core = Core::new(alloc, modes);
    match bring_up(alloc, &mut journal, &mut core) {
        Ok(()) => Ok((journal, core)),
        Err(fault) => {
            drop(core);
            Err((fault, journal.into_disk()))
        }
    }
}

/// Reads all records, and compacts the journal where it has version 1.
fn bring_up<D: Disk>(
    alloc: Global,
    journal: &mut Journal<D>,
    core: &mut Core,
) -> Result<(), JournalFault>
    requires new { (core.old.end ≡ empty_end) × (core.old.places ≡ []) × (journal.old.gate ≡ 8)
        × IsNone journal.old.fold }
    requires read { Told (D.seen journal.old.disk) (λ _. HasRead D.Disk journal.old []) }
    requires version { Told (D.seen journal.old.disk) (λ b. IsNew (picked_leaf b) → journal.old.version ≡ Two) }
    ensures kept { OnOk result (IsJournalWith D.Disk core.new.end core.new.places journal.new) }
    ensures modes { core.new.modes ≡ core.old.modes }
    ensures end { OnOk result (HasRead D.Disk journal.old [] → Told (D.seen journal.old.disk) (λ b. (end : End)
        × ReadsAs b end
        × (journal.old.version ≡ One → (size : ℕ) × IsFoldedSize end size × (core.new.end ≡ resized size end))
        × (journal.old.version ≡ Two → core.new.end ≡ end))) }
    ensures any_moment { HasRead D.Disk journal.old [] → Told (D.seen journal.old.disk) (λ b.
        LeavesOnly D.Disk journal.old.disk journal.new.disk (ReopensAs b)) }
    ensures not_journal { IfErr result (λ e. (at : ℕ) → e ≡ JournalFault.NotJournal at
        → HasRead D.Disk journal.old [] → Told (D.seen journal.old.disk) (λ b.
        IsNoJournal at (picked_leaf b))) }
    ensures untouched { IfErr result (λ e. (at : ℕ) → e ≡ JournalFault.NotJournal at
        → Told (D.seen journal.old.disk) (λ _. Quiet D.Disk journal.old.disk journal.new.disk)) }
    ensures faults { IfErr result IsOpeningFault }
    ensures counts { CountsFault D.Disk journal.old.disk journal.new.disk result }
{
    read_all(alloc, journal, core)?;
    if journal.version() == WRITTEN_VERSION {
        return Ok(());
    }
    one_body();
    a_fold_of_few_bytes_is_short();
    match fold_end(alloc, journal, core)? {
        Compaction::Done => Ok(()),
        Compaction::Lost { gate } => Err(JournalFault::NotJournal { at: gate }),
    }
}

//! How an office is opened.
ghost use Rattle.std.specs.Prelude.{◌≡◌, ℕ, ◌^◌, [], IfErr, IfOk, is_some};
ghost use Rattle.as4_disk.specs.Leaving.{FirstThen, Quiet};
ghost use Rattle.as4_flow.specs.Flow.{Told};
ghost use Rattle.msh_recovery.specs.Opens.{IsOld, KeepsEnd, ReadsAs, ReopensAs};
ghost use Rattle.msh_recovery.specs.Unfit.{IsNoJournal};
ghost use Rattle.exchange_model.specs.End.{End};
ghost use Rattle.exchange_model.specs.Fold.{IsFoldedSize, resized};
ghost use Rattle.journal.specs.Faults.{IsCause, IsOpeningFault};
ghost use Rattle.journal.specs.Store.{picked_leaf};

use crate::call::Call;
use crate::office::Office;
use as4_disk::Disk;
use journal::{Frame, JournalFault};
use msh_journal::open_end;
use msh_recovery::no_whole_disk_is_unfit;
use pass_book::{Keeper, Pass};
use pmodes::Modes;
use std::alloc::Global;

impl<'a, D: Disk> Office<'a, D> {
    /// Opens the journal on this disk, with a history that has no calls yet, and a pass that has all stakes. The fault is
    /// the journal's: `NotJournal` is told of a record that fits no end too, and behind `NoMemory` the journal may have
    /// settled its selector and its leaf.
    pub fn open(
        alloc: Global,
        disk: D,
        modes: Modes,
    ) -> Result<(Office<'a, D>, Pass<'a, Call>), (JournalFault, D)>
        ensures first { IfOk result (λ o. (o.0.list ≡ []) × (o.0.modes ≡ modes)
            × (o.1 ≡ record { book = o.0.book; list = []; share = 0; stake = 2 ^ 63 })) }

        // The end is that of the records as the disk read; where the leaf was of version 1, its journal was folded.
        ensures end { IfOk result (λ o. Told (D.seen disk) (λ b. (end : End) × ReadsAs b end
            × (IsOld (picked_leaf b) → (size : ℕ) × IsFoldedSize end size × (o.0.end ≡ resized size end))
            × (¬ IsOld (picked_leaf b) → o.0.end ≡ end))) }
        ensures safe { IfOk result (λ o. KeepsEnd D.Disk o.0.disk o.0.end) }

        // Until the journal has settled its selector and its leaf a crash leaves what it might have left before, and from
        // then on a disk that opens as it read.
        ensures any_moment { IfOk result (λ o. Told (D.seen disk) (λ b.
            FirstThen D.Disk disk o.0.disk (D.may_leave disk) (ReopensAs b))) }
        ensures failed_moment { IfErr result (λ e. Told (D.seen disk) (λ b.
            FirstThen D.Disk disk e.1 (D.may_leave disk) (ReopensAs b))) }

        // At the place of `NotJournal` stands no record of the end, and nothing was written.
        ensures not_journal { IfErr result (λ e. (at : ℕ) → e.0 ≡ JournalFault.NotJournal at → Told (D.seen disk) (λ b.
            IsNoJournal at (picked_leaf b))) }
        ensures untouched { IfErr result (λ e. (at : ℕ) → e.0 ≡ JournalFault.NotJournal at → Told (D.seen disk) (λ _.
            Quiet D.Disk disk e.1)) }
        ensures whole { IfErr result (λ e. (at : ℕ) → e.0 ≡ JournalFault.NotJournal at → Told (D.seen disk) (λ b.
            (end : End) → ReadsAs b end → ⊥)) }
        ensures faults { IfErr result (λ e. IsOpeningFault e.0) }
        // `Disk` comes exactly where a call on the disk failed.
        ensures cause { IfErr result (λ e. IsCause (D.fault_count disk) (D.fault_count e.1) e.0) }
        ensures fine { IfOk result (λ o. D.fault_count o.0.disk ≡ D.fault_count disk) }
        ensures tells { IfOk result (λ o. is_some (D.seen o.0.disk) ≡ is_some (D.seen disk)) }
        ensures failed_tells { IfErr result (λ e. is_some (D.seen e.1) ≡ is_some (D.seen disk)) }
    {
        let (keeper, pass) = match Keeper::new(alloc) {
            Ok(opened) => opened,
            Err(_) => {
                drop(modes);
                return Err((JournalFault::NoMemory, disk));
            }
        };
        let small = match Frame::of(alloc, &[0; 11]) {
            Ok(frame) => frame,
            Err(_) => {
                drop(modes);
                drop(keeper);
                drop(pass);
                return Err((JournalFault::NoMemory, disk));
            }
        };
        match open_end(alloc, disk, modes) {
            Ok((journal, core)) => {
                let office = Office {
                    alloc,
                    journal,
                    core,
                    keeper,
                    small,
                    halt: None,
                };
                Ok((office, pass))
            }
            Err((fault, disk)) => {
                no_whole_disk_is_unfit();
                drop(keeper);
                drop(pass);
                drop(small);
                Err((fault, disk))
            }
        }
    }
}

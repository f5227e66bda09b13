//! A journal on a disk of three parts, and how it is opened.
//!
//!     selector  its first byte's low bit picks leaf 1, else leaf 0 is picked
//!     leaf      magic, gate, record, gate, record, .., gate: the last gate is closed
//!
//! A gate is open as the byte 1 and closed as any other. A record that is written is followed by a gate 0 before its own
//! gate is opened; so a crash leaves the records before it, and this one or not.
ghost use Rattle.std.specs.Prelude.{◌≡◌, ◌+◌, ◌<◌, ◌^◌, [], IfOk, IfErr, IsNone, unwrap_or, is_some};
ghost use Rattle.as4_flow.specs.Flow.{Told};
ghost use Rattle.as4_disk.specs.Leaving.{FirstThen, Quiet};

use crate::JournalFault;
use crate::starting::start;
use crate::version::Version;
use as4_disk::{Disk, ReadFault};
use std::alloc::Global;

/// A journal. It is opened, its records are read in order to the end, and then records are appended.
#[derive(Drop)]
pub struct Journal<D> {
    pub(crate) disk: D,
    // Leaf 1 is picked.
    pub(crate) is_second: bool,
    pub(crate) version: Version,
    // The place of the next gate to be read, and then of the closed gate.
    pub(crate) gate: u64,
    // That gate and the length after it, where they were read with the record before.
    pub(crate) ahead: Option<[u8; 9]>,
    // While a fold is open, the place of its next gate in the other leaf.
    pub(crate) fold: Option<u64>,
    ghost in_range: { gate < 2 ^ 32 },
    ghost fold_in_range: { unwrap_or fold 0 < 2 ^ 32 },
}

impl<D: Disk> Journal<D> {
    ghost use Rattle.journal.specs.Leaf.{number_of, IsBroken, IsNew};
    ghost use Rattle.journal.specs.Store.{KeepsLeaf, picked_leaf};
    ghost use Rattle.journal.specs.Faults.{IsCause, IsOpeningFault};
    ghost use Rattle.journal.specs.State.{HasRead};

    /// Opens a journal: settles the selector and the picked leaf, and makes a leaf of at most 9 bytes a new one of
    /// version 2. The records are still to be read.
    pub fn open(alloc: Global, mut disk: D) -> Result<Journal<D>, (JournalFault, D)>
        ensures read { IfOk result (λ j. Told (D.seen disk) (λ b. HasRead D.Disk j []
            × Told (D.seen j.disk) (KeepsLeaf b))) }
        ensures new { IfOk result (λ j. Told (D.seen disk) (λ _. Told (D.seen j.disk) (λ b. IsNew (picked_leaf b)
            → j.version ≡ Version.Two))) }
        ensures gate { IfOk result (λ j. j.gate ≡ 8) }
        ensures no_fold { IfOk result (λ j. IsNone j.fold) }

        // Until the selector and the leaf have been settled a crash leaves what it might have left before, and from then
        // on a leaf that opens as the disk read.
        ensures any_moment { IfOk result (λ j. Told (D.seen disk) (λ b.
            FirstThen D.Disk disk j.disk (D.may_leave disk) (KeepsLeaf b))) }
        ensures failed_moment { IfErr result (λ e. Told (D.seen disk) (λ b.
            FirstThen D.Disk disk e.1 (D.may_leave disk) (KeepsLeaf b))) }

        ensures not_journal { IfErr result (λ e. (at : _) → e.0 ≡ JournalFault.NotJournal at
            → (at ≡ 0) × Told (D.seen disk) (λ b. IsBroken 0 (picked_leaf b))) }

        // Nothing was written, unless the leaf was a new one.
        ensures quiet { IfOk result (λ j. Told (D.seen disk) (λ b. (IsNew (picked_leaf b) → ⊥)
            → Quiet D.Disk disk j.disk)) }
        ensures untouched { IfErr result (λ e. (at : _) → e.0 ≡ JournalFault.NotJournal at
            → Quiet D.Disk disk e.1) }

        ensures faults { IfErr result (λ e. IsOpeningFault e.0) }
        ensures cause { IfErr result (λ e. IsCause (D.fault_count disk) (D.fault_count e.1) e.0) }
        ensures tells { IfOk result (λ j. is_some (D.seen j.disk) ≡ is_some (D.seen disk)) }
        ensures failed_tells { IfErr result (λ e. is_some (D.seen e.1) ≡ is_some (D.seen disk)) }
        ensures fine { IfOk result (λ j. D.fault_count j.disk ≡ D.fault_count disk) }
    {
        let before = disk.faults();
        match start(alloc, &mut disk) {
            Ok(Some((is_second, version))) => Ok(Journal {
                disk,
                is_second,
                version,
                gate: 8,
                ahead: None,
                fold: None,
            }),
            Ok(None) => Err((JournalFault::NotJournal { at: 0 }, disk)),
            Err(ReadFault::NoMemory) => Err((JournalFault::NoMemory, disk)),
            Err(ReadFault::Disk) => {
                let after = disk.faults();
                Err((JournalFault::Disk { before, after }, disk))
            }
        }
    }

    /// The version of the picked leaf, 1 or 2.
    pub fn version(&self) -> u8
        ensures { result ≡ number_of self.now.version }
    {
        self.version.number()
    }

    /// How many faults the disk has met.
    pub fn faults(&self) -> u64
        ensures { result ≡ D.fault_count self.now.disk }
    {
        self.disk.faults()
    }

    /// How many bytes the records take, with the magic and the closed gate after them.
    pub fn size(&self) -> u64
        ensures { result ≡ self.now.gate + 1 }
    {
        self.gate + 1
    }

    /// Gives the disk back.
    pub fn into_disk(self) -> D
        ensures { result ≡ self.disk }
    {
        let Journal {
            disk,
            is_second: _,
            version: _,
            gate: _,
            ahead: _,
            fold: _,
        } = self;
        disk
    }
}

//! How a journal is compacted: other records are written to the other leaf, which is then picked.
ghost use Rattle.std.specs.Prelude.{◌≡◌, ◌+◌, ◌<◌, ◌^◌, ◌++◌, [], ◌∷◌, List, ℕ, Some, IfOk, IfErr, OnOk, IsNone, IsSome, IsSomeAnd, length};
ghost use Rattle.as4_flow.specs.Flow.{Told};
ghost use Rattle.as4_disk.specs.Leaving.{FirstThen, LeavesOnly};

use crate::other::{empty_other, finish_other, write_other};
use crate::version::Version;
use crate::{Frame, Journal, JournalFault};
use as4_disk::{Disk, DiskFailed};

impl<D: Disk> Journal<D> {
    ghost use Rattle.journal.specs.Store.{InVersion, OpensSettled, OpensToEither};
    ghost use Rattle.journal.specs.Faults.{CountsFault, IsDiskFault};
    ghost use Rattle.journal.specs.State.{HasFold, HasRecords};

    /// Opens a fold, which has no records yet. All records have been read, and no call has answered Disk. It takes no
    /// memory.
    pub fn fold_start(&mut self) -> Result<(), JournalFault>
        requires settled { Told (D.seen self.old.disk) (λ _. (bodies : List (List ℕ))
            × HasRecords D.Disk self.old bodies) }
        requires no_fold { IsNone self.old.fold }
        ensures open { OnOk result ((bodies : _) → HasRecords D.Disk self.old bodies
            → HasFold D.Disk self.new bodies []) }
        ensures place { OnOk result (self.new.fold ≡ Some 8) }
        ensures same { (self.new.gate ≡ self.old.gate) × (self.new.version ≡ self.old.version) }
        ensures any_moment { (bodies : _) → HasRecords D.Disk self.old bodies
            → LeavesOnly D.Disk self.old.disk self.new.disk
            (InVersion self.old.version (OpensSettled bodies)) }

        ensures faults { IfErr result IsDiskFault }
        ensures counts { CountsFault D.Disk self.old.disk self.new.disk result }
    {
        let before = self.disk.faults();
        match empty_other(&mut self.disk, self.is_second) {
            Ok(()) => {
                self.fold = Some(8);
                Ok(())
            }
            Err(DiskFailed) => {
                let after = self.disk.faults();
                Err(JournalFault::Disk { before, after })
            }
        }
    }

    /// Adds a record to the open fold, and answers the place of its gate in the other leaf. The fold stays below
    /// 4,294,967,296 bytes with it. It takes no memory.
    pub fn fold_add(&mut self, frame: &Frame) -> Result<u64, JournalFault>
        requires room { IsSomeAnd self.old.fold (λ place. place + length frame.now + 10 < 2 ^ 32) }
        requires settled { Told (D.seen self.old.disk) (λ _. (bodies : List (List ℕ)) × (folded : List (List ℕ))
            × HasFold D.Disk self.old bodies folded) }
        ensures added { OnOk result ((bodies : _) (folded : _) → HasFold D.Disk self.old bodies folded
            → HasFold D.Disk self.new bodies (folded ++ frame.now ∷ [])) }
        ensures any_moment { (bodies : _) (folded : _) → HasFold D.Disk self.old bodies folded
            → LeavesOnly D.Disk self.old.disk self.new.disk
            (InVersion self.old.version (OpensSettled bodies)) }
        ensures gate { IfOk result (λ gate. self.old.fold ≡ Some gate) }
        ensures place { IfOk result (λ gate. self.new.fold ≡ Some (gate + 9 + length frame.now)) }
        ensures same { (self.new.gate ≡ self.old.gate) × (self.new.version ≡ self.old.version) }

        ensures faults { IfErr result IsDiskFault }
        ensures counts { CountsFault D.Disk self.old.disk self.new.disk result }
    {
        let gate = self.fold.unwrap();
        let before = self.disk.faults();
        match write_other(&mut self.disk, self.is_second, gate, frame.head()) {
            Ok(()) => {
                self.fold = Some(gate + 9 + frame.body_len());
                Ok(gate)
            }
            Err(DiskFailed) => {
                let after = self.disk.faults();
                Err(JournalFault::Disk { before, after })
            }
        }
    }

    /// Ends the open fold: its records are then the journal's, in a leaf of version 2. It takes no memory.
    pub fn fold_finish(&mut self) -> Result<(), JournalFault>
        requires open { IsSome self.old.fold }
        requires settled { Told (D.seen self.old.disk) (λ _. (bodies : List (List ℕ)) × (folded : List (List ℕ))
            × HasFold D.Disk self.old bodies folded) }
        ensures folded { OnOk result ((bodies : _) (folded : _) → HasFold D.Disk self.old bodies folded
            → HasRecords D.Disk self.new folded) }
        ensures version { OnOk result (self.new.version ≡ Version.Two) }
        ensures closed { OnOk result (IsNone self.new.fold) }
        ensures gate { OnOk result (self.old.fold ≡ Some self.new.gate) }

        // Until the other leaf has been settled a crash leaves the old records in the old version, and from then on
        // these or the new in version 2.
        ensures any_moment { (bodies : _) (folded : _) → HasFold D.Disk self.old bodies folded
            → FirstThen D.Disk self.old.disk self.new.disk
            (InVersion self.old.version (OpensSettled bodies)) (OpensToEither self.old.version bodies folded) }

        ensures faults { IfErr result IsDiskFault }
        ensures counts { CountsFault D.Disk self.old.disk self.new.disk result }
    {
        let gate = self.fold.unwrap();
        let before = self.disk.faults();
        match finish_other(&mut self.disk, self.is_second, gate) {
            Ok(()) => {
                self.is_second = !self.is_second;
                self.version = Version::Two;
                self.gate = gate;
                self.fold = None;
                Ok(())
            }
            Err(DiskFailed) => {
                let after = self.disk.faults();
                Err(JournalFault::Disk { before, after })
            }
        }
    }

    /// Closes the open fold without a device call. The journal's records stay.
    pub fn fold_drop(&mut self)
        ensures records { (bodies : _) (folded : _) → HasFold D.Disk self.old bodies folded
            → HasRecords D.Disk self.new bodies }
        ensures closed { IsNone self.new.fold }
        ensures same { self.new ≡ record self.old { fold = self.new.fold; fold_in_range = self.new.fold_in_range } }
    {
        self.fold = None;
    }
}

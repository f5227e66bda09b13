//! How a record is appended.
ghost use Rattle.std.specs.Prelude.{◌≡◌, ◌+◌, ◌<◌, ◌≤◌, ◌^◌, ◌++◌, [], ◌∷◌, List, ℕ, IfOk, IfErr, OnErr, OnOk, IsNone, length, is_ok};
ghost use Rattle.as4_flow.specs.Flow.{Told};
ghost use Rattle.as4_disk.specs.Leaving.{LeavesOnly};
ghost use Rattle.as4_disk.specs.Runs.{MakesAll};

use crate::picked_leaf::add_record;
use crate::version::Version;
use crate::{Frame, Journal, JournalFault};
use as4_disk::{Disk, DiskFailed};

impl<D: Disk> Journal<D> {
    ghost use Rattle.journal.specs.Calls.{record_calls};
    ghost use Rattle.journal.specs.Store.{InVersion, OpensToOneOf, leaf_of};
    ghost use Rattle.journal.specs.Faults.{CountsFault, IsAppendFault};
    ghost use Rattle.journal.specs.State.{HasRecords};

    /// Appends a record, and answers the place of its gate. All records have been read, the leaf has version 2, and no
    /// call has answered Disk. It makes four device calls and takes no memory.
    pub fn append(&mut self, frame: &Frame) -> Result<u64, JournalFault>
        requires settled { Told (D.seen self.old.disk) (λ _. (bodies : List (List ℕ))
            × HasRecords D.Disk self.old bodies) }
        requires version { self.old.version ≡ Version.Two }
        requires no_fold { IsNone self.old.fold }

        ensures settled { OnOk result ((bodies : _) → HasRecords D.Disk self.old bodies
            → HasRecords D.Disk self.new (bodies ++ frame.now ∷ [])) }
        ensures any_moment { (bodies : _) → HasRecords D.Disk self.old bodies
            → LeavesOnly D.Disk self.old.disk self.new.disk
            (InVersion Version.Two (OpensToOneOf bodies frame.now)) }
        ensures calls { self.old.gate + 1 + (length frame.now + 9) ≤ 2 ^ 32 → MakesAll D.makes
            (record_calls (leaf_of self.old.is_second) self.old.gate frame.now)
            self.old.disk self.new.disk (is_ok result) }
        ensures kept { (self.new.version ≡ self.old.version) × (self.new.fold ≡ self.old.fold) }
        ensures gate { IfOk result (λ gate. gate ≡ self.old.gate) }
        ensures grows { OnOk result (self.new.gate ≡ self.old.gate + (length frame.now + 9)) }
        ensures stays { OnErr result (self.new.gate ≡ self.old.gate) }

        ensures full { IfErr result (λ e. (size : _) (need : _) → e ≡ JournalFault.Full size need
            → (size ≡ self.old.gate + 1) × (need ≡ length frame.now + 9) × (2 ^ 32 < size + need)
            × (self.new ≡ self.old)) }
        ensures room { IfErr result (λ e. (before : _) (after : _) → e ≡ JournalFault.Disk before after
            → self.old.gate + 1 + (length frame.now + 9) ≤ 2 ^ 32) }
        ensures fits { OnOk result (self.old.gate + 1 + (length frame.now + 9) ≤ 2 ^ 32) }
        ensures faults { IfErr result IsAppendFault }
        ensures counts { CountsFault D.Disk self.old.disk self.new.disk result }
    {
        let gate = self.gate;
        let size = gate + 1;
        let need = frame.body_len() + 9;
        if size + need > Version::Two.limit() {
            return Err(JournalFault::Full { size, need });
        }
        let before = self.disk.faults();
        match add_record(&mut self.disk, self.is_second, gate, frame) {
            Ok(()) => {
                self.gate = gate + need;
                Ok(gate)
            }
            Err(DiskFailed) => {
                let after = self.disk.faults();
                Err(JournalFault::Disk { before, after })
            }
        }
    }
}

//! The records of a journal, read one after the other, and one of them by its gate.
ghost use Rattle.std.specs.Prelude.{◌≡◌, ◌+◌, ◌<◌, ◌++◌, [], ◌∷◌, IfOk, IfErr, IfSome, IfNone, OnErr, IsErrOf, length};
ghost use Rattle.as4_flow.specs.Flow.{Told};
ghost use Rattle.as4_disk.specs.Leaving.{LeavesOnly, Quiet};

use crate::passing::pass;
use crate::reading::Next;
use crate::{Journal, JournalFault};
use as4_disk::{Disk, ReadFault};
use as4_values::Octets;
use std::alloc::Global;

impl<D: Disk> Journal<D> {
    ghost use Rattle.journal.specs.Leaf.{width_of, limit_of, Lists, IsBroken};
    ghost use Rattle.journal.specs.Store.{Reopens, picked_leaf};
    ghost use Rattle.journal.specs.Faults.{CountsFault, IsOpeningFault};
    ghost use Rattle.journal.specs.State.{HasRead, HasRecords};

    /// The place of the next record's gate, and its body; `None` at the closed gate, after which records may then be
    /// appended. A closed gate that isn't 0 is closed to 0 first. A record that couldn't be read isn't passed.
    pub fn next_record(&mut self, alloc: Global) -> Result<Option<(u64, Octets)>, JournalFault>
        ensures record { IfOk result (λ next. IfSome next (λ found. (bodies : _)
            → HasRead D.Disk self.old bodies
            → HasRead D.Disk self.new (bodies ++ found.1 ∷ []))) }
        ensures place { IfOk result (λ next. IfSome next (λ found. found.0 ≡ self.old.gate)) }
        ensures same { IfOk result (λ next. IfSome next (λ _. D.seen self.new.disk ≡ D.seen self.old.disk)) }
        ensures grows { IfOk result (λ next. IfSome next (λ found.
            (self.new.gate ≡ self.old.gate + (1 + width_of self.old.version + length found.1))
            × (self.new.gate < limit_of self.old.version))) }

        ensures kept { (self.new.version ≡ self.old.version) × (self.new.fold ≡ self.old.fold) }

        ensures end { IfOk result (λ next. IfNone next ((bodies : _)
            → HasRead D.Disk self.old bodies → HasRecords D.Disk self.new bodies)) }
        ensures stays { IfOk result (λ next. IfNone next (self.new.gate ≡ self.old.gate)) }
        ensures all { IfOk result (λ next. IfNone next ((bodies : _)
            → HasRead D.Disk self.old bodies
            → Told (D.seen self.old.disk) (λ b. Lists bodies (picked_leaf b)))) }

        ensures not_journal { IfErr result (λ e. (at : _) → e ≡ JournalFault.NotJournal at
            → (at ≡ self.old.gate) × ((bodies : _) → HasRead D.Disk self.old bodies
            → Told (D.seen self.old.disk) (λ b. IsBroken at (picked_leaf b)))) }
        // Nothing was written.
        ensures quiet { IfOk result (λ next. IfSome next (λ _.
            Quiet D.Disk self.old.disk self.new.disk)) }
        ensures untouched { IfErr result (λ e. (at : _) → e ≡ JournalFault.NotJournal at
            → Quiet D.Disk self.old.disk self.new.disk) }

        ensures starved { IsErrOf result JournalFault.NoMemory
            → (bodies : _) → HasRead D.Disk self.old bodies → HasRead D.Disk self.new bodies }
        ensures not_passed { OnErr result (self.new.gate ≡ self.old.gate) }
        ensures faults { IfErr result IsOpeningFault }
        ensures counts { CountsFault D.Disk self.old.disk self.new.disk result }

        ensures any_moment { (bodies : _) → HasRead D.Disk self.old bodies
            → Told (D.seen self.old.disk) (λ b.
            LeavesOnly D.Disk self.old.disk self.new.disk (Reopens b)) }
    {
        let before = self.disk.faults();
        let gate = self.gate;
        let ahead = self.ahead;
        self.ahead = None;
        let (is_second, version) = (self.is_second, self.version);
        match pass(alloc, &mut self.disk, is_second, version, gate, ahead) {
            Ok(Next::Record(body, ahead)) => {
                self.ahead = ahead;
                self.gate = gate + 1 + self.version.width() + body.bytes().len() as u64;
                Ok(Some((gate, body)))
            }
            Ok(Next::Closed(_)) => Ok(None),
            Ok(Next::Broken) => Err(JournalFault::NotJournal { at: gate }),
            Err(ReadFault::NoMemory) => Err(JournalFault::NoMemory),
            Err(ReadFault::Disk) => {
                let after = self.disk.faults();
                Err(JournalFault::Disk { before, after })
            }
        }
    }
}

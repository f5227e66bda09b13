//! One record of a journal, by the place of its gate.
ghost use Rattle.std.specs.Prelude.{◌≡◌, ◌++◌, ◌∷◌, ◌<◌, IfOk, IfErr, length};
ghost use Rattle.as4_disk.specs.Leaving.{Quiet};

use crate::picked_leaf::leaf_part;
use crate::reading::{Next, read_next};
use crate::{Journal, JournalFault};
use as4_disk::{Disk, ReadFault};
use as4_values::Octets;
use std::alloc::Global;

impl<D: Disk> Journal<D> {
    ghost use Rattle.journal.specs.Leaf.{front_of};
    ghost use Rattle.journal.specs.Faults.{IsReadFault, TellsCause};
    ghost use Rattle.journal.specs.State.{HasRecords};

    /// The body of the record whose gate is at that place, as `next_record` or `append` gave it. Over a disk whose
    /// content isn't observable, an empty body where there is no record.
    pub fn fetch(&mut self, alloc: Global, gate: u64) -> Result<Octets, JournalFault>
        ensures found { IfOk result (λ got. (before : _) (body : _) (after : _)
            → HasRecords D.Disk self.old (before ++ body ∷ after)
            → gate ≡ length (front_of self.old.version before) → got ≡ body) }
        ensures kept { (bodies : _)
            → HasRecords D.Disk self.old bodies → HasRecords D.Disk self.new bodies }
        ensures same { (self.new.gate ≡ self.old.gate) × (self.new.version ≡ self.old.version)
            × (self.new.fold ≡ self.old.fold) }
        ensures quiet { Quiet D.Disk self.old.disk self.new.disk }

        ensures faults { IfErr result IsReadFault }
        ensures cause { TellsCause (D.fault_count self.old.disk) (D.fault_count self.new.disk) result }
    {
        let nothing = Octets::of(Vec::new(alloc));
        if gate >= self.version.limit() {
            return Ok(nothing);
        }
        let before = self.disk.faults();
        let part = leaf_part(self.is_second);
        match read_next(alloc, &mut self.disk, part, self.version, gate, None) {
            Ok(Next::Record(body, _)) => Ok(body),
            Ok(Next::Closed(_)) => Ok(nothing),
            Ok(Next::Broken) => Ok(nothing),
            Err(ReadFault::NoMemory) => Err(JournalFault::NoMemory),
            Err(ReadFault::Disk) => {
                let after = self.disk.faults();
                Err(JournalFault::Disk { before, after })
            }
        }
    }
}

//! Compaction of the journal.
ghost use Rattle.std.specs.Prelude.{◌≡◌};
ghost use Rattle.office.specs.Folds.{Checkpoints};

use crate::call::Call;
use crate::entering::{enter, enter_stop};
use crate::fault::OfficeFault;
use crate::office::Office;
use as4_disk::{Disk, FaultCounts};
use journal::JournalFault;
use msh_journal::{Compaction, fold_end};
use pass_book::{MAX_ENTRIES, Pass};

impl<'a, D: Disk> Office<'a, D> {
    /// Compacts the journal if that makes it shorter, and returns its size in bytes. After `NoMemory` the bytes of the
    /// leaf that isn't current may differ, and nothing else has changed. Over a disk whose content isn't observable, the
    /// payloads of a message may not be found: then the journal stays as it is.
    pub fn checkpoint(&mut self, pass: &mut Pass<'_, Call>) -> Result<u64, OfficeFault>
        requires book { pass.old.book ≡ self.old.book }
        ensures { Checkpoints D.Disk self.old self.new pass.old pass.new result }
    {
        if self.keeper.len() == MAX_ENTRIES {
            self.keeper.show(pass);
            return Err(OfficeFault::Worn);
        }
        if let Some(halt) = self.halt {
            let FaultCounts { before, after } = halt;
            return Err(OfficeFault::Stopped { before, after });
        }
        let size = self.core.folded_size();
        let present = self.core.size();
        if size >= present {
            return Ok(present);
        }
        match fold_end(self.alloc, &mut self.journal, &mut self.core) {
            Ok(Compaction::Lost { .. }) => Ok(present),
            Ok(Compaction::Done) => {
                let call = enter(&mut self.keeper, pass, Call::Folded { size });
                drop(call);
                Ok(size)
            }
            Err(JournalFault::NoMemory) => Err(OfficeFault::NoMemory),
            Err(JournalFault::Disk { before, after }) => {
                let halt = FaultCounts { before, after };
                self.halt = Some(halt);
                Err(enter_stop(&mut self.keeper, pass, None, halt))
            }
            Err(_) => unreachable!(),
        }
    }
}

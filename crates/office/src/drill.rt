//! What a drill asks of an office over a disk in memory.
ghost use Rattle.std.specs.Prelude.{◌≡◌, [], Some};

use crate::office::Office;
use as4_disk::MemoryDisk;

impl<'a> Office<'a, MemoryDisk> {
    /// The device call of this number, the next being 1, acts and then fails, and each later one fails without acting. A
    /// sync that fails settles nothing. No call fails by its number from here on.
    pub fn stop_at(&mut self, call: u64)
        ensures { self.new ≡ record self.old { disk = record self.old.disk { failing = []; stop = Some call } } }
    {
        self.journal.stop_at(call);
    }
}

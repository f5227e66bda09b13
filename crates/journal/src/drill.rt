//! What a drill asks of a journal over a disk in memory.
ghost use Rattle.std.specs.Prelude.{◌≡◌, [], Some};

use crate::Journal;
use as4_disk::MemoryDisk;

impl Journal<MemoryDisk> {
    /// The device call of this number, the next being 1, acts and then fails, and each later one fails without acting. A
    /// sync that fails settles nothing. No call fails by its number from here on.
    pub fn stop_at(&mut self, call: u64)
        ensures stops { self.new.disk ≡ record self.old.disk { failing = []; stop = Some call } }
        ensures same { self.new ≡ record self.old { disk = self.new.disk } }
    {
        self.disk.stop_at(call);
    }
}

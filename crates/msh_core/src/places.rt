//! Where the payloads of received messages are: in records of the journal, and not in memory.

ghost use Rattle.std.specs.Prelude.{◌≡◌, ◌<◌, Some, length, set, slice_get};
ghost use Rattle.inbox.specs.Spots.{Spot};
ghost use Rattle.msh_core.specs.Machine.{IsHeldBy};
ghost use Rattle.msh_state.specs.Places.{EachOpen, IsMeasured};

use crate::machine::Core;
use msh_state::Held;

impl Core {
    /// The received message of this number, from 0: its header, and where its payloads are.
    pub fn held(&self, n: u64) -> Held<'_>
        ensures held { IsHeldBy self.now n result }
        ensures measured { EachOpen IsMeasured self.now.end.confirmed self.now.places self.now.end.inbox }
    {
        self.tables.read(n)
    }

    /// The payloads of the received message of this number, from 0, were moved to the record at this gate. Takes no
    /// memory.
    pub fn moved(&mut self, n: u64, gate: u64)
        requires { n < length self.old.places }
        ensures end { self.new.end ≡ self.old.end }
        ensures places { (p : Spot) → slice_get self.old.places n ≡ Some p
            → self.new.places ≡ set self.old.places n (record p { gate = gate }) }
        ensures modes { self.new.modes ≡ self.old.modes }
        ensures rooms { self.new.rooms ≡ self.old.rooms }
    {
        self.tables.moved(n, gate);
    }
}

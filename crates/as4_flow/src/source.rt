//! What gives bytes, a piece at a time, until it ends or fails.
//!
//!     Gave(n)  the first n bytes of the room are the next n bytes
//!     End      no bytes are left
//!     Failed   a fault: nothing was given, and the count of faults rose; no other answer raises it
ghost use Rattle.std.specs.Prelude.{◌≡◌, ℕ, Option, List, [], ◌<◌, ◌≤◌, length, take, drop};
ghost use Rattle.as4_flow.specs.Flow.{Told, before, Rose};

/// What a read answers.
#[derive(Clone, Copy, Debug, PartialEq, Eq)]
pub enum Got {
    /// This many bytes came, at least one.
    Gave(usize),
    /// No more bytes will come.
    End,
    /// Nothing came. The next read continues where this one would have.
    Failed,
}

pub trait Source {
    ghost use Rattle.as4_flow.specs.Got.{IfGave, OnNothing, UnlessFailed};

    /// The bytes that are left to come, where the source is observable.
    ghost left: { Self → Option (List ℕ) };

    /// How many faults there were, up to the last value of a `u64`.
    ghost faults: { Self → ℕ };

    /// Puts the next bytes at the start of the room, as many as are available.
    fn read(&mut self, room: &mut [u8]) -> Got
        requires { 0 < length room.old }
        ensures some { IfGave result (λ n. (1 ≤ n) × (n ≤ length room.new)) }
        ensures bytes { IfGave result (λ n. left self.old ≡ before (take n room.new) (left self.new)) }
        ensures rest { IfGave result (λ n. drop n room.new ≡ drop n room.old) }

        ensures nothing { OnNothing result (room.new ≡ room.old) }
        ensures stays { OnNothing result (left self.new ≡ left self.old) }
        ensures end { result ≡ Got.End → Told (left self.old) (λ bytes. bytes ≡ []) }

        ensures failed { result ≡ Got.Failed → Rose (faults self.old) (faults self.new) }
        ensures quiet { UnlessFailed result (faults self.new ≡ faults self.old) }
        ensures counted { faults self.old ≤ faults self.new };
}

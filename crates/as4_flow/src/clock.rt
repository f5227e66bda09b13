//! A clock: what gives the moment at which something happens.
//!
//!     now   a moment in milliseconds since 1970-01-01T00:00:00Z, at most the last one of the year 9999
//!     rest  lets some time pass, and gives nothing
ghost use Rattle.std.specs.Prelude.{◌≡◌, ℕ, Option, ◌≤◌};
ghost use Rattle.as4_flow.specs.Draws.{Draws, last_moment};

pub trait Clock {
    /// Its last answer, 0 before the first.
    ghost last: { Self → ℕ };

    /// Answer k to come, counted from 0, where the clock is observable.
    ghost to_come: { Self → ℕ → Option ℕ };

    /// The moment. It may be before an earlier answer: the system's clock can be set back.
    fn now(&mut self) -> u64
        ensures dated { result ≤ last_moment }
        ensures last { last self.new ≡ result }
        ensures draws { Draws result (to_come self.old) (to_come self.new) };

    /// Waits as long as the clock was made to.
    fn rest(&mut self)
        ensures last { last self.new ≡ last self.old }
        ensures stays { (k : ℕ) → to_come self.new k ≡ to_come self.old k };
}

//! A source of numbers that name messages: of 128 bits each, from the system's random source or counted up.
ghost use Rattle.std.specs.Prelude.{◌≡◌, ℕ, Option};
ghost use Rattle.as4_flow.specs.Draws.{Draws};

pub trait Nonces {
    /// Its last answer, 0 before the first.
    ghost last: { Self → ℕ };

    /// Answer k to come, counted from 0, where the source is observable.
    ghost to_come: { Self → ℕ → Option ℕ };

    fn next(&mut self) -> u128
        ensures last { last self.new ≡ result }
        ensures draws { Draws result (to_come self.old) (to_come self.new) };
}

//! A clock in memory, which is observable: it gives the moments of a list.
ghost use Rattle.std.specs.Prelude.{◌≡◌, ℕ, Some, ◌≤◌, drop, length};
ghost use Rattle.as4_flow.specs.Draws.{Draws, last_moment};
ghost use Rattle.as4_flow.specs.ClocksInMemory.{new_clock, moment_at, moments_after, after_now};

use crate::Clock;
use std::marker::Model;

/// The last moment that a clock gives: 9999-12-31T23:59:59.999Z.
const LAST_MOMENT: u64 = 253_402_300_799_999;

const _: () = prove!(LAST_MOMENT == 253402300799999);

/// Gives each moment of a list in turn, and then the last one again and again. A moment after the last one that a
/// clock may give is cut down to it. With no moments, it gives 0.
#[derive(Drop)]
pub struct ListClock {
    moments: Vec<u64>,
    // How many of the moments were given and don't come again.
    given: usize,
    last: u64,
}

impl Model for ListClock {
    ghost use Rattle.std.specs.Prelude.{◌≤◌, drop, length};
    ghost use Rattle.as4_flow.specs.ClocksInMemory.{ClockState};

    ghost Value = { ClockState };

    ghost view = { λ c. record { moments = drop c.given c.moments.items; last = c.last } };

    ghost invariant = { λ c. c.given ≤ length c.moments.items };
}

impl ListClock {
    pub fn of(moments: Vec<u64>) -> ListClock
        ensures { result ≡ new_clock moments.items }
    {
        ListClock {
            moments,
            given: 0,
            last: 0,
        }
    }
}

impl Clock for ListClock {
    ghost last = { λ c. c.last };

    ghost to_come = { λ c k. Some (moment_at c.moments k) };

    fn now(&mut self) -> u64
        ensures dated { result ≤ last_moment }
        ensures last { self.new.last ≡ result }
        ensures draws { Draws result (λ k. Some (moment_at self.old.moments k)) (λ k. Some (moment_at self.new.moments k)) }
        ensures state { self.new ≡ after_now self.old }
    {
        let (moment, used) = first_of(&self.moments[self.given..]);
        self.given += used;
        self.last = moment;
        moment
    }

    fn rest(&mut self)
        ensures same { self.new ≡ self.old }
    {}
}

// The moment that comes first, and how many moments don't come again.
fn first_of(moments: &[u64]) -> (u64, usize)
    ensures moment { result.0 ≡ moment_at moments.now 0 }
    ensures dated { result.0 ≤ last_moment }
    ensures used { result.1 ≤ length moments.now }
    ensures others { drop result.1 moments.now ≡ moments_after moments.now }
{
    match moments {
        [] => (0, 0),
        [moment] => ((*moment).min(LAST_MOMENT), 0),
        [moment, _, ..] => ((*moment).min(LAST_MOMENT), 1),
    }
}

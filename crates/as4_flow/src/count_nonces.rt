//! Nonces in memory, which are observable: they are counted up.
ghost use Rattle.std.specs.Prelude.{◌≡◌, ℕ, Some};
ghost use Rattle.as4_flow.specs.Draws.{Draws};
ghost use Rattle.as4_flow.specs.ClocksInMemory.{new_nonces, nonce_at, after_next};

use crate::Nonces;
use std::marker::Model;

/// Counts from a number upwards. After the last number of 128 bits comes 0.
#[derive(Drop)]
pub struct CountNonces {
    next: u128,
    last: u128,
}

impl Model for CountNonces {
    ghost use Rattle.std.specs.Prelude.{◌<◌, ◌^◌};
    ghost use Rattle.as4_flow.specs.ClocksInMemory.{NoncesState};

    ghost Value = { NoncesState };

    ghost view = { λ n. record { next = n.next; last = n.last } };

    ghost invariant = { λ n. n.next < 2 ^ 128 };
}

impl CountNonces {
    pub fn of(first: u128) -> CountNonces
        ensures { result ≡ new_nonces first }
    {
        CountNonces {
            next: first,
            last: 0,
        }
    }
}

#[tactic(auto, using(crate::proofs::ClockLemmas::nonce_after))]
impl Nonces for CountNonces {
    ghost last = { λ n. n.last };

    ghost to_come = { λ n k. Some (nonce_at n.next k) };

    fn next(&mut self) -> u128
        ensures last { self.new.last ≡ result }
        ensures draws { Draws result (λ k. Some (nonce_at self.old.next k)) (λ k. Some (nonce_at self.new.next k)) }
        ensures state { self.new ≡ after_next self.old }
    {
        self.last = self.next;
        self.next = self.next.wrapping_add(1);
        self.last
    }
}

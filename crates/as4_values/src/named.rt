//! Items with a Content-ID, and lists of them.

ghost use Rattle.std.specs.Prelude.{◌≡◌, ℕ, List, map};
ghost use Rattle.std.specs.List.{list_all};
ghost use Rattle.as4_values.specs.Pairing.{is_among, all_differ};

use crate::{Octets, Payload};

/// An item with a Content-ID (RFC 2392).
pub trait Named {
    ghost name: { Self → List ℕ };

    fn cid(&self) -> &[u8]
        ensures { result.now ≡ name self.now };
}

impl Named for Octets {
    ghost name = { λ cid. cid };

    fn cid(&self) -> &[u8] {
        self.bytes()
    }
}

impl Named for Payload {
    ghost name = { λ payload. payload.cid };

    fn cid(&self) -> &[u8] {
        self.cid.bytes()
    }
}

fn is_among<T: Named>(items: &[T], cid: &[u8]) -> bool
    ensures { result ≡ is_among (map T.name items.now) cid.now }
{
    for item in items {
        if cid == item.cid() {
            return true;
        }
    }
    false
}

/// Whether no two of the items have the same Content-ID.
#[tactic(auto, using(crate::proofs::PairingLemmas::all_differ_step), unfolding(crate::specs::Pairing::all_differ))]
pub fn all_differ<T: Named>(items: &[T]) -> bool
    ensures { result ≡ all_differ (map T.name items.now) }
{
    for (at, item) in items.iter().enumerate() {
        if is_among(&items[at + 1..], item.cid()) {
            return false;
        }
    }
    true
}

/// Whether the Content-ID of each item is also that of one of the others.
pub fn are_among<T: Named, U: Named>(items: &[T], others: &[U]) -> bool
    ensures { result ≡ list_all (is_among (map U.name others.now)) (map T.name items.now) }
{
    for item in items {
        if !is_among(others, item.cid()) {
            return false;
        }
    }
    true
}

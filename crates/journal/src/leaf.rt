//! The records of a leaf as bytes in memory.
ghost use Rattle.std.specs.Prelude.{ℕ, List, ◌≡◌, ◌<◌, ◌^◌, IfOk, IfErr, IfSome, IfNone, map};
ghost use Rattle.journal.specs.Leaf.{Lists, IsBroken};
ghost use Rattle.journal.specs.Reading.{IsBodyAt, HasNoBody};

use crate::LeafRefusal;
use crate::reading::body_len;
use crate::starting::version_in;
use crate::version::Version;
use as4_values::{Octets, Seq};
use std::alloc::{AllocError, Global};

/// The records of a leaf of either version, in order, as parts of its bytes.
pub fn lend_records<'a>(alloc: Global, leaf: &'a [u8]) -> Result<Vec<&'a [u8]>, LeafRefusal>
    ensures records { IfOk result (λ bodies. Lists (map (λ body. body.now) bodies.items) leaf.now) }
    ensures not_journal { IfErr result (λ e. (at : _) → e ≡ LeafRefusal.NotJournal at → IsBroken at leaf.now) }
{
    let mut bodies = Vec::new(alloc);
    if leaf.len() < 10 {
        return Ok(bodies);
    }
    let Some(version) = version_in(&leaf[..8]) else {
        return Err(LeafRefusal::NotJournal { at: 0 });
    };
    let mut gate = 8;
    'records: while leaf[gate] == 1 {
        let Some(body) = body_in(version, gate as u64, &leaf[gate + 1..]) else {
            return Err(LeafRefusal::NotJournal { at: gate as u64 });
        };
        if bodies.push(body).is_err() {
            return Err(LeafRefusal::NoMemory);
        }
        gate += 1 + version.width() as usize + body.len();
    }
    Ok(bodies)
}

/// Copies of the records of a leaf of either version, in order.
pub fn leaf_records(alloc: Global, leaf: &[u8]) -> Result<Seq<Octets>, LeafRefusal>
    ensures records { IfOk result (λ bodies. Lists bodies leaf.now) }
    ensures not_journal { IfErr result (λ e. (at : _) → e ≡ LeafRefusal.NotJournal at → IsBroken at leaf.now) }
{
    let lent = lend_records(alloc, leaf)?;
    let copies = copies_of(alloc, &lent);
    drop(lent);
    match copies {
        Ok(copies) => Ok(copies),
        Err(AllocError) => Err(LeafRefusal::NoMemory),
    }
}

fn copies_of(alloc: Global, bodies: &[&[u8]]) -> Result<Seq<Octets>, AllocError>
    ensures { IfOk result (λ copies. copies ≡ map (λ body. body.now) bodies.now) }
{
    let mut copies = Vec::with_capacity(alloc, bodies.len())?;
    for body in bodies {
        copies.push(Octets::of(Vec::from_slice(alloc, body)?))?;
    }
    Ok(Seq::of(copies))
}

/// A leaf with a list of records is broken at no place: the two answers of `leaf_records` exclude each other.
pub fn no_listed_leaf_is_broken()
    ensures { (leaf : List ℕ) (at : ℕ) (bodies : List (List ℕ)) → IsBroken at leaf → Lists bodies leaf → ⊥ }
{}

/// The body of the record at an open gate, where a whole record stands there.
fn body_in(version: Version, gate: u64, behind: &[u8]) -> Option<&[u8]>
    requires { gate < 2 ^ 32 }
    ensures some { IfSome result (λ body. IsBodyAt version gate behind.now body.now) }
    ensures none { IfNone result (HasNoBody version gate behind.now) }
{
    let width = version.width() as usize;
    let head = &behind[..width.min(behind.len())];
    let len = body_len(version, gate, behind.len() as u64, head)?;
    let rest = &behind[width..];
    Some(&rest[..len as usize])
}

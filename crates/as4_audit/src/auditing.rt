//! The audit of a leaf.

ghost use Rattle.std.specs.Prelude.{◌≡◌, [], ℕ, IfErr, IfOk, List, map};
ghost use Rattle.as4_audit.specs.Audit.{IsAuditOf, finding_of};
ghost use Rattle.as4_audit.specs.Taking.{IsWalk};
ghost use Rattle.as4_audit.specs.declared.finding.Audit.{Audit as AuditValue};
ghost use Rattle.exchange_model.specs.End.{empty_end};
ghost use Rattle.journal.specs.Leaf.{IsBroken, Lists};

use crate::collecting::{Collects, EventCount, KeptEvents};
use crate::finding::{Audit, AuditRefusal, Finding};
use crate::mode_list::copy_of;
use crate::walk::{Walked, walk};
use as4_values::{NoMemory, Seq};
use journal::{LeafRefusal, lend_records};
use msh_core::Core;
use pmodes::Modes;
use std::alloc::Global;

/// Audits the records of a leaf, of either version, of an endpoint with these modes. Keeps the events with their payloads.
pub fn audit(alloc: Global, modes: &Modes, leaf: &[u8]) -> Result<Audit, AuditRefusal>
    ensures says { IfOk result (IsAuditOf modes.now leaf.now) }
    ensures not_journal { IfErr result (λ e. (at : ℕ) → e ≡ AuditRefusal.NotJournal at → IsBroken at leaf.now) }
{
    let mut kept = KeptEvents {
        list: Vec::new(alloc),
    };
    match walk_leaf(alloc, modes, leaf, &mut kept) {
        Ok(Walked::Right { start }) => Ok(Audit::Yes {
            start,
            events: Seq::of(kept.list),
        }),
        Ok(Walked::Wrong { index }) => {
            drop(kept);
            Ok(Audit::No { index })
        }
        Err(refusal) => {
            drop(kept);
            Err(refusal)
        }
    }
}

/// Audits the same, and only counts the events. Only one record is decoded at a time, so it takes little memory.
pub fn check(alloc: Global, modes: &Modes, leaf: &[u8]) -> Result<Finding, AuditRefusal>
    ensures says { IfOk result (λ found. (said : AuditValue) × IsAuditOf modes.now leaf.now said × (found ≡ finding_of said)) }
    ensures not_journal { IfErr result (λ e. (at : ℕ) → e ≡ AuditRefusal.NotJournal at → IsBroken at leaf.now) }
{
    let mut counted = EventCount { count: 0 };
    match walk_leaf(alloc, modes, leaf, &mut counted) {
        Ok(Walked::Right { start }) => Ok(Finding::Yes {
            start,
            events: counted.count,
        }),
        Ok(Walked::Wrong { index }) => Ok(Finding::No { index }),
        Err(refusal) => Err(refusal),
    }
}

/// Goes through the records of a leaf, and adds their events.
fn walk_leaf<E: Collects>(
    alloc: Global,
    modes: &Modes,
    leaf: &[u8],
    events: &mut E,
) -> Result<Walked, AuditRefusal>
    requires none { E.holds events.old [] }
    ensures says { IfOk result (λ said. (bodies : List (List ℕ)) × Lists bodies leaf.now
        × IsWalk modes.now empty_end bodies (E.holds events.new) said) }
    ensures not_journal { IfErr result (λ e. (at : ℕ) → e ≡ AuditRefusal.NotJournal at → IsBroken at leaf.now) }
{
    let bodies = match lend_records(alloc, leaf) {
        Ok(bodies) => bodies,
        Err(LeafRefusal::NotJournal { at }) => return Err(AuditRefusal::NotJournal { at }),
        Err(LeafRefusal::NoMemory) => return Err(AuditRefusal::NoMemory),
    };
    let said = walk_anew(alloc, modes, &bodies, events);
    drop(bodies);
    match said {
        Ok(said) => Ok(said),
        Err(NoMemory) => Err(AuditRefusal::NoMemory),
    }
}

/// Goes through these records from a new endpoint on.
fn walk_anew<E: Collects>(
    alloc: Global,
    modes: &Modes,
    bodies: &[&[u8]],
    events: &mut E,
) -> Result<Walked, NoMemory>
    requires none { E.holds events.old [] }
    ensures { IfOk result (IsWalk modes.now empty_end (map (λ body. body.now) bodies.now) (E.holds events.new)) }
{
    let copy = copy_of(alloc, modes)?;
    let mut core = Core::new(alloc, copy);
    let said = walk(alloc, &mut core, modes, bodies, events);
    drop(core);
    said
}

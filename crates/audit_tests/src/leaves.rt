//! Leaves that a real office writes.
ghost use Rattle.std.specs.Prelude.{◌≡◌};

use crate::deeds::{Deed, event_of};
use crate::said::{MODES, Said, found_of, said_of};
use as4_audit::{Audit, AuditRefusal, audit};
use as4_disk::{Files, MemoryDisk, Part};
use as4_values::{Octets, Seq};
use exchange_model::Event;
use office::{Call, Office};
use pass_book::Pass;
use pmodes::Modes;
use std::alloc::Global;

/// Each kind of effect, in ten records.
const ALL: &[Deed] = &[
    Deed::Tick(1000),
    Deed::Submit(b"m"),
    Deed::Submit(b"p"),
    Deed::Submit(b"p"),
    Deed::Take,
    Deed::Pull,
    Deed::Pair(1),
    Deed::Receipt(0),
    Deed::Failure(2),
    Deed::Came,
    Deed::Confirm(0),
];

/// A message is delivered and confirmed, and the journal is compacted.
const COMPACTED: &[Deed] = &[Deed::Came, Deed::Confirm(0), Deed::Checkpoint];

/// The same at a moment, and with a submission; after it the message comes again, the clock goes on and the submission
/// is sent.
const GOES_ON: &[Deed] = &[
    Deed::Tick(1000),
    Deed::Submit(b"m"),
    Deed::Came,
    Deed::Confirm(0),
    Deed::Checkpoint,
    Deed::Came,
    Deed::Tick(2000),
    Deed::Take,
];

fn empty_disk(alloc: Global) -> MemoryDisk {
    let files = Files {
        selector: Octets::of(Vec::new(alloc)),
        leaf0: Octets::of(Vec::new(alloc)),
        leaf1: Octets::of(Vec::new(alloc)),
    };
    MemoryDisk::of(files, Seq::of(Vec::new(alloc)))
}

/// The leaf of a new office at which this happens; None if something goes wrong.
fn leaf_after(alloc: Global, deeds: &[Deed]) -> Option<Octets> {
    let modes = Modes::read(alloc, MODES).ok()?;
    match Office::open(alloc, empty_disk(alloc), modes) {
        Ok((mut office, mut pass)) => {
            let is_done = do_all(alloc, &mut office, &mut pass, deeds);
            drop(pass);
            let disk = office.into_disk();
            let leaf = if is_done { picked(alloc, &disk) } else { None };
            drop(disk);
            leaf
        }
        Err((_, disk)) => {
            drop(disk);
            None
        }
    }
}

fn do_all(
    alloc: Global,
    office: &mut Office<'_, MemoryDisk>,
    pass: &mut Pass<'_, Call>,
    deeds: &[Deed],
) -> bool
    requires book { pass.old.book ≡ office.old.book }
{
    for deed in deeds {
        if !does(alloc, office, pass, *deed) {
            return false;
        }
    }
    true
}

fn does(
    alloc: Global,
    office: &mut Office<'_, MemoryDisk>,
    pass: &mut Pass<'_, Call>,
    deed: Deed,
) -> bool
    requires book { pass.old.book ≡ office.old.book }
    ensures office { office.new.book ≡ office.old.book }
    ensures pass { pass.new.book ≡ pass.old.book }
{
    if deed == Deed::Checkpoint {
        return office.checkpoint(pass).is_ok();
    }
    let Some(event) = event_of(alloc, office.core(), deed) else {
        return false;
    };
    match office.step(pass, event) {
        Ok(reply) => {
            drop(reply);
            true
        }
        Err(_) => false,
    }
}

/// The bytes of the leaf that is picked.
fn picked(alloc: Global, disk: &MemoryDisk) -> Option<Octets> {
    let is_second = match disk.bytes(Part::Selector) {
        [byte, ..] => byte % 2 == 1,
        [] => false,
    };
    let part = if is_second { Part::Leaf1 } else { Part::Leaf0 };
    Some(Octets::of(Vec::from_slice(alloc, disk.bytes(part)).ok()?))
}

fn said_after(alloc: Global, deeds: &[Deed]) -> Option<Said> {
    let leaf = leaf_after(alloc, deeds)?;
    let said = said_of(alloc, leaf.bytes());
    drop(leaf);
    said
}

fn found_after(alloc: Global, deeds: &[Deed]) -> Option<Said> {
    let leaf = leaf_after(alloc, deeds)?;
    let found = found_of(alloc, leaf.bytes());
    drop(leaf);
    found
}

#[test]
fn all_effects_of_an_office_are_made(rt: HostRuntime) {
    assert!(rt; said_after(rt.alloc(), ALL) == Some(Said::Yes(0, 11)));
}

#[test]
fn a_compacted_leaf_has_no_events(rt: HostRuntime) {
    assert!(rt; said_after(rt.alloc(), COMPACTED) == Some(Said::Yes(1, 0)));
}

#[test]
fn events_after_a_compaction_are_found(rt: HostRuntime) {
    assert!(rt; said_after(rt.alloc(), GOES_ON) == Some(Said::Yes(3, 2)));
}

#[test]
fn check_counts_the_events_after_a_compaction(rt: HostRuntime) {
    assert!(rt; found_after(rt.alloc(), GOES_ON) == Some(Said::Yes(3, 2)));
}

/// What becomes of a leaf with a changed byte.
#[derive(Clone, Copy, PartialEq, Eq)]
enum Changed {
    /// It isn't audited as right.
    Refused,
    /// It is right, and its events make exactly its records at a new office.
    MadeAgain,
    /// It is right, and they don't.
    MadeOtherwise,
}

/// The number of single changed bytes, out of `count`, after which the leaf isn't audited as right. None if its events
/// don't make its records after one of the others.
fn refused_changes(alloc: Global, count: u64) -> Option<u64> {
    let modes = Modes::read(alloc, MODES).ok()?;
    let refused = refused_by(alloc, &modes, count);
    drop(modes);
    refused
}

fn refused_by(alloc: Global, modes: &Modes, count: u64) -> Option<u64> {
    let leaf = leaf_after(alloc, ALL)?;
    let refused = refused_among(alloc, modes, leaf.bytes(), count);
    drop(leaf);
    refused
}

fn refused_among(alloc: Global, modes: &Modes, leaf: &[u8], count: u64) -> Option<u64> {
    let mut state: u64 = 0x9e37_79b9_7f4a_7c15;
    let mut refused: u64 = 0;
    for _ in 0..count {
        state = state
            .wrapping_mul(6_364_136_223_846_793_005)
            .wrapping_add(1_442_695_040_888_963_407);
        if leaf.is_empty() {
            return None;
        }
        let place = (state >> 33) as usize % leaf.len();
        match change(alloc, modes, leaf, place, (state >> 56) as u8)? {
            Changed::Refused => refused = refused.saturating_add(1),
            Changed::MadeAgain => {}
            Changed::MadeOtherwise => return None,
        }
    }
    Some(refused)
}

/// Audits the leaf with another byte at this place.
fn change(alloc: Global, modes: &Modes, leaf: &[u8], place: usize, by: u8) -> Option<Changed> {
    let mut changed = Vec::from_slice(alloc, leaf).ok()?;
    if place < changed.len() {
        changed[place] ^= by | 1;
    }
    let became = audit_again(alloc, modes, changed.as_slice());
    drop(changed);
    became
}

fn audit_again(alloc: Global, modes: &Modes, leaf: &[u8]) -> Option<Changed> {
    match audit(alloc, modes, leaf) {
        Ok(Audit::Yes { events, .. }) => {
            let made = leaf_of(alloc, events.into_vec())?;
            let is_same = has_records(leaf, made.bytes());
            drop(made);
            Some(if is_same {
                Changed::MadeAgain
            } else {
                Changed::MadeOtherwise
            })
        }
        Ok(Audit::No { .. }) | Err(AuditRefusal::NotJournal { .. }) => Some(Changed::Refused),
        Err(AuditRefusal::NoMemory) => None,
    }
}

/// Whether a leaf has the records of another one, whose last byte is the closed gate.
fn has_records(leaf: &[u8], other: &[u8]) -> bool {
    match other {
        [front @ .., _] => leaf.starts_with(front),
        [] => true,
    }
}

/// The leaf of a new office at which these events come.
fn leaf_of(alloc: Global, events: Vec<Event>) -> Option<Octets> {
    let modes = Modes::read(alloc, MODES).ok()?;
    match Office::open(alloc, empty_disk(alloc), modes) {
        Ok((mut office, mut pass)) => {
            let is_done = step_all(&mut office, &mut pass, events);
            drop(pass);
            let disk = office.into_disk();
            let leaf = if is_done { picked(alloc, &disk) } else { None };
            drop(disk);
            leaf
        }
        Err((_, disk)) => {
            drop(events);
            drop(disk);
            None
        }
    }
}

fn step_all(
    office: &mut Office<'_, MemoryDisk>,
    pass: &mut Pass<'_, Call>,
    events: Vec<Event>,
) -> bool
    requires book { pass.old.book ≡ office.old.book }
{
    let mut is_done = true;
    for event in events {
        match office.step(pass, event) {
            Ok(reply) => drop(reply),
            Err(_) => is_done = false,
        }
    }
    is_done
}

#[test]
fn changed_bytes_are_found_or_change_no_event(rt: HostRuntime) {
    let refused = refused_changes(rt.alloc(), 10_000);
    assert!(rt; refused.is_some_and(|refused| refused > 5_000));
}

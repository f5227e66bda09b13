//! How the journal of an endpoint is compacted: the effects that make the endpoint again from the empty one, each in a
//! record of its own, replace all records. The payloads of a delivery are read from the record that has them.
ghost use Rattle.std.specs.Prelude.{◌≡◌, ◌⊎◌, ℕ, ◌+◌, ◌≤◌, ◌<◌, ◌^◌, ◌++◌, List, [], ◌∷◌, None, Some, IfErr, IfOk, IfSome, IsErrOf, IsNone, IsSomeAnd, OnErr, OnOk, false, length, slice_get, true, vec_capacity};
ghost use Rattle.as4_disk.specs.Image.{Image};
ghost use Rattle.as4_disk.specs.Leaving.{FirstThen, LeavesOnly};
ghost use Rattle.as4_effects.specs.declared.effect.Effect.{Effect as EffectValue};
ghost use Rattle.as4_flow.specs.Flow.{Told};
ghost use Rattle.event_code.specs.Spelled.{IsSpelledEffect};
ghost use Rattle.exchange_model.specs.Apply.{record_len};
ghost use Rattle.exchange_model.specs.End.{End};
ghost use Rattle.exchange_model.specs.Fold.{IsFolded, IsFoldedSize, resized};
ghost use Rattle.inbox.specs.Spots.{Spot};
ghost use Rattle.journal.specs.Faults.{CountsFault, IsReadFault};
ghost use Rattle.journal.specs.State.{HasFold, HasRecords};
ghost use Rattle.journal.specs.Store.{InVersion, OpensSettled};
ghost use Rattle.msh_core.specs.Folding.{IsOpenAt, IsShown};
ghost use Rattle.msh_journal.specs.Adding.{AddsPart, AddsRecord, FoldHasPayloads, HasAdded, IsGateOfOpen, IsToldApart, KeepsFold, KeepsNewFold, NewFoldHasPayloads};
ghost use Rattle.msh_journal.specs.Keeping.{StaysJournal};
ghost use Rattle.msh_journal.specs.Payloads.{HasPayloads, IsJournalWith};
ghost use Rattle.msh_recovery.specs.Opens.{IsAt, IsJournalOf};
ghost use Rattle.msh_recovery.specs.Records.{alone};
ghost use Rattle.payload_gates.specs.Gates.{moved};

use crate::append::frame_of;
use crate::fetch::fetch_delivery;
use as4_disk::Disk;
use as4_effects::Effect;
use as4_values::{MessageId, NoMemory, Seq};
use event_code::body_len;
use journal::{Frame, Journal, JournalFault};
use msh_core::{Core, Folding};
use std::alloc::Global;

/// The result of a compaction.
#[derive(Clone, Copy, Debug, PartialEq, Eq)]
pub enum Compaction {
    /// The journal has the records of the compaction.
    Done,
    /// The record at this gate doesn't have the payloads of the open entry that it delivered. The journal has the records
    /// that it had. Over a disk whose content is observable this doesn't happen.
    Lost { gate: u64 },
}

/// The result of adding one effect of a compaction.
#[derive(Clone, Copy, Debug, PartialEq, Eq)]
pub(crate) enum Part {
    /// Its record was added.
    Added,
    /// There is no such effect: the last one was added before.
    Past,
    /// As `Compaction::Lost`.
    Lost { gate: u64 },
}

/// Compacts the journal of the endpoint: afterwards it has version 2, its size is the endpoint's, and each open entry's
/// place is in the new leaf. Where there is no memory the compaction is dropped, and endpoint and journal are as they were.
pub fn fold_end<D: Disk>(
    alloc: Global,
    journal: &mut Journal<D>,
    core: &mut Core,
) -> Result<Compaction, JournalFault>
    requires no_fold { IsNone journal.old.fold }
    requires held { HasPayloads D.Disk core.old.end core.old.places journal.old }
    requires short { (size : ℕ) → IsFoldedSize core.old.end size → size < 2 ^ 32 }
    ensures kept { IfOk result (λ done. done ≡ Compaction.Done
        → IsJournalWith D.Disk core.new.end core.new.places journal.new) }
    ensures end { IfOk result (λ done. done ≡ Compaction.Done → (size : ℕ) → IsFoldedSize core.old.end size
        → core.new.end ≡ resized size core.old.end) }
    ensures modes { core.new.modes ≡ core.old.modes }
    ensures same { OnErr result (core.new ≡ core.old) }
    ensures starved { IsErrOf result JournalFault.NoMemory
        → (end : End) → IsJournalOf D.Disk end journal.old → IsJournalOf D.Disk end journal.new }
    ensures starved_held { IsErrOf result JournalFault.NoMemory → (end : End) (places : List Spot)
        → IsJournalWith D.Disk end places journal.old → IsJournalWith D.Disk end places journal.new }

    // A record without the payloads: endpoint and journal are as they were, and the disk isn't observable.
    ensures lost { IfOk result (λ done. (gate : ℕ) → done ≡ Compaction.Lost gate → (core.new ≡ core.old)
        × IsGateOfOpen core.old.end core.old.places gate × Told (D.seen journal.old.disk) (λ _. ⊥)) }
    ensures lost_kept { IfOk result (λ done. (gate : ℕ) → done ≡ Compaction.Lost gate
        → (end : End) → IsJournalOf D.Disk end journal.old → IsJournalOf D.Disk end journal.new) }
    ensures lost_held { IfOk result (λ done. (gate : ℕ) → done ≡ Compaction.Lost gate → (end : End) (places : List Spot)
        → IsJournalWith D.Disk end places journal.old → IsJournalWith D.Disk end places journal.new) }

    // Until the other leaf has been settled a crash leaves the records in their version, and from then on these or the
    // compacted endpoint.
    ensures any_moment { (bodies : List (List ℕ)) (size : ℕ) → HasRecords D.Disk journal.old bodies
        → IsFoldedSize core.old.end size
        → FirstThen D.Disk journal.old.disk journal.new.disk
        (InVersion journal.old.version (OpensSettled bodies))
        (λ (c : Image). InVersion journal.old.version (OpensSettled bodies) c ⊎ IsAt c (resized size core.old.end)) }
    ensures faults { IfErr result IsReadFault }
    ensures counts { CountsFault D.Disk journal.old.disk journal.new.disk result }
{
    let Ok(mut gates) = room_for_gates(alloc, core) else {
        return Err(JournalFault::NoMemory);
    };
    match write_fold(alloc, journal, core, &mut gates)? {
        Compaction::Done => {
            move_places(core, &gates);
            core.set_folded();
            Ok(Compaction::Done)
        }
        Compaction::Lost { gate } => Ok(Compaction::Lost { gate }),
    }
}

/// A list with room for the gate of each received message.
fn room_for_gates(alloc: Global, core: &Core) -> Result<Vec<u64>, NoMemory>
    ensures none { IfOk result (λ gates. gates.items ≡ []) }
    ensures room { IfOk result (λ gates. length core.now.end.inbox ≤ vec_capacity gates) }
{
    Ok(Vec::with_capacity(alloc, core.totals().inbox as usize)?)
}

/// Gives the places of the open entries these gates, in order.
fn move_places(core: &mut Core, gates: &[u64])
    requires counted { core.old.end.confirmed + length gates.now ≡ length core.old.end.inbox }
    requires placed { length core.old.places ≡ length core.old.end.inbox }
    ensures places { core.new.places ≡ moved core.old.end.confirmed gates.now core.old.places }
    ensures end { core.new.end ≡ core.old.end }
    ensures modes { core.new.modes ≡ core.old.modes }
{
    let mut n = core.totals().inbox - gates.len() as u64;
    'gates: for gate in gates {
        core.moved(n, *gate);
        n += 1;
    }
}

/// Replaces all records by those of the endpoint's compaction. Appends the gates of the deliveries among them to a list
/// that has none.
fn write_fold<D: Disk>(
    alloc: Global,
    journal: &mut Journal<D>,
    core: &Core,
    gates: &mut Vec<u64>,
) -> Result<Compaction, JournalFault>
    requires none { gates.old.items ≡ [] }
    requires no_fold { IsNone journal.old.fold }
    requires held { HasPayloads D.Disk core.now.end core.now.places journal.old }
    requires short { (size : ℕ) → IsFoldedSize core.now.end size → size < 2 ^ 32 }
    ensures kept { IfOk result (λ done. done ≡ Compaction.Done → (size : ℕ) × IsFoldedSize core.now.end size
        × IsJournalWith D.Disk (resized size core.now.end)
        (moved core.now.end.confirmed gates.new.items core.now.places) journal.new) }
    ensures counted { IfOk result (λ done. done ≡ Compaction.Done
        → (core.now.end.confirmed + length gates.new.items ≡ length core.now.end.inbox)
        × (length core.now.places ≡ length core.now.end.inbox)) }
    ensures starved { IsErrOf result JournalFault.NoMemory
        → (end : End) → IsJournalOf D.Disk end journal.old → IsJournalOf D.Disk end journal.new }
    ensures starved_held { IsErrOf result JournalFault.NoMemory → (end : End) (places : List Spot)
        → IsJournalWith D.Disk end places journal.old → IsJournalWith D.Disk end places journal.new }
    ensures lost { IfOk result (λ done. (gate : ℕ) → done ≡ Compaction.Lost gate
        → IsGateOfOpen core.now.end core.now.places gate × Told (D.seen journal.old.disk) (λ _. ⊥)) }
    ensures lost_kept { IfOk result (λ done. (gate : ℕ) → done ≡ Compaction.Lost gate
        → (end : End) → IsJournalOf D.Disk end journal.old → IsJournalOf D.Disk end journal.new) }
    ensures lost_held { IfOk result (λ done. (gate : ℕ) → done ≡ Compaction.Lost gate → (end : End) (places : List Spot)
        → IsJournalWith D.Disk end places journal.old → IsJournalWith D.Disk end places journal.new) }
    ensures any_moment { (bodies : List (List ℕ)) (size : ℕ) → HasRecords D.Disk journal.old bodies
        → IsFoldedSize core.now.end size
        → FirstThen D.Disk journal.old.disk journal.new.disk
        (InVersion journal.old.version (OpensSettled bodies))
        (λ (c : Image). InVersion journal.old.version (OpensSettled bodies) c ⊎ IsAt c (resized size core.now.end)) }
    ensures faults { IfErr result IsReadFault }
    ensures counts { CountsFault D.Disk journal.old.disk journal.new.disk result }
{
    // So the endpoint has a compaction, which leads to it.
    let _ = core.folded_size();
    journal.fold_start()?;
    match add_parts(alloc, journal, core, gates) {
        Ok(Compaction::Done) => {
            journal.fold_finish()?;
            Ok(Compaction::Done)
        }
        Ok(Compaction::Lost { gate }) => {
            journal.fold_drop();
            Ok(Compaction::Lost { gate })
        }
        Err(fault) => {
            journal.fold_drop();
            Err(fault)
        }
    }
}

/// Adds the records of the endpoint's compaction to a fold that has none, and the gates of its deliveries to a list that
/// has none.
fn add_parts<D: Disk>(
    alloc: Global,
    journal: &mut Journal<D>,
    core: &Core,
    gates: &mut Vec<u64>,
) -> Result<Compaction, JournalFault>
    requires none { (journal.old.fold ≡ Some 8) × (gates.old.items ≡ []) }
    requires held { NewFoldHasPayloads D.Disk core.now.end core.now.places journal.old }
    requires folded { (effects : List EffectValue) × IsFolded core.now.end effects }
    requires sound { core.now.end.confirmed ≤ length core.now.end.inbox }
    requires short { (size : ℕ) → IsFoldedSize core.now.end size → size < 2 ^ 32 }
    ensures added { IfOk result (λ done. done ≡ Compaction.Done → (effects : List EffectValue)
        × IsFolded core.now.end effects
        × HasAdded D.Disk journal.old journal.new effects gates.new.items) }
    ensures kept { IfOk result (λ _. KeepsNewFold D.Disk journal.old journal.new) }
    ensures lost { IfOk result (λ done. (gate : ℕ) → done ≡ Compaction.Lost gate
        → IsGateOfOpen core.now.end core.now.places gate × Told (D.seen journal.old.disk) (λ _. ⊥)) }
    ensures starved { IsErrOf result JournalFault.NoMemory → KeepsNewFold D.Disk journal.old journal.new }
    ensures any_moment { (bodies : List (List ℕ)) → HasFold D.Disk journal.old bodies []
        → LeavesOnly D.Disk journal.old.disk journal.new.disk
        (InVersion journal.old.version (OpensSettled bodies)) }
    ensures faults { IfErr result IsReadFault }
    ensures counts { CountsFault D.Disk journal.old.disk journal.new.disk result }
{
    let mut part = 0;
    'parts: loop {
        match add_part(alloc, journal, core, part, gates)? {
            Part::Added => part += 1,
            Part::Past => return Ok(Compaction::Done),
            Part::Lost { gate } => return Ok(Compaction::Lost { gate }),
        }
    }
}

/// Adds the record of the effect at this place of the endpoint's compaction, and its gate to the list if it is a
/// delivery.
fn add_part<D: Disk>(
    alloc: Global,
    journal: &mut Journal<D>,
    core: &Core,
    part: u64,
    gates: &mut Vec<u64>,
) -> Result<Part, JournalFault>
    requires room { (effects : List EffectValue) (effect : EffectValue) → IsFolded core.now.end effects
        → slice_get effects part ≡ Some effect
        → IsSomeAnd journal.old.fold (λ place. place + record_len (effect ∷ []) + 1 < 2 ^ 32) }
    requires held { FoldHasPayloads D.Disk core.now.end core.now.places journal.old }
    requires sound { core.now.end.confirmed ≤ length core.now.end.inbox }
    ensures added { IfOk result (λ more. more ≡ Part.Added → (effects : List EffectValue) × (effect : EffectValue)
        × IsFolded core.now.end effects × (slice_get effects part ≡ Some effect)
        × AddsPart D.Disk journal.old journal.new effect gates.old.items gates.new.items) }
    ensures past { IfOk result (λ more. more ≡ Part.Past → (effects : List EffectValue)
        × IsFolded core.now.end effects × (slice_get effects part ≡ None) × (journal.new ≡ journal.old)
        × (gates.new.items ≡ gates.old.items)) }
    ensures lost { IfOk result (λ more. (gate : ℕ) → more ≡ Part.Lost gate
        → IsGateOfOpen core.now.end core.now.places gate × Told (D.seen journal.old.disk) (λ _. ⊥)) }
    ensures kept { IfOk result (λ _. KeepsFold D.Disk journal.old journal.new) }
    ensures starved { IsErrOf result JournalFault.NoMemory → KeepsFold D.Disk journal.old journal.new }
    ensures any_moment { (bodies folded : List (List ℕ)) → HasFold D.Disk journal.old bodies folded
        → LeavesOnly D.Disk journal.old.disk journal.new.disk
        (InVersion journal.old.version (OpensSettled bodies)) }
    ensures faults { IfErr result IsReadFault }
    ensures counts { CountsFault D.Disk journal.old.disk journal.new.disk result }
{
    match core.folded(part) {
        Ok(Some(folding)) => add_folding(alloc, journal, folding, gates),
        Ok(None) => Ok(Part::Past),
        Err(_) => Err(JournalFault::NoMemory),
    }
}

/// Adds the record of an effect of a compaction, and its gate to the list if it is a delivery.
fn add_folding<D: Disk>(
    alloc: Global,
    journal: &mut Journal<D>,
    folding: Folding,
    gates: &mut Vec<u64>,
) -> Result<Part, JournalFault>
    requires shown { (end : End) × (places : List Spot) × (part : ℕ) × (effect : EffectValue)
        × IsShown end places part (Some effect) (Some folding) × FoldHasPayloads D.Disk end places journal.old
        × IsSomeAnd journal.old.fold (λ place. place + record_len (effect ∷ []) + 1 < 2 ^ 32) }
    ensures added { IfOk result (λ more. more ≡ Part.Added
        → (end : End) (places : List Spot) (part : ℕ) (effect : EffectValue)
        → IsShown end places part (Some effect) (Some folding) → IsToldApart end part effect
        → FoldHasPayloads D.Disk end places journal.old
        → AddsPart D.Disk journal.old journal.new effect gates.old.items gates.new.items) }
    ensures not_past { IfOk result (λ more. more ≡ Part.Past → ⊥) }
    ensures lost { IfOk result (λ more. (gate : ℕ) → more ≡ Part.Lost gate
        → (end : End) (places : List Spot) (part : ℕ) (effect : EffectValue)
        → IsShown end places part (Some effect) (Some folding) → FoldHasPayloads D.Disk end places journal.old
        → IsGateOfOpen end places gate × Told (D.seen journal.old.disk) (λ _. ⊥)) }
    ensures kept { IfOk result (λ _. KeepsFold D.Disk journal.old journal.new) }
    ensures starved { IsErrOf result JournalFault.NoMemory → KeepsFold D.Disk journal.old journal.new }
    ensures any_moment { (bodies folded : List (List ℕ)) → HasFold D.Disk journal.old bodies folded
        → LeavesOnly D.Disk journal.old.disk journal.new.disk
        (InVersion journal.old.version (OpensSettled bodies)) }
    ensures faults { IfErr result IsReadFault }
    ensures counts { CountsFault D.Disk journal.old.disk journal.new.disk result }
{
    match folding {
        Folding::Known(effect) => {
            add_known(alloc, journal, effect)?;
            Ok(Part::Added)
        }
        Folding::Open { id, gate, length } => {
            let added = add_open(alloc, journal, &id, gate, length, gates);
            drop(id);
            if added? {
                Ok(Part::Added)
            } else {
                Ok(Part::Lost { gate })
            }
        }
    }
}

/// Adds the record of this effect.
fn add_known<D: Disk>(
    alloc: Global,
    journal: &mut Journal<D>,
    effect: Effect,
) -> Result<(), JournalFault>
    requires room { IsSomeAnd journal.old.fold (λ place. place + record_len (effect ∷ []) + 1 < 2 ^ 32) }
    requires settled { Told (D.seen journal.old.disk) (λ _. (bodies : List (List ℕ)) × (folded : List (List ℕ))
        × HasFold D.Disk journal.old bodies folded) }
    ensures added { OnOk result (AddsRecord D.Disk journal.old journal.new effect) }
    ensures starved { IsErrOf result JournalFault.NoMemory → journal.new ≡ journal.old }
    ensures any_moment { (bodies folded : List (List ℕ)) → HasFold D.Disk journal.old bodies folded
        → LeavesOnly D.Disk journal.old.disk journal.new.disk
        (InVersion journal.old.version (OpensSettled bodies)) }
    ensures faults { IfErr result IsReadFault }
    ensures counts { CountsFault D.Disk journal.old.disk journal.new.disk result }
{
    let Ok(frame) = frame_of_one(alloc, effect) else {
        return Err(JournalFault::NoMemory);
    };
    let added = journal.fold_add(&frame);
    drop(frame);
    added?;
    Ok(())
}

/// Adds the record that delivers the open entry with this identifier again, and its gate to the list. The entry's payloads
/// are read from the record at `gate`; false where they aren't there.
fn add_open<D: Disk>(
    alloc: Global,
    journal: &mut Journal<D>,
    id: &MessageId,
    gate: u64,
    len: u64,
    gates: &mut Vec<u64>,
) -> Result<bool, JournalFault>
    requires room { IsSomeAnd journal.old.fold (λ place. place + (len + 9) + 1 < 2 ^ 32) }
    requires settled { Told (D.seen journal.old.disk) (λ _. (bodies : List (List ℕ)) × (folded : List (List ℕ))
        × HasFold D.Disk journal.old bodies folded) }
    ensures added { IfOk result (λ added. added ≡ true
        → (end : End) (places : List Spot) (part : ℕ) (effect : EffectValue)
        → IsOpenAt end places part effect id.now gate len → FoldHasPayloads D.Disk end places journal.old
        → AddsPart D.Disk journal.old journal.new effect gates.old.items gates.new.items) }
    ensures lost { IfOk result (λ added. added ≡ false
        → (end : End) (places : List Spot) (part : ℕ) (effect : EffectValue)
        → IsOpenAt end places part effect id.now gate len → FoldHasPayloads D.Disk end places journal.old
        → Told (D.seen journal.old.disk) (λ _. ⊥)) }
    ensures kept { IfOk result (λ _. KeepsFold D.Disk journal.old journal.new) }
    ensures starved { IsErrOf result JournalFault.NoMemory → KeepsFold D.Disk journal.old journal.new }
    ensures any_moment { (bodies folded : List (List ℕ)) → HasFold D.Disk journal.old bodies folded
        → LeavesOnly D.Disk journal.old.disk journal.new.disk
        (InVersion journal.old.version (OpensSettled bodies)) }
    ensures faults { IfErr result IsReadFault }
    ensures counts { CountsFault D.Disk journal.old.disk journal.new.disk result }
{
    let Some(frame) = fetch_frame(alloc, journal, id, gate, len)? else {
        return Ok(false);
    };
    let added = journal.fold_add(&frame);
    drop(frame);
    match gates.push(added?) {
        Ok(()) => Ok(true),
        Err(_) => Err(JournalFault::NoMemory),
    }
}

/// The record that delivers the message with this identifier alone, as the record at this gate delivers it. None where
/// that record doesn't, or the body hasn't this length.
fn fetch_frame<D: Disk>(
    alloc: Global,
    journal: &mut Journal<D>,
    id: &MessageId,
    gate: u64,
    len: u64,
) -> Result<Option<Frame>, JournalFault>
    ensures len { IfOk result (λ found. IfSome found (λ frame. length frame ≡ len)) }
    ensures frame { IfOk result (λ found. IfSome found (λ frame.
        (end : End) (places : List Spot) (part : ℕ) (effect : EffectValue)
        → IsOpenAt end places part effect id.now gate len → FoldHasPayloads D.Disk end places journal.old
        → Told (D.seen journal.old.disk) (λ _. (frame ≡ alone effect) × IsSpelledEffect effect))) }
    ensures none { IfOk result (λ found. found ≡ None
        → (end : End) (places : List Spot) (part : ℕ) (effect : EffectValue)
        → IsOpenAt end places part effect id.now gate len → FoldHasPayloads D.Disk end places journal.old
        → Told (D.seen journal.old.disk) (λ _. ⊥)) }
    ensures stays { StaysJournal D.Disk journal.old journal.new }
    ensures faults { IfErr result IsReadFault }
    ensures counts { CountsFault D.Disk journal.old.disk journal.new.disk result }
{
    let delivery = match fetch_delivery(alloc, journal, id, gate) {
        Ok(Some(delivery)) => delivery,
        Ok(None) => return Ok(None),
        Err(fault) => return Err(fault),
    };
    let Ok(frame) = frame_of_one(alloc, Effect::Delivered(delivery)) else {
        return Err(JournalFault::NoMemory);
    };
    if frame.body_len() == len {
        return Ok(Some(frame));
    }
    drop(frame);
    Ok(None)
}

/// The record of one effect.
fn frame_of_one(alloc: Global, effect: Effect) -> Result<Frame, NoMemory>
    ensures body { IfOk result (λ frame. frame ≡ alone effect) }
    ensures spelled { IfOk result (λ _. IsSpelledEffect effect) }
{
    let effects = Seq::of(only(alloc, effect)?);
    // So it isn't too long for a record.
    let _ = body_len(&effects);
    let frame = frame_of(alloc, &effects);
    drop(effects);
    match frame? {
        Some(frame) => Ok(frame),
        None => unreachable!(),
    }
}

/// A list of this value alone. Generic, so that the drop glue of an effect isn't proved here.
fn only<T: Drop>(alloc: Global, item: T) -> Result<Vec<T>, NoMemory>
    ensures { IfOk result (λ list. list.items ≡ item ∷ []) }
{
    let mut list = match Vec::with_capacity(alloc, 1) {
        Ok(list) => list,
        Err(_) => {
            drop(item);
            return Err(NoMemory);
        }
    };
    list.push(item)?;
    Ok(list)
}

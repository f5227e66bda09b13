//! How the payloads of a received message are read.
ghost use Rattle.std.specs.Prelude.{◌≡◌, ℕ, ◌≤◌, ◌++◌, ◌∷◌, List, None, Some, IfErr, IfOk, IfSome, IsTrue, ◌<◌, length, map, position, slice_get, vec_len};
ghost use Rattle.as4_disk.specs.Leaving.{Quiet};
ghost use Rattle.as4_effects.specs.Effects.{effects_body};
ghost use Rattle.as4_effects.specs.declared.effect.Effect.{Effect as EffectValue};
ghost use Rattle.as4_flow.specs.Flow.{Told};
ghost use Rattle.as4_values.specs.Pairing.{pair};
ghost use Rattle.exchange_model.specs.End.{End};
ghost use Rattle.exchange_model.specs.declared.inbox_entry.InboxEntry.{InboxEntry};
ghost use Rattle.inbox.specs.Spots.{Spot};
ghost use Rattle.journal.specs.Faults.{CountsFault, IsReadFault};
ghost use Rattle.journal.specs.State.{HasRecords};
ghost use Rattle.msh_journal.specs.Fetching.{delivers};
ghost use Rattle.msh_journal.specs.Keeping.{StaysJournal};
ghost use Rattle.msh_journal.specs.Payloads.{IsJournalWith, gate_at};
ghost use Rattle.msh_recovery.specs.Opens.{IsJournalOf};
ghost use Rattle.msh_recovery.specs.Records.{IsBodyOf};
ghost use Rattle.payload_gates.specs.Gates.{delivery_in};

use as4_disk::Disk;
use as4_effects::{Delivery, Effect};
use as4_values::{MessageId, NoMemory, Payload, PlainData, Seq, UserHeader};
use event_code::{BodyRefusal, one_body, read_body};
use journal::{Journal, JournalFault};
use std::alloc::Global;

/// Reads the payloads of the open entry with this header, from the record at this gate. `None` where that record doesn't
/// deliver it: over a disk whose content is observable this doesn't happen.
pub fn fetch_payloads<D: Disk>(
    alloc: Global,
    journal: &mut Journal<D>,
    header: &UserHeader,
    gate: u64,
) -> Result<Option<Seq<Payload>>, JournalFault>
    ensures found { IfOk result (λ found. (end : End) (places : List Spot) (n len : ℕ) (entry : InboxEntry)
        → IsJournalWith D.Disk end places journal.old → end.confirmed ≤ n
        → slice_get end.inbox n ≡ Some entry → entry.header ≡ header.now
        → slice_get places n ≡ Some (record { gate = gate; length = len })
        → Told (D.seen journal.old.disk) (λ _. found ≡ Some entry.payloads)) }
    ensures paired { IfOk result (λ found. IfSome found (λ payloads. IsTrue (pair header.now.parts payloads))) }
    ensures held { (end : End) (places : List Spot) → IsJournalWith D.Disk end places journal.old
        → IsJournalWith D.Disk end places journal.new }
    ensures kept { (end : End) → IsJournalOf D.Disk end journal.old → IsJournalOf D.Disk end journal.new }
    ensures stays { StaysJournal D.Disk journal.old journal.new }
    ensures quiet { Quiet D.Disk journal.old.disk journal.new.disk }
    ensures faults { IfErr result IsReadFault }
    ensures counts { CountsFault D.Disk journal.old.disk journal.new.disk result }
{
    let delivery = match fetch_delivery(alloc, journal, &header.id, gate) {
        Ok(Some(delivery)) => delivery,
        Ok(None) => return Ok(None),
        Err(fault) => return Err(fault),
    };
    Ok(payloads_of(delivery, header))
}

/// The payloads of the delivery; none where it has another header.
fn payloads_of(delivery: Delivery, header: &UserHeader) -> Option<Seq<Payload>>
    ensures found { delivery.header ≡ header.now → result ≡ Some delivery.payloads }
    ensures paired { IfSome result (λ payloads. IsTrue (pair header.now.parts payloads)) }
{
    let same = delivery.header.same(header);
    let Delivery { header, payloads } = delivery;
    drop(header);
    if same {
        Some(payloads)
    } else {
        drop(payloads);
        None
    }
}

/// Reads the first delivery of this identifier in the record at this gate. None where there is none, or no record.
pub(crate) fn fetch_delivery<D: Disk>(
    alloc: Global,
    journal: &mut Journal<D>,
    id: &MessageId,
    gate: u64,
) -> Result<Option<Delivery>, JournalFault>
    ensures found { IfOk result (λ found. (before later : List (List EffectValue)) (effects : List EffectValue)
        → HasRecords D.Disk journal.old (map effects_body (before ++ effects ∷ later))
        → IsBodyOf effects (effects_body effects) → gate ≡ gate_at journal.old.version before
        → found ≡ delivery_in id.now effects) }
    ensures stays { StaysJournal D.Disk journal.old journal.new }
    ensures faults { IfErr result IsReadFault }
    ensures counts { CountsFault D.Disk journal.old.disk journal.new.disk result }
{
    let body = match journal.fetch(alloc, gate) {
        Ok(body) => body,
        Err(fault) => return Err(fault),
    };
    let read = delivery_of(alloc, body.bytes(), id);
    drop(body);
    match read {
        Ok(found) => Ok(found),
        Err(_) => Err(JournalFault::NoMemory),
    }
}

/// The first delivery of this identifier among the effects with this body. None where there is none, or the bytes aren't
/// a body.
fn delivery_of(alloc: Global, body: &[u8], id: &MessageId) -> Result<Option<Delivery>, NoMemory>
    ensures { IfOk result (λ found. (effects : List EffectValue) → IsBodyOf effects body.now
        → found ≡ delivery_in id.now effects) }
{
    one_body();
    match read_body(alloc, body) {
        Ok(effects) => Ok(first_delivery(effects, id)),
        Err(BodyRefusal::NotBody) => Ok(None),
        Err(BodyRefusal::NoMemory) => Err(NoMemory),
    }
}

/// The first delivery of this identifier.
fn first_delivery(effects: Seq<Effect>, id: &MessageId) -> Option<Delivery>
    ensures { result ≡ delivery_in id.now effects }
{
    let Some(place) = delivery_place(effects.items(), id) else {
        drop(effects);
        return None;
    };
    match take_at(effects.into_vec(), place) {
        Effect::Delivered(delivery) => Some(delivery),
        other => {
            drop(other);
            None
        }
    }
}

/// The place of the first delivery of this identifier.
fn delivery_place(effects: &[Effect], id: &MessageId) -> Option<usize>
    ensures { result ≡ position (delivers id.now) effects.now }
{
    effects.iter().position(|effect| is_delivery_of(effect, id))
}

/// Whether the effect delivers a message with this identifier.
fn is_delivery_of(effect: &Effect, id: &MessageId) -> bool
    ensures { result ≡ delivers id.now effect.now }
{
    match effect {
        Effect::Delivered(delivery) => delivery.header.id.same(id),
        _ => false,
    }
}

/// The item at this place. Generic, so that the drop glue of an effect isn't proved here.
fn take_at<T: Drop>(mut items: Vec<T>, place: usize) -> T
    requires { place < vec_len items }
    ensures { slice_get items.items place ≡ Some result }
{
    let item = items.swap_remove(place);
    drop(items);
    item
}

//! Compaction: the effects that make an endpoint again from the empty endpoint, each in a record of its own. A
//! compacted journal has only these, and is usually shorter than a journal that grew with every event.
//!
//!     place                  effect      of
//!     from 0                 Carried     each submission with its state, in order
//!     after them             Kept        each confirmed message, its header alone
//!     after them             Delivered   each other received message
//!     after them, if set     Ticked      the clock
//!
//! The effects are made one at a time, so no list of them has to be kept in memory. The payloads of a delivery aren't in
//! memory at all: `folded` says which record has them.

ghost use Rattle.std.specs.Prelude.{◌≡◌, ℕ, ◌+◌, ◌<◌, ◌≤◌, IfOk, List, Some, drop, length, option_map, slice_get, take};
ghost use Rattle.std.specs.List.{sum_by};
ghost use Rattle.as4_effects.specs.declared.effect.Effect.{Effect as EffectValue};
ghost use Rattle.msh_state.specs.Places.{EachOpen, IsMeasured};
ghost use Rattle.msh_state.specs.Rooms.{new_tables};
ghost use Rattle.exchange_model.specs.End.{End};
ghost use Rattle.exchange_model.specs.Fold.{CarriesOver, IsFolded, IsFoldedSize, KeepsHeader, SetsClock, folded_size, resized};
ghost use Rattle.exchange_model.specs.Questions.{sent_at};
ghost use Rattle.fold_laws.specs.Reached.{IsReached};
ghost use Rattle.fold_laws.specs.Written.{CanBeWritten};
ghost use Rattle.msh_core.specs.Folding.{CanBeReplayed, IsOpenEntry, IsShown, OneFor, capped, carried_len, clock_len, delivered_len, kept_len, len_at};

use crate::machine::{Core, MAX_JOURNAL};
use crate::small::SMALL_RECORD;
use as4_effects::{Carried, Effect, Kept, Measured, Tick};
use as4_values::{MessageId, NoMemory, PlainData, try_clone_two};
use msh_state::{EndTables, Held};
use std::alloc::Global;

/// The bytes of a journal before its first record.
const JOURNAL_HEAD: u64 = 9;

/// The bytes of a record in addition to its body: its gate (the commit byte), and the length of the body.
const BESIDE_BODY: u64 = 9;

/// The bytes of the record of one effect in addition to the effect: also the count of its effects.
const BESIDE_EFFECT: u64 = 11;

/// The bytes of a carried submission between its fields and its mark: the number of tries, and the time of the last
/// one.
const TRIES_AND_LAST: u64 = 12;

/// An effect of a compaction.
#[derive(Drop)]
pub enum Folding {
    /// The delivery of an open entry of the inbox.
    Open {
        /// The entry's identifier.
        id: MessageId,
        /// The gate of the record that has its payloads.
        gate: u64,
        /// The length of a body that delivers the entry alone.
        length: u64,
    },
    /// Any other effect.
    Known(Effect),
}

impl Core {
    /// The effect at this place of the endpoint's compaction, from 0; None past the last.
    pub fn folded(&self, part: u64) -> Result<Option<Folding>, NoMemory>
        ensures { IfOk result (λ found. (effects : List EffectValue) × IsFolded self.now.end effects
            × IsShown self.now.end self.now.places part (slice_get effects part) found) }
    {
        let submitted = self.tables.submitted();
        if part < submitted {
            let carried = carried_over(self.alloc, &self.tables, part)?;
            return Ok(known(carried));
        }
        let place = part - submitted;
        if place < self.tables.confirmed() {
            let kept = kept_header(self.alloc, &self.tables, place)?;
            return Ok(known(kept));
        }
        let received = self.tables.received();
        if place < received {
            return open_entry(self.alloc, &self.tables, place);
        }
        let clock = set_clock(&self.tables, place - received);
        Ok(known(clock))
    }

    /// The size of a journal that has only the endpoint's compaction, at most `u64::MAX`. Takes no memory.
    pub fn folded_size(&self) -> u64
        ensures reached { IsReached self.now.end }
        ensures measured { EachOpen IsMeasured self.now.end.confirmed self.now.places self.now.end.inbox }
        ensures size { (size : ℕ) × IsFoldedSize self.now.end size × (result ≡ capped size) }
        ensures only { (size : ℕ) → IsFoldedSize self.now.end size → result ≡ capped size }
    {
        let sum = submissions_size(&self.tables, JOURNAL_HEAD);
        let sum = taken_over_size(&self.tables, sum);
        let sum = waiting_size(&self.tables, sum);
        clock_size(&self.tables, sum)
    }

    /// Sets the journal's size to that of the endpoint's compaction. Takes no memory.
    pub fn set_folded(&mut self)
        requires { (size : ℕ) → IsFoldedSize self.old.end size → size ≤ MAX_JOURNAL }
        ensures end { (size : ℕ) → IsFoldedSize self.old.end size → self.new.end ≡ resized size self.old.end }
        ensures places { self.new.places ≡ self.old.places }
        ensures modes { self.new.modes ≡ self.old.modes }
    {
        let size = self.folded_size();
        self.tables.resize(size);
    }
}

/// A law: a compaction that fits a journal can be replayed on a new core, each effect in a record of its own. `replay`
/// may be called with each, none is unfit, and they lead to the same endpoint, except for its journal's size.
pub fn a_fold_can_be_replayed()
    ensures { (end : End) (effects : List EffectValue) → IsReached end → IsFolded end effects → folded_size effects ≤ MAX_JOURNAL
        → CanBeReplayed effects new_tables.end (resized (folded_size effects) end) }
{}

/// The submission of this number with its state.
fn carried_over(alloc: Global, tables: &EndTables, number: u64) -> Result<Option<Effect>, NoMemory>
    ensures { IfOk result (λ found. OneFor CarriesOver (sent_at number tables.now.end.sent) found) }
{
    let Some(submission) = tables.get(number) else {
        return Ok(None);
    };
    let Some((tries, last)) = tables.tried(number) else {
        return Ok(None);
    };
    let Some(mark) = tables.mark(number) else {
        return Ok(None);
    };
    let (submission, standing) = try_clone_two(alloc, submission, mark)?;
    Ok(Some(Effect::Carried(Carried {
        submission,
        tries,
        last,
        standing,
    })))
}

/// The header of the confirmed message at this place.
fn kept_header(alloc: Global, tables: &EndTables, place: u64) -> Result<Option<Effect>, NoMemory>
    requires written { CanBeWritten tables.now.end }
    requires taken_over { place < tables.now.end.confirmed }
    ensures { IfOk result (λ found. OneFor KeepsHeader (slice_get tables.now.end.inbox place) found) }
{
    let Some(header) = tables.header(place) else {
        return Ok(None);
    };
    let header = header.try_clone(alloc)?;
    Ok(Some(Effect::Kept(Kept { header })))
}

/// An effect that is known, if there is one.
fn known(effect: Option<Effect>) -> Option<Folding>
    ensures { result ≡ option_map Folding.Known effect }
{
    match effect {
        Some(effect) => Some(Folding::Known(effect)),
        None => None,
    }
}

/// The open entry at this place.
fn open_entry(alloc: Global, tables: &EndTables, place: u64) -> Result<Option<Folding>, NoMemory>
    requires waits { tables.now.end.confirmed ≤ place }
    requires there { place < length tables.now.end.inbox }
    ensures { IfOk result (IsOpenEntry tables.now place) }
{
    match tables.read(place) {
        Held::Entry {
            header,
            gate,
            length,
        } => {
            let id = header.id.try_clone(alloc)?;
            Ok(Some(Folding::Open { id, gate, length }))
        }
        Held::Gone | Held::NoEntry => Ok(None),
    }
}

/// The clock, at the first place after all others, unless it was never set.
fn set_clock(tables: &EndTables, place: u64) -> Option<Effect>
    ensures { (clock : List EffectValue) × SetsClock tables.now.end.moment clock × (result ≡ slice_get clock place) }
{
    let moment = tables.moment();
    if place > 0 || moment == 0 {
        return None;
    }
    Some(Effect::Ticked(Tick { moment }))
}

/// The sum plus the bytes of the records of all submissions.
fn submissions_size(tables: &EndTables, sum: u64) -> u64
    ensures { result ≡ capped (sum + sum_by carried_len tables.now.end.sent) }
{
    let mut total = sum;
    for number in 0..tables.submitted() {
        total = carried_size(tables, number, total);
    }
    total
}

/// The sum plus the bytes of the record of this submission.
fn carried_size(tables: &EndTables, number: u64, sum: u64) -> u64
    ensures { result ≡ capped (sum + len_at carried_len (sent_at number tables.now.end.sent)) }
{
    let Some(submission) = tables.get(number) else {
        return sum;
    };
    let Some(mark) = tables.mark(number) else {
        return sum;
    };
    let sum = submission.add_len(sum).saturating_add(TRIES_AND_LAST);
    mark.add_len(sum).saturating_add(BESIDE_EFFECT)
}

/// The sum plus the bytes of the records of all confirmed messages.
fn taken_over_size(tables: &EndTables, sum: u64) -> u64
    ensures { result ≡ capped (sum + sum_by kept_len (take tables.now.end.confirmed tables.now.end.inbox)) }
{
    let mut total = sum;
    for place in 0..tables.confirmed() {
        total = kept_size(tables, place, total);
    }
    total
}

/// The sum plus the bytes of the record of the header of the message at this place.
fn kept_size(tables: &EndTables, place: u64, sum: u64) -> u64
    ensures { result ≡ capped (sum + len_at kept_len (slice_get tables.now.end.inbox place)) }
{
    let Some(header) = tables.header(place) else {
        return sum;
    };
    header
        .add_len(sum.saturating_add(1))
        .saturating_add(BESIDE_EFFECT)
}

/// The sum plus the bytes of the records of all other messages.
fn waiting_size(tables: &EndTables, sum: u64) -> u64
    requires { EachOpen IsMeasured tables.now.end.confirmed tables.now.places tables.now.end.inbox }
    ensures { result ≡ capped (sum + sum_by delivered_len (drop tables.now.end.confirmed tables.now.end.inbox)) }
{
    let confirmed = tables.confirmed();
    let mut total = sum;
    for count in 0..tables.received() - confirmed {
        total = delivered_size(tables, confirmed + count, total);
    }
    total
}

/// The sum plus the bytes of the record of the message at this place, which isn't confirmed.
fn delivered_size(tables: &EndTables, place: u64, sum: u64) -> u64
    requires waits { tables.now.end.confirmed ≤ place }
    requires measured { EachOpen IsMeasured tables.now.end.confirmed tables.now.places tables.now.end.inbox }
    ensures { result ≡ capped (sum + len_at delivered_len (slice_get tables.now.end.inbox place)) }
{
    match tables.read(place) {
        Held::Entry { length, .. } => sum.saturating_add(length).saturating_add(BESIDE_BODY),
        Held::Gone | Held::NoEntry => sum,
    }
}

/// The sum plus the bytes of the clock's record.
fn clock_size(tables: &EndTables, sum: u64) -> u64
    ensures { result ≡ capped (sum + clock_len tables.now.end.moment) }
{
    if tables.moment() == 0 {
        return sum;
    }
    sum.saturating_add(SMALL_RECORD)
}

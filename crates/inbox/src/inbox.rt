//! The entries of an inbox, by number, in the order in which they were received:
//!
//!     0 .. confirmed    confirmed: the header stays, so that the identifier is known for good
//!     confirmed .. len  open: the header, and where the payloads are
//!
//! The payloads themselves are on the disk. Proofs alone see them here, so contracts still speak of whole messages.

ghost use Rattle.std.specs.Prelude.{◌≡◌, ◌+◌, ◌<◌, ◌≤◌, ◌++◌, ◌∷◌, [], List, None, Some, false, length, option_copied, option_map, set, slice_get, OnOk, IsSome, vec_len};
ghost use Rattle.std.specs.Vec.{vec_capacity};
ghost use Rattle.exchange_model.specs.Apply.{emptied};
ghost use Rattle.exchange_model.specs.Questions.{is_known};
ghost use Rattle.inbox.specs.Deliveries.{Deliveries};
ghost use Rattle.inbox.specs.Entries.{entry_of, spot_of};
ghost use Rattle.inbox.specs.Reading.{IsHeld};
ghost use Rattle.inbox.specs.Spots.{Spot};

use crate::entry::Entry;
use crate::held::Held;
use crate::identifiers::Identifiers;
use as4_values::{MessageId, NoMemory, Payload, Seq, UserHeader};
use shadow::Shadow;
use std::alloc::Global;
use std::marker::Model;

/// The received messages.
#[derive(Drop)]
pub struct Inbox {
    entries: Vec<Entry>,
    /// The number of confirmed entries.
    confirmed: usize,
    /// The identifiers of the entries, and the reservation for one more entry.
    identifiers: Identifiers,
}

impl Model for Inbox {
    ghost use Rattle.std.specs.Prelude.{◌<◌, ◌≤◌, IsSome, map, vec_len};
    ghost use Rattle.std.specs.Vec.{vec_capacity};
    ghost use Rattle.exchange_model.specs.Apply.{emptied};
    ghost use Rattle.inbox.specs.Deliveries.{Deliveries};
    ghost use Rattle.inbox.specs.Entries.{entry_of, spot_of};
    ghost use Rattle.inbox.specs.Holding.{AreOf};

    ghost Value = { Deliveries };

    ghost view = { λ i. record {
      entries = emptied i.confirmed (map entry_of i.entries.items);
      places = map spot_of i.entries.items;
      confirmed = i.confirmed;
      room = i.identifiers.room;
    } };

    ghost invariant = { λ i. (i.confirmed ≤ vec_len i.entries)
        × (IsSome i.identifiers.room → vec_len i.entries < vec_capacity i.entries)
        × AreOf i.identifiers (map entry_of i.entries.items) };
}

impl Inbox {
    #[tactic(auto, using(crate::proofs::HoldingLemmas::none_held), unfolding(exchange_model::specs::Apply::emptied))]
    pub fn new(alloc: Global) -> Inbox
        ensures { result ≡ record { entries = []; places = []; confirmed = 0; room = None } }
    {
        Inbox {
            entries: Vec::new(alloc),
            confirmed: 0,
            identifiers: Identifiers::new(alloc),
        }
    }

    /// Reserves room for one entry with this identifier. An earlier reservation ends.
    pub fn reserve(&mut self, id: &MessageId) -> Result<(), NoMemory>
        ensures ok { OnOk result (self.new.room ≡ Some id.now) }
        ensures entries { self.new.entries ≡ self.old.entries }
        ensures places { self.new.places ≡ self.old.places }
        ensures confirmed { self.new.confirmed ≡ self.old.confirmed }
    {
        self.entries.reserve(1)?;
        self.identifiers.reserve(id)
    }

    /// Adds a message that the record at this gate delivers. The length is that of a body which delivers it alone.
    /// Only proofs read the payloads. Takes no memory.
    pub fn commit(&mut self, header: UserHeader, payloads: &Seq<Payload>, gate: u64, length: u64)
        requires room { self.old.room ≡ Some header.id }
        requires new { is_known header.id self.old.entries ≡ false }
        ensures entries { self.new.entries ≡ self.old.entries ++ record { header = header; payloads = payloads.now } ∷ [] }
        ensures places { self.new.places ≡ self.old.places ++ record { gate = gate; length = length } ∷ [] }
        ensures confirmed { self.new.confirmed ≡ self.old.confirmed }
    {
        self.push(Entry {
            header,
            gate,
            length,
            payloads: Shadow::of(payloads),
        });
    }

    /// Adds the header of a message that was received and confirmed; takes no memory.
    pub fn keep(&mut self, header: UserHeader)
        requires room { self.old.room ≡ Some header.id }
        requires new { is_known header.id self.old.entries ≡ false }
        requires all { self.old.confirmed ≡ length self.old.entries }
        ensures entries { self.new.entries ≡ self.old.entries ++ record { header = header; payloads = [] } ∷ [] }
        ensures places { self.new.places ≡ self.old.places ++ record { gate = 0; length = 0 } ∷ [] }
        ensures confirmed { self.new.confirmed ≡ self.old.confirmed + 1 }
    {
        let _before = &self.entries;
        self.push(Entry {
            header,
            gate: 0,
            length: 0,
            payloads: Shadow::none(),
        });
        self.confirmed += 1;
    }

    /// Adds an entry, and uses up the reservation.
    #[tactic(auto, using(crate::proofs::EmptiedLemmas::entries_push, crate::proofs::EmptiedLemmas::places_push))]
    fn push(&mut self, entry: Entry)
        requires { self.old.room ≡ Some entry.header.id }
        ensures entries { self.new.entries ≡ self.old.entries ++ entry_of entry ∷ [] }
        ensures places { self.new.places ≡ self.old.places ++ spot_of entry ∷ [] }
        ensures confirmed { self.new.confirmed ≡ self.old.confirmed }
        ensures room { self.new.room ≡ None }
    {
        self.identifiers.hold();
        self.entries.push_reserved(entry);
    }

    /// Whether a message with this identifier was received, confirmed or not.
    #[tactic(auto, using(crate::proofs::HoldingLemmas::held_seen))]
    pub fn holds(&self, id: &MessageId) -> bool
        ensures { result ≡ is_known id.now self.now.entries }
    {
        let _entries = &self.entries;
        self.identifiers.contains(id)
    }

    /// The number of received messages.
    #[tactic(auto, using(crate::proofs::EmptiedLemmas::seen_length, crate::proofs::EmptiedLemmas::seen_places))]
    pub fn len(&self) -> u64
        ensures value { result ≡ length self.now.entries }
        ensures placed { result ≡ length self.now.places }
    {
        self.entries.len() as u64
    }

    /// The number of confirmed messages: these are the first.
    #[tactic(auto, using(crate::proofs::EmptiedLemmas::seen_length))]
    pub fn confirmed(&self) -> u64
        ensures value { result ≡ self.now.confirmed }
        ensures within { self.now.confirmed ≤ length self.now.entries }
    {
        self.confirmed as u64
    }

    /// The message of this number, from 0: its header, and where its payloads are.
    #[tactic(auto, using(crate::proofs::EmptiedLemmas::header_at, crate::proofs::EmptiedLemmas::place_at, crate::proofs::EmptiedLemmas::none_past))]
    pub fn read(&self, n: u64) -> Held<'_>
        ensures { IsHeld self.now n result }
    {
        if n < self.confirmed() {
            return Held::Gone;
        }
        match entry_at(&self.entries, n) {
            Some(entry) => Held::Entry {
                header: &entry.header,
                gate: entry.gate,
                length: entry.length,
            },
            None => Held::NoEntry,
        }
    }

    /// The header of the message of this number, from 0, confirmed or not.
    #[tactic(auto, using(crate::proofs::EmptiedLemmas::seen_header))]
    pub fn header(&self, n: u64) -> Option<&UserHeader>
        ensures { option_copied result ≡ option_map (λ entry. entry.header) (slice_get self.now.entries n) }
    {
        let entry = entry_at(&self.entries, n)?;
        Some(&entry.header)
    }

    /// Confirms the messages up to and including this one: their payloads no longer count. Takes no memory.
    #[tactic(auto, using(crate::proofs::EmptiedLemmas::seen_more))]
    pub fn confirm(&mut self, upto: u64)
        requires open { self.old.confirmed ≤ upto }
        requires there { upto < length self.old.entries }
        ensures entries { self.new.entries ≡ emptied (upto + 1) self.old.entries }
        ensures places { self.new.places ≡ self.old.places }
        ensures confirmed { self.new.confirmed ≡ upto + 1 }
        ensures room { self.new.room ≡ self.old.room }
    {
        let count = self.len();
        prove!(upto < count);
        self.confirmed = upto as usize + 1;
    }

    /// The payloads of the message of this number were moved: the record at this gate delivers it now.
    #[tactic(auto, using(crate::proofs::EmptiedLemmas::moved_entry, crate::proofs::EmptiedLemmas::moved_place))]
    pub fn moved(&mut self, n: u64, gate: u64)
        requires { n < length self.old.places }
        ensures entries { self.new.entries ≡ self.old.entries }
        ensures places { (p : Spot) → slice_get self.old.places n ≡ Some p
            → self.new.places ≡ set self.old.places n (record p { gate = gate }) }
        ensures confirmed { self.new.confirmed ≡ self.old.confirmed }
        ensures room { self.new.room ≡ self.old.room }
    {
        self.entries[n as usize].gate = gate;
    }
}

/// The entry of this number.
fn entry_at(entries: &[Entry], n: u64) -> Option<&Entry>
    ensures { option_copied result ≡ slice_get entries.now n }
{
    entries.get(n as usize)
}

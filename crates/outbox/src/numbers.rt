//! The identifiers of submissions, each at the place of its number. Looking one up takes constant time. The handler
//! makes these identifiers itself, so nobody else chooses what is hashed.

ghost use Rattle.std.specs.Prelude.{◌≡◌, ◌++◌, ◌∷◌, [], List, Some, None, length, option_map, OnOk};
ghost use Rattle.exchange_model.specs.Numbered.{AreNumberedFrom};
ghost use Rattle.exchange_model.specs.Questions.{sent_of};
ghost use Rattle.exchange_model.specs.declared.sent.Sent.{Sent};
ghost use Rattle.outbox.specs.Numbering.{AreNumbers, id_of};

use as4_values::{MessageId, NoMemory, PlainData};
use indexmap::IndexSet;
use std::alloc::Global;

/// Identifiers by number, followed by the one that room is reserved for.
#[derive(Drop)]
pub struct Numbers {
    alloc: Global,
    ids: IndexSet<MessageId>,
    room: Option<MessageId>,
}

impl Numbers {
    pub fn new(alloc: Global) -> Numbers
        ensures none { AreNumbers result [] }
        ensures room { result.room ≡ None }
    {
        Numbers {
            alloc,
            ids: IndexSet::new(alloc),
            room: None,
        }
    }

    /// Ends the reservation, if there is one.
    pub fn end_room(&mut self)
        ensures same { (sent : List Sent) → AreNumbers self.old sent → AreNumbers self.new sent }
        ensures room { self.new.room ≡ None }
    {
        self.room = None;
    }

    /// Reserves room for this identifier after those of the first `count` submissions. An earlier reservation ends.
    pub fn reserve(&mut self, count: usize, id: &MessageId) -> Result<(), NoMemory>
        ensures ok { OnOk result (self.new.room ≡ Some id.now) }
        ensures same { (sent : List Sent) → length sent ≡ count → AreNumbers self.old sent → AreNumbers self.new sent }
    {
        self.end_room();
        self.ids.truncate(count);
        let room = id.try_clone(self.alloc)?;
        self.ids.insert(id.try_clone(self.alloc)?)?;
        self.room = Some(room);
        Ok(())
    }

    /// The reserved identifier becomes that of the next submission. Takes no memory.
    pub fn take_room(&mut self)
        ensures more { (sent : List Sent) (s : Sent) → AreNumbers self.old sent → self.old.room ≡ Some (id_of s)
            → sent_of (id_of s) sent ≡ None → AreNumbers self.new (sent ++ s ∷ []) }
        ensures room { self.new.room ≡ None }
    {
        self.room = None;
    }

    /// The number of the submission of this identifier, among the first `count` submissions.
    pub fn number_of(&self, count: usize, id: &MessageId) -> Option<u64>
        ensures { (sent : List Sent) → length sent ≡ count → AreNumbers self.now sent → AreNumberedFrom 0 sent
            → result ≡ option_map (λ s. s.submission.number) (sent_of id.now sent) }
    {
        let place = self.ids.get_index_of(id)?;
        if place < count {
            Some(place as u64)
        } else {
            None
        }
    }
}

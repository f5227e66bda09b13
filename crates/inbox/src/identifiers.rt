//! The identifiers of the received messages, in an ordered map. Others choose them, and whatever they choose, a look-up
//! takes logarithmic time.

ghost use Rattle.std.specs.Prelude.{◌≡◌, ℕ, ◌||◌, List, Some, None, false, IsSome, OnOk};
ghost use Rattle.std.specs.Str.{bytes_eq};
ghost use Rattle.inbox.specs.Holding.{hold_of, is_held, HasPlace};

use as4_values::{MessageId, NoMemory, PlainData};
use std::alloc::Global;
use std::collections::BTreeMap;

/// Why an identifier is in the map.
#[derive(Clone, Copy)]
pub enum Hold {
    /// A message with it was received.
    Came,
    /// Room for a message with it is reserved.
    Room,
}

/// The identifiers of the received messages, and the one that room is reserved for.
#[derive(Drop)]
pub struct Identifiers {
    alloc: Global,
    holds: BTreeMap<MessageId, Hold>,
    room: Option<MessageId>,
}

impl Identifiers {
    pub fn new(alloc: Global) -> Identifiers
        ensures none { (id : List ℕ) → is_held id result ≡ false }
        ensures room { result.room ≡ None }
        ensures place { HasPlace result }
    {
        Identifiers {
            alloc,
            holds: BTreeMap::new(alloc),
            room: None,
        }
    }

    /// Reserves room for this identifier. An earlier reservation ends.
    pub fn reserve(&mut self, id: &MessageId) -> Result<(), NoMemory>
        requires { HasPlace self.old }
        ensures ok { OnOk result (self.new.room ≡ Some id.now) }
        ensures held { (other : List ℕ) → is_held other self.new ≡ is_held other self.old }
        ensures place { HasPlace self.new }
    {
        self.end_room();
        let room = id.try_clone(self.alloc)?;
        self.make_place(id)?;
        self.room = Some(room);
        Ok(())
    }

    /// Ends the reservation: removes its identifier from the map, unless a message with it was received.
    fn end_room(&mut self)
        ensures held { (id : List ℕ) → is_held id self.new ≡ is_held id self.old }
        ensures room { self.new.room ≡ None }
    {
        let Some(id) = self.room.take() else {
            return;
        };
        if !self.contains(&id) {
            self.holds.remove(&id);
        }
        drop(id);
    }

    /// Puts the identifier into the map, unless it is there.
    fn make_place(&mut self, id: &MessageId) -> Result<(), NoMemory>
        requires { self.old.room ≡ None }
        ensures held { (other : List ℕ) → is_held other self.new ≡ is_held other self.old }
        ensures there { OnOk result (IsSome (hold_of id.now self.new)) }
        ensures room { self.new.room ≡ None }
    {
        if self.holds.contains_key(id) {
            return Ok(());
        }
        let key = id.try_clone(self.alloc)?;
        self.holds.insert(key, Hold::Room)?;
        Ok(())
    }

    /// A message with the reserved identifier was received. Takes no memory.
    pub fn hold(&mut self)
        requires { HasPlace self.old }
        ensures held { (room id : List ℕ) → self.old.room ≡ Some room
            → is_held id self.new ≡ (is_held id self.old || bytes_eq room id) }
        ensures room { self.new.room ≡ None }
        ensures place { HasPlace self.new }
    {
        let Some(id) = self.room.take() else {
            return;
        };
        if let Some(hold) = self.holds.get_mut(&id) {
            *hold = Hold::Came;
        }
        drop(id);
    }

    /// Whether a message with this identifier was received.
    pub fn contains(&self, id: &MessageId) -> bool
        ensures { result ≡ is_held id.now self.now }
    {
        matches!(self.holds.get(id), Some(Hold::Came))
    }
}

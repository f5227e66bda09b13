//! All heaps, and the table of the numbers: each number's heap, its place there, and its due moment.

ghost use Rattle.std.specs.Prelude.{◌≡◌, ℕ, ◌+◌, ◌<◌, [], Some, None, count_by, option_map, IsSome, OnOk, OnErr, IfOk};
ghost use Rattle.due_heap.specs.Counting.{is_due_in};
ghost use Rattle.due_heap.specs.Heaps.{Place, with_due, standing_at, Sets, StandAs, HasPair, HasPairBut, IsLeastOf};

use crate::counting::count_under;
use crate::one;
use crate::pair::{Pair, Room, Slot};
use as4_values::NoMemory;
use std::alloc::Global;
use std::marker::Model;

/// Heaps of pairs of a due moment and a number below 1,048,576. A number is in at most one of them.
#[derive(Drop)]
pub struct Heaps {
    alloc: Global,
    heaps: Vec<Vec<Pair>>,
    /// By number.
    slots: Vec<Option<Slot>>,
    /// The number and the heap for which room for one more pair is reserved.
    room: Option<Room>,
}

impl Model for Heaps {
    ghost use Rattle.std.specs.Prelude.{length, map, option_map, IfSome};
    ghost use Rattle.due_heap.specs.Heaps.{Heaps};
    ghost use Rattle.due_heap.specs.Keeping.{place_of, AreHeaps, HasRoom};

    ghost Value = { Heaps };

    ghost view = { λ h. record { count = length h.heaps.items; places = map (option_map place_of) h.slots.items; room = h.room } };

    ghost invariant = { λ h. AreHeaps h.heaps.items h.slots.items × IfSome h.room (HasRoom h.heaps.items h.slots.items) };
}

impl Heaps {
    pub fn new(alloc: Global) -> Heaps
        ensures { result ≡ record { count = 0; places = []; room = None } }
    {
        Heaps {
            alloc,
            heaps: Vec::new(alloc),
            slots: Vec::new(alloc),
            room: None,
        }
    }

    /// The number of heaps.
    pub fn count(&self) -> u64
        ensures value { result ≡ self.now.count }
        ensures known { (number : ℕ) (place : Place) → standing_at number self.now ≡ Some place → place.heap < self.now.count }
    {
        self.heaps.len() as u64
    }

    /// The heap of a number, and when the number is due.
    pub fn place(&self, number: u64) -> Option<(u64, u64)>
        ensures { result ≡ option_map (λ place. (place.heap, place.due)) (standing_at number self.now) }
    {
        let slot = one::find(self.slots.as_slice(), number)?;
        Some((slot.heap as u64, slot.due))
    }

    /// Adds an empty heap, and returns its place.
    pub fn add(&mut self) -> Result<u64, NoMemory>
        ensures place { IfOk result (λ heap. heap ≡ self.old.count) }
        ensures count { OnOk result (self.new.count ≡ self.old.count + 1) }
        ensures err { OnErr result (self.new.count ≡ self.old.count) }
        ensures same { StandAs self.old self.new }
        ensures room { self.new.room ≡ self.old.room }
    {
        let place = self.heaps.len() as u64;
        self.heaps.push(Vec::new(self.alloc))?;
        Ok(place)
    }

    /// Reserves room for one pair of this number in this heap. An earlier reservation ends.
    pub fn reserve(&mut self, heap: u64, number: u64) -> Result<(), NoMemory>
        requires heap { heap < self.old.count }
        requires number { number < 1048576 }
        ensures ok { OnOk result (self.new.room ≡ Some (record { heap = heap; number = number })) }
        ensures err { OnErr result (self.new.room ≡ None) }
        ensures count { self.new.count ≡ self.old.count }
        ensures same { StandAs self.old self.new }
    {
        let heap = heap as usize;
        self.room = None;
        one::list(&mut self.slots, number)?;
        self.heaps[heap].reserve(1)?;
        self.room = Some(Room { heap, number });
        Ok(())
    }

    /// Adds a pair where room for it is reserved; takes no memory. The reservation is used up.
    pub fn insert(&mut self, heap: u64, due: u64, number: u64)
        requires room { self.old.room ≡ Some (record { heap = heap; number = number }) }
        requires new { standing_at number self.old ≡ None }
        ensures placed { Sets number (Some (record { heap = heap; due = due })) self.old self.new }
        ensures room { self.new.room ≡ None }
    {
        let heap = heap as usize;
        self.room = None;
        one::insert(
            heap,
            &mut self.heaps[heap],
            self.slots.as_mut_slice(),
            Pair { due, number },
        );
    }

    /// Sets another due moment of a number; takes no memory. The reservation remains.
    pub fn set_due(&mut self, number: u64, due: u64)
        requires there { IsSome (standing_at number self.old) }
        ensures placed { Sets number (option_map (with_due due) (standing_at number self.old)) self.old self.new }
        ensures room { self.new.room ≡ self.old.room }
    {
        let slot = one::slot_of(self.slots.as_slice(), number);
        one::set_due(
            self.heaps[slot.heap].as_mut_slice(),
            self.slots.as_mut_slice(),
            slot,
            Pair { due, number },
        );
    }

    /// Removes a number from its heap. The reservation remains.
    pub fn remove(&mut self, number: u64)
        requires there { IsSome (standing_at number self.old) }
        ensures gone { Sets number None self.old self.new }
        ensures room { self.new.room ≡ self.old.room }
    {
        let slot = one::slot_of(self.slots.as_slice(), number);
        one::remove(
            &mut self.heaps[slot.heap],
            self.slots.as_mut_slice(),
            slot,
            number,
        );
    }

    /// The pair of the heap that is due first; of several due at once, the one with the least number.
    pub fn least(&self, heap: u64) -> Option<(u64, u64)>
        requires { heap < self.now.count }
        ensures { IsLeastOf (HasPair self.now heap) result }
    {
        one::least(self.heaps[heap as usize].as_slice())
    }

    /// The same without the pair of this number.
    pub fn least_without(&self, heap: u64, number: u64) -> Option<(u64, u64)>
        requires { heap < self.now.count }
        ensures { IsLeastOf (HasPairBut self.now heap number) result }
    {
        one::least_without(self.heaps[heap as usize].as_slice(), number)
    }

    /// The number of pairs of the heap that are due by this moment. Visits only these and their children.
    pub fn count_due(&self, heap: u64, moment: u64) -> u64
        requires { heap < self.now.count }
        ensures { result ≡ count_by (is_due_in heap moment) self.now.places }
    {
        count_under(self.heaps[heap as usize].as_slice(), 0, moment)
    }
}

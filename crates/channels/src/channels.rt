//! The waiting submissions, in a heap for each queue: the number that is due first is at the head.

ghost use Rattle.std.specs.Prelude.{◌≡◌, ◌<◌, [], Some, None, OnOk};
ghost use Rattle.channels.specs.Queues.{inserted, without, waiting_at, head_in};
ghost use Rattle.channels.specs.Keeping.{number_if_due};

use crate::names::Names;
use crate::places::{heap_for, heap_of};
use as4_effects::Queue;
use as4_values::NoMemory;
use due_heap::Heaps;
use std::alloc::Global;
use std::marker::Model;

/// The submissions that wait to be sent, in all queues.
#[derive(Drop)]
pub struct Channels {
    /// The names of the channels that submissions have waited in.
    names: Names,
    /// One for each queue.
    heaps: Heaps,
}

impl Model for Channels {
    ghost use Rattle.channels.specs.Queues.{Queues};
    ghost use Rattle.channels.specs.Keeping.{waiting_in, room_in, IsKept};

    ghost Value = { Queues };

    ghost view = { λ c. record { waiting = waiting_in c.names c.heaps; room = room_in c.names c.heaps.room } };

    ghost invariant = { λ c. IsKept c.names c.heaps };
}

impl Channels {
    pub fn new(alloc: Global) -> Channels
        ensures { result ≡ record { waiting = []; room = None } }
    {
        Channels {
            names: Names::new(alloc),
            heaps: Heaps::new(alloc),
        }
    }

    /// Reserves room for one submission of this number in this queue. An earlier reservation ends.
    pub fn reserve(&mut self, queue: &Queue, number: u64) -> Result<(), NoMemory>
        requires { number < 1048576 }
        ensures ok { OnOk result (self.new.room ≡ Some (record { queue = queue.now; number = number })) }
        ensures waiting { self.new.waiting ≡ self.old.waiting }
    {
        let heap = heap_for(&mut self.names, &mut self.heaps, queue)?;
        self.heaps.reserve(heap, number)?;
        Ok(())
    }

    /// Adds a submission where room for it is reserved; takes no memory.
    pub fn insert(&mut self, queue: &Queue, due: u64, number: u64)
        requires room { self.old.room ≡ Some (record { queue = queue.now; number = number }) }
        requires new { waiting_at number self.old.waiting ≡ None }
        ensures { self.new.waiting ≡ inserted (record { queue = queue.now; due = due; number = number }) self.old.waiting }
    {
        let Some(heap) = heap_of(&self.names, &self.heaps, queue) else {
            unreachable!()
        };
        self.heaps.insert(heap, due, number);
    }

    /// Removes a submission. The reservation remains.
    pub fn remove(&mut self, queue: &Queue, due: u64, number: u64)
        requires there { waiting_at number self.old.waiting ≡ Some (record { queue = queue.now; due = due; number = number }) }
        ensures waiting { self.new.waiting ≡ without number self.old.waiting }
        ensures room { self.new.room ≡ self.old.room }
    {
        self.heaps.remove(number);
    }

    /// The number of the first submission of the queue that is due at this moment.
    pub fn head(&self, queue: &Queue, moment: u64) -> Option<u64>
        ensures { result ≡ head_in queue.now moment self.now.waiting }
    {
        let heap = heap_of(&self.names, &self.heaps, queue)?;
        if_due(self.heaps.least(heap), moment)
    }

    /// The same without the submission of this number.
    pub fn head_without(&self, queue: &Queue, moment: u64, number: u64) -> Option<u64>
        ensures { result ≡ head_in queue.now moment (without number self.now.waiting) }
    {
        let heap = heap_of(&self.names, &self.heaps, queue)?;
        if_due(self.heaps.least_without(heap, number), moment)
    }
}

/// The number of the first pair of a heap, where it is due at this moment.
fn if_due(first: Option<(u64, u64)>, moment: u64) -> Option<u64>
    ensures { result ≡ number_if_due moment first }
{
    match first {
        Some((due, number)) if due <= moment => Some(number),
        _ => None,
    }
}

//! The queues of submissions.

use as4_values::{NoMemory, PlainData, Text};
use std::alloc::Global;

/// Where a submission waits to be sent.
#[derive(Drop)]
pub enum Queue {
    /// The queue of pushed submissions.
    Push,
    /// The queue of this message partition channel, whose submissions are pulled (ebMS 3.0 Core, section 3.4.1).
    Channel(Text),
}

impl PlainData for Queue {
    fn try_clone(&self, alloc: Global) -> Result<Queue, NoMemory> {
        match self {
            Queue::Push => Ok(Queue::Push),
            Queue::Channel(mpc) => Ok(Queue::Channel(mpc.try_clone(alloc)?)),
        }
    }

    fn same(&self, other: &Queue) -> bool {
        match (self, other) {
            (Queue::Push, Queue::Push) => true,
            (Queue::Channel(mpc), Queue::Channel(other)) => mpc.same(other),
            _ => false,
        }
    }
}

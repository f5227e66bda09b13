//! The entries of a heap and of its table.

ghost use Rattle.std.specs.Prelude.{◌<◌, ◌↔◌, IsTrue};
ghost use Rattle.due_heap.specs.Order.{rank};

/// A number, and when it is due.
#[derive(Clone, Copy)]
pub struct Pair {
    pub due: u64,
    pub number: u64,
}

/// Where a number is: its heap, its place in the heap, and when it is due.
#[derive(Clone, Copy)]
pub struct Slot {
    pub heap: usize,
    pub at: usize,
    pub due: u64,
}

/// A reservation: the number that it is for, and the heap.
#[derive(Clone, Copy)]
pub struct Room {
    pub heap: usize,
    pub number: u64,
}

/// Whether it is due first; of two due at once, whether it has the smaller number.
pub fn is_before(pair: Pair, other: Pair) -> bool
    requires number { pair.number < 1048576 }
    requires other { other.number < 1048576 }
    ensures { IsTrue result ↔ (rank pair < rank other) }
{
    pair.due < other.due || (pair.due == other.due && pair.number < other.number)
}

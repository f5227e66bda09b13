//! One heap, and the table that gives each number's place.

ghost use Rattle.std.specs.Prelude.{◌≡◌, ◌≢◌, ℕ, ◌+◌, ◌*◌, ◌<◌, ◌≤◌, Some, None, All, IsSome, OnOk, length, vec_len};
ghost use Rattle.std.specs.Vec.{vec_capacity};
ghost use Rattle.due_heap.specs.Order.{rank_at, IsOrdered, IsOrderedBut, IsIn, IsInBut, AreOnce};
ghost use Rattle.due_heap.specs.Keeping.{slot_at, PointsBut, Places, IsHeap};
ghost use Rattle.due_heap.specs.Heaps.{IsLeastOf};

use crate::moving::{lesser_under, note, restore};
use crate::pair::{Pair, Slot};
use as4_values::NoMemory;

/// Makes the table long enough for this number.
pub fn list(slots: &mut Vec<Option<Slot>>, number: u64) -> Result<(), NoMemory>
    requires few { length slots.old.items ≤ 1048576 }
    requires number { number < 1048576 }
    ensures few { length slots.new.items ≤ 1048576 }
    ensures listed { OnOk result (number < length slots.new.items) }
    ensures same { (n : ℕ) → slot_at n slots.new.items ≡ slot_at n slots.old.items }
{
    let len = slots.len().max(number as usize + 1);
    slots.resize(len, None)?;
    Ok(())
}

/// The slot of a number.
pub fn find(slots: &[Option<Slot>], number: u64) -> Option<Slot>
    ensures { result ≡ slot_at number slots.now }
{
    *slots.get(number as usize)?
}

/// The same for a number that is in a heap.
pub fn slot_of(slots: &[Option<Slot>], number: u64) -> Slot
    requires { IsSome (slot_at number slots.now) }
    ensures { slot_at number slots.now ≡ Some result }
{
    let Some(slot) = find(slots, number) else {
        unreachable!()
    };
    slot
}

/// Adds a pair to the heap. Its vector has room for it.
pub fn insert(heap: usize, pairs: &mut Vec<Pair>, slots: &mut [Option<Slot>], pair: Pair)
    requires kept { IsHeap heap pairs.old.items slots.old }
    requires few { length slots.old ≤ 1048576 }
    requires room { vec_len pairs.old < vec_capacity pairs.old }
    requires number { pair.number < length slots.old }
    requires new { slot_at pair.number slots.old ≡ None }
    ensures kept { IsHeap heap pairs.new.items slots.new }
    ensures places { Places heap pair.number (Some (record { heap = heap; due = pair.due })) slots.old slots.new }
{
    let at = pairs.len();
    pairs.push_reserved(pair);
    put(heap, pairs.as_mut_slice(), slots, at, pair);
}

/// Sets another due moment of a number of the heap.
pub fn set_due(pairs: &mut [Pair], slots: &mut [Option<Slot>], slot: Slot, pair: Pair)
    requires kept { IsHeap slot.heap pairs.old slots.old }
    requires few { length slots.old ≤ 1048576 }
    requires there { slot_at pair.number slots.old ≡ Some slot }
    ensures kept { IsHeap slot.heap pairs.new slots.new }
    ensures places { Places slot.heap pair.number (Some (record { heap = slot.heap; due = pair.due })) slots.old slots.new }
{
    put(slot.heap, pairs, slots, slot.at, pair);
}

/// Removes a number from the heap.
pub fn remove(pairs: &mut Vec<Pair>, slots: &mut [Option<Slot>], slot: Slot, number: u64)
    requires kept { IsHeap slot.heap pairs.old.items slots.old }
    requires few { length slots.old ≤ 1048576 }
    requires there { slot_at number slots.old ≡ Some slot }
    ensures kept { IsHeap slot.heap pairs.new.items slots.new }
    ensures places { Places slot.heap number None slots.old slots.new }
    ensures len { vec_len pairs.new < vec_len pairs.old }
    ensures capacity { vec_capacity pairs.new ≡ vec_capacity pairs.old }
{
    slots[number as usize] = None;
    let Some(last) = pairs.pop() else {
        unreachable!()
    };
    if slot.at < pairs.len() {
        put(slot.heap, pairs.as_mut_slice(), slots, slot.at, last);
    }
}

/// Writes a pair to this place of the heap and into the table, and then moves it to where it belongs.
fn put(heap: usize, pairs: &mut [Pair], slots: &mut [Option<Slot>], at: usize, pair: Pair)
    requires points { PointsBut at pair.number heap pairs.old slots.old }
    requires order { IsOrderedBut at (rank_at pairs.old) (length pairs.old) }
    requires few { length slots.old ≤ 1048576 }
    requires place { at < length pairs.old }
    requires number { pair.number < length slots.old }
    ensures kept { IsHeap heap pairs.new slots.new }
    ensures places { Places heap pair.number (Some (record { heap = heap; due = pair.due })) slots.old slots.new }
{
    pairs[at] = pair;
    note(heap, at, pair, slots);
    restore(heap, pairs, slots, at);
}

/// The pair that comes first.
pub fn least(pairs: &[Pair]) -> Option<(u64, u64)>
    requires order { IsOrdered (rank_at pairs.now) (length pairs.now) }
    requires few { All (λ pair. pair.number < 1048576) pairs.now }
    ensures { IsLeastOf (IsIn pairs.now) result }
{
    let first = pairs.first()?;
    Some((first.due, first.number))
}

/// The same without the pair of this number.
pub fn least_without(pairs: &[Pair], number: u64) -> Option<(u64, u64)>
    requires order { IsOrdered (rank_at pairs.now) (length pairs.now) }
    requires few { All (λ pair. pair.number < 1048576) pairs.now }
    requires once { AreOnce pairs.now }
    ensures { IsLeastOf (IsInBut pairs.now number) result }
{
    let first = pairs.first()?;
    if first.number != number {
        return Some((first.due, first.number));
    }
    if pairs.len() < 2 {
        return None;
    }
    let next = pairs[lesser_under(pairs, 0)];
    Some((next.due, next.number))
}

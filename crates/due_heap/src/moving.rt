//! Moves a pair to its place in a heap. The children of the place p are the places 2p + 1 and 2p + 2, and no child
//! comes before its parent.

ghost use Rattle.std.specs.Prelude.{◌≡◌, ◌≢◌, ℕ, ◌+◌, ◌*◌, ◌<◌, ◌≤◌, All, length, slice_set, swap};
ghost use Rattle.due_heap.specs.Order.{rank_at, IsOrdered, IsOrderedBut, IsUpToUnder, IsFromAbove};
ghost use Rattle.due_heap.specs.Keeping.{Points, Rearranges};

use crate::pair::{Pair, Slot, is_before};

/// Moves the pair at this place up or down, until the heap is in order.
pub fn restore(heap: usize, pairs: &mut [Pair], slots: &mut [Option<Slot>], at: usize)
    requires points { Points heap pairs.old slots.old }
    requires few { length slots.old ≤ 1048576 }
    requires place { at < length pairs.old }
    requires order { IsOrderedBut at (rank_at pairs.old) (length pairs.old) }
    ensures pairs { Rearranges heap pairs.old slots.old pairs.new slots.new }
    ensures order { IsOrdered (rank_at pairs.new) (length pairs.new) }
{
    if at > 0 && is_before(pairs[at], pairs[(at - 1) / 2]) {
        rise(heap, pairs, slots, at);
    } else {
        sink(heap, pairs, slots, at);
    }
}

/// Moves the pair at this place up, until the heap is in order.
fn rise(heap: usize, pairs: &mut [Pair], slots: &mut [Option<Slot>], mut at: usize)
    requires points { Points heap pairs.old slots.old }
    requires few { length slots.old ≤ 1048576 }
    requires place { at < length pairs.old }
    requires order { IsOrderedBut at (rank_at pairs.old) (length pairs.old) }
    requires under { IsUpToUnder at (rank_at pairs.old) (length pairs.old) }
    ensures pairs { Rearranges heap pairs.old slots.old pairs.new slots.new }
    ensures order { IsOrdered (rank_at pairs.new) (length pairs.new) }
{
    while at > 0 {
        let above = (at - 1) / 2;
        if !is_before(pairs[at], pairs[above]) {
            break;
        }
        exchange(heap, pairs, slots, above, at);
        at = above;
    }
}

/// Moves the pair at this place down, until the heap is in order.
fn sink(heap: usize, pairs: &mut [Pair], slots: &mut [Option<Slot>], mut at: usize)
    requires points { Points heap pairs.old slots.old }
    requires few { length slots.old ≤ 1048576 }
    requires place { at < length pairs.old }
    requires order { IsOrderedBut at (rank_at pairs.old) (length pairs.old) }
    requires above { IsFromAbove at (rank_at pairs.old) }
    ensures pairs { Rearranges heap pairs.old slots.old pairs.new slots.new }
    ensures order { IsOrdered (rank_at pairs.new) (length pairs.new) }
{
    while at < pairs.len() / 2 {
        let under = lesser_under(pairs, at);
        if !is_before(pairs[under], pairs[at]) {
            break;
        }
        exchange(heap, pairs, slots, at, under);
        at = under;
    }
}

/// Exchanges two pairs of a heap, in the table too.
fn exchange(heap: usize, pairs: &mut [Pair], slots: &mut [Option<Slot>], a: usize, b: usize)
    requires points { Points heap pairs.old slots.old }
    requires a { a < length pairs.old }
    requires b { b < length pairs.old }
    requires two { a < b }
    ensures pairs { Rearranges heap pairs.old slots.old pairs.new slots.new }
    ensures swap { pairs.new ≡ swap pairs.old a b }
{
    pairs.swap(a, b);
    note(heap, a, pairs[a], slots);
    note(heap, b, pairs[b], slots);
}

/// Writes into the table where a pair is.
pub fn note(heap: usize, at: usize, pair: Pair, slots: &mut [Option<Slot>])
    requires { pair.number < length slots.old }
    ensures { slots.new ≡ slice_set slots.old pair.number (Some (record { heap = heap; at = at; due = pair.due })) }
{
    slots[pair.number as usize] = Some(Slot {
        heap,
        at,
        due: pair.due,
    });
}

/// Of the children of this place, the one whose pair comes first.
pub fn lesser_under(pairs: &[Pair], at: usize) -> usize
    requires few { All (λ pair. pair.number < 1048576) pairs.now }
    requires under { at * 2 + 1 < length pairs.now }
    ensures place { (result < length pairs.now) × (at * 2 + 1 ≤ result) × (result ≤ at * 2 + 2) }
    ensures lesser { (k : ℕ) → at * 2 + 1 ≤ k → k ≤ at * 2 + 2 → k < length pairs.now → rank_at pairs.now result ≤ rank_at pairs.now k }
{
    let left = at * 2 + 1;
    let right = left + 1;
    if right < pairs.len() && is_before(pairs[right], pairs[left]) {
        right
    } else {
        left
    }
}

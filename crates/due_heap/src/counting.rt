//! Counts the pairs of a heap that are due by a moment. Visits only these and their children.

ghost use Rattle.std.specs.Prelude.{◌≡◌, ◌<◌, ◌≤◌, ◌^◌, All, length};
ghost use Rattle.due_heap.specs.Counting.{count_under};
ghost use Rattle.due_heap.specs.Order.{rank_at, IsOrdered};

use crate::pair::Pair;

/// The number of pairs at this place and below it that are due by this moment. Below a later pair, none is due.
pub fn count_under(pairs: &[Pair], at: usize, moment: u64) -> u64
    requires order { IsOrdered (rank_at pairs.now) (length pairs.now) }
    requires few { All (λ pair. pair.number < 1048576) pairs.now }
    requires short { length pairs.now < 2 ^ 63 }
    ensures count { result ≡ count_under moment at pairs.now }
    ensures within { result ≤ length pairs.now }
{
    match pairs.get(at) {
        Some(pair) if pair.due <= moment => {
            let left = count_under(pairs, at * 2 + 1, moment);
            let right = count_under(pairs, at * 2 + 2, moment);
            1 + left + right
        }
        _ => 0,
    }
}

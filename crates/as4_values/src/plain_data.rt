//! Copies and comparisons of values, with allocation failure as an error.

ghost use Rattle.std.specs.Prelude.{◌≡◌, ◌↔◌, IsTrue, IfOk};

use crate::memory::NoMemory;
use std::alloc::Global;

/// Data without identity: a copy equals its source, and comparing two values takes no memory.
pub trait PlainData {
    /// An equal value with memory of its own.
    fn try_clone(&self, alloc: Global) -> Result<Self, NoMemory>
        ensures { IfOk result (λ copy. copy ≡ self.now) };

    /// Whether the two are equal.
    fn same(&self, other: &Self) -> bool
        ensures { IsTrue result ↔ (self.now ≡ other.now) };
}

impl<T: PlainData> PlainData for Option<T> {
    fn try_clone(&self, alloc: Global) -> Result<Option<T>, NoMemory> {
        match self {
            None => Ok(None),
            Some(value) => Ok(Some(value.try_clone(alloc)?)),
        }
    }

    fn same(&self, other: &Option<T>) -> bool {
        match (self, other) {
            (None, None) => true,
            (Some(value), Some(other)) => value.same(other),
            _ => false,
        }
    }
}

/// Copies of two values. If one copy fails, the other is dropped by name: a single error path is proved faster than one
/// for each value.
pub fn try_clone_two<A: PlainData + Drop, B: PlainData + Drop>(
    alloc: Global,
    first: &A,
    second: &B,
) -> Result<(A, B), NoMemory>
    ensures { IfOk result (λ copies. (copies.0 ≡ first.now) × (copies.1 ≡ second.now)) }
{
    match (first.try_clone(alloc), second.try_clone(alloc)) {
        (Ok(first), Ok(second)) => Ok((first, second)),
        (first, second) => {
            drop(first);
            drop(second);
            Err(NoMemory)
        }
    }
}

/// Copies of four values, for structs of many fields.
pub fn try_clone_four<
    A: PlainData + Drop,
    B: PlainData + Drop,
    C: PlainData + Drop,
    D: PlainData + Drop,
>(alloc: Global, first: &A, second: &B, third: &C, fourth: &D) -> Result<(A, B, C, D), NoMemory>
    ensures { IfOk result (λ copies. (copies.0 ≡ first.now) × (copies.1 ≡ second.now)
        × (copies.2 ≡ third.now) × (copies.3 ≡ fourth.now)) }
{
    match (
        try_clone_two(alloc, first, second),
        try_clone_two(alloc, third, fourth),
    ) {
        (Ok(front), Ok(back)) => {
            let (first, second) = front;
            let (third, fourth) = back;
            Ok((first, second, third, fourth))
        }
        (front, back) => {
            drop(front);
            drop(back);
            Err(NoMemory)
        }
    }
}

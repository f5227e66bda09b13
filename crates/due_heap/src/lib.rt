//! Binary heaps of pairs of a due moment and a number, with one table that gives each number's place.
#![tactic(auto)]

mod counting;
mod heaps;
mod moving;
mod one;
mod pair;

pub use heaps::Heaps;

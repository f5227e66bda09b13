//! Tests of `journal`, by what it makes public.
#![tactic(auto)]

mod ready;
#[cfg(test)]
mod rows;
#[cfg(test)]
mod steps;
#[cfg(test)]
mod stops;

pub use ready::{fold_to_one, open_all};

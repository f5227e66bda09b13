//! Tests of the public interface of `header_reader`.
#![tactic(auto)]

#[cfg(test)]
mod cases;
#[cfg(test)]
mod trees;
#[cfg(test)]
mod units;

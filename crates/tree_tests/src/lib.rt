//! Tests of the public interface of `tree_reader`.
#![tactic(auto)]

#[cfg(test)]
mod documents;
#[cfg(test)]
mod limits;
#[cfg(test)]
mod shown;

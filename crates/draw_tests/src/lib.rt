//! Tests of the public interface of `as4_draw`.
#![tactic(auto)]

#[cfg(test)]
mod documents;
#[cfg(test)]
mod drills;
#[cfg(test)]
mod leaves;

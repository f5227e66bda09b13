//! Tests of `conformance` and `as4_vectors`, by what they make public.
#![tactic(auto)]

#[cfg(test)]
mod runs;
#[cfg(test)]
mod tables;

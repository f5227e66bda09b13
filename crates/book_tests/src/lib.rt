//! Tests of the public interface of `pass_book`.
#![tactic(auto)]

#[cfg(test)]
mod calls;
#[cfg(test)]
mod threads;

//! Tests of the public interface of `due_heap`.
#![tactic(auto)]

#[cfg(test)]
mod calls;
#[cfg(test)]
mod example;

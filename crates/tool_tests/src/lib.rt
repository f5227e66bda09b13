//! Tests of the public interface of `as4_tool`.
#![tactic(auto)]

#[cfg(test)]
mod answers;
#[cfg(test)]
mod drills;
#[cfg(test)]
mod ended;
#[cfg(test)]
mod handlers;
#[cfg(test)]
mod journals;
#[cfg(test)]
mod services;
#[cfg(test)]
mod statuses;
#[cfg(test)]
mod suites;
#[cfg(test)]
mod words;

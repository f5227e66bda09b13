//! Tests of the public interfaces of `as4_values`, `as4_effects` and `pmodes`.
#![tactic(auto)]

#[cfg(test)]
mod effects;
#[cfg(test)]
mod modes;
#[cfg(test)]
mod values;

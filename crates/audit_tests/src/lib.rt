//! Tests of `as4_audit`, by what it makes public.
#![tactic(auto)]

#[cfg(test)]
mod deeds;
#[cfg(test)]
mod leaves;
#[cfg(test)]
mod rows;
#[cfg(test)]
mod said;

//! Tests of `as4_flow`, by what it makes public.
#![tactic(auto)]

#[cfg(test)]
mod counts;
#[cfg(test)]
mod draws;

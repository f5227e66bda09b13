//! Tests of `as4_doors`, by what it makes public.
#![tactic(auto)]

#[cfg(test)]
mod asking;
#[cfg(test)]
mod responses;
#[cfg(test)]
mod rows;
#[cfg(test)]
mod samples;

//! Tests of `as4_http`, by what it makes public.
#![tactic(auto)]

#[cfg(test)]
mod asking;
#[cfg(test)]
mod limits;
#[cfg(test)]
mod reading;
#[cfg(test)]
mod written;

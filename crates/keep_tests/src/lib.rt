//! Tests of `as4_keep`, by what it makes public.
#![tactic(auto)]

#[cfg(test)]
mod cuts;
#[cfg(test)]
mod ends;
#[cfg(test)]
mod faults;
#[cfg(test)]
mod guests;
#[cfg(test)]
mod rig;
#[cfg(test)]
mod samples;

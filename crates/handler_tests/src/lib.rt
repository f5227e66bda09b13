//! Tests of `handler`, by what it makes public.
#![tactic(auto)]

#[cfg(test)]
mod rig;
#[cfg(test)]
mod runs;
#[cfg(test)]
mod samples;

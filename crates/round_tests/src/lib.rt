//! Tests of `rounds` and `workers`, by what they make public.
#![tactic(auto)]

#[cfg(test)]
mod cases;
#[cfg(test)]
mod halts;
#[cfg(test)]
mod hired;
#[cfg(test)]
mod rig;
#[cfg(test)]
mod samples;
#[cfg(test)]
mod together;
#[cfg(test)]
mod turns;

//! Tests of `as4_hub`, by what it makes public.
#![tactic(auto)]

#[cfg(test)]
mod answers;
#[cfg(test)]
mod desk;
#[cfg(test)]
mod disks;
#[cfg(test)]
mod events;
#[cfg(test)]
mod steps;
#[cfg(test)]
mod stops;

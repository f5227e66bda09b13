//! Tests of `sessions`, by what it makes public.
#![tactic(auto)]

#[cfg(test)]
mod cuts;
#[cfg(test)]
mod desk;
#[cfg(test)]
mod faults;
#[cfg(test)]
mod local;
#[cfg(test)]
mod locked;
#[cfg(test)]
mod samples;
#[cfg(test)]
mod shown;

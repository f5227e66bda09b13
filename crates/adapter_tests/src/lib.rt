//! Tests of `host_adapters`, by what it makes public.
#![tactic(auto)]

#[cfg(test)]
mod clocks;
#[cfg(test)]
mod connections;
#[cfg(test)]
mod hosts;
#[cfg(test)]
mod places;
#[cfg(test)]
mod staged;

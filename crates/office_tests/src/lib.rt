//! Tests of `office`, by what it makes public.
#![tactic(auto)]

#[cfg(test)]
mod cases;
#[cfg(test)]
mod desk;
#[cfg(test)]
mod disks;
#[cfg(test)]
mod events;
#[cfg(test)]
mod fetches;
#[cfg(test)]
mod old_leaf;
#[cfg(test)]
mod parcels;
#[cfg(test)]
mod passes;
#[cfg(test)]
mod payloads;
#[cfg(test)]
mod refused;
#[cfg(test)]
mod said;
#[cfg(test)]
mod steps;
#[cfg(test)]
mod stops;

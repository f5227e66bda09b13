//! Tests of `as4_host`, by what it makes public.
#![tactic(auto)]

#[cfg(test)]
mod doors;
#[cfg(test)]
mod hosts;
#[cfg(test)]
mod links;
#[cfg(test)]
mod made;

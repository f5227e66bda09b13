//! Tests of `as4_disk`, by what it makes public.
#![tactic(auto)]

#[cfg(test)]
mod calls;
#[cfg(test)]
mod files;
#[cfg(test)]
mod images;
#[cfg(test)]
mod noted;
#[cfg(test)]
mod steps;

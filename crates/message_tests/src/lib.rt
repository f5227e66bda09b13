//! Tests of the public interfaces of `mime_package` and `as4_message`.
#![tactic(auto)]

#[cfg(test)]
mod cases;
#[cfg(test)]
mod limits;
#[cfg(test)]
mod lines;
#[cfg(test)]
mod packages;
#[cfg(test)]
mod refusals;

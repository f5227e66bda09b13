//! Tests of the public interfaces of `as4_flow`, `drill_script`, `drill_texts` and `drill`.
#![tactic(auto)]

#[cfg(test)]
mod drills;
#[cfg(test)]
mod hubs;
#[cfg(test)]
mod scripts;
#[cfg(test)]
mod stops;
#[cfg(test)]
mod streams;
#[cfg(test)]
mod words;

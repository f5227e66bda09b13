//! Tests of the public interfaces of `msh_transitions` and `msh_core`.
#![tactic(auto)]

#[cfg(test)]
mod bundled;
#[cfg(test)]
mod changes;
#[cfg(test)]
mod machine;
#[cfg(test)]
mod refused;
#[cfg(test)]
mod rows;

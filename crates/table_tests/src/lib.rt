//! Tests of the public interfaces of `outbox`, `channels`, `inbox`, `msh_state` and `submissions`.
#![tactic(auto)]

#[cfg(test)]
mod intake;
#[cfg(test)]
mod received;
#[cfg(test)]
mod sent;
#[cfg(test)]
mod tables;
#[cfg(test)]
mod waiting;

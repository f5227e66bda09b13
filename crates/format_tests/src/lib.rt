//! Tests of the public interfaces of `as4_codes`, `as4_envelope`, `header_writer`, `as4_message` and `event_code`.
#![tactic(auto)]

#[cfg(test)]
mod codes;
#[cfg(test)]
mod envelopes;
#[cfg(test)]
mod messages;
#[cfg(test)]
mod records;
#[cfg(test)]
mod trees;

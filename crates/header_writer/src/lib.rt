//! Writes message units as envelopes: one canonical text for each.
#![tactic(auto)]

mod envelope;
mod signal_text;
mod user_text;
mod values;
mod written;

pub use envelope::{
    write_envelope, write_pair_envelope, write_signal_envelope, write_user_envelope,
};

//! Processing modes (P-Modes, ebMS 3.0 Core, section 4 and appendix D): reading them from a TOML file, and matching.
#![tactic(auto)]

mod business;
mod fault;
mod fields;
mod lookup;
mod matching;
mod modes;
mod parts;
mod reading;
mod refusal;
mod sending;
mod sides;
mod values;

pub use modes::{MAX_MODES, Modes};
pub use refusal::{Key, ModeRefusal};

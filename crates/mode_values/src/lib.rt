//! Processing modes (P-Modes, ebMS 3.0 Core, section 4): what two parties agree on for a kind of message.
#![tactic(auto)]

mod mode;

pub use mode::Mode;

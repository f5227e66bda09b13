//! The three ends of a chain in a drill: what each line of a script does.
#![tactic(auto)]

mod laws;
mod playing;
mod state;
mod trio;

pub use laws::{a_chain_drill_delivers_once, a_chain_script_has_one_transcript};
pub use state::HubState;

//! A script of a pair of endpoints, or of a chain of three, is run, and what happens is written down.
#![tactic(auto)]

mod generated;
mod next;
mod play;
mod script;

pub use drill_world::{MAX_EVENTS, MAX_MODES, a_drill_delivers_once, a_script_has_one_transcript};
pub use generated::generate;
pub use hub_world::{a_chain_drill_delivers_once, a_chain_script_has_one_transcript};
pub use play::Play;
pub use script::{DrillEnd, MAX_LINES, drill, hub_drill};

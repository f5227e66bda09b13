//! The ends of a drill, and a pair of them: what each line of a script of two ends does.
#![tactic(auto)]

mod asked;
mod disks;
mod endpoint;
mod handling;
mod laws;
mod naming;
mod playing;
mod refused;
mod state;

pub use asked::Asked;
pub use endpoint::{Endpoint, StopAt};
pub use laws::{a_drill_delivers_once, a_script_has_one_transcript};
pub use naming::{name_mode, name_text, new_endpoint, own_modes};
pub use playing::{MAX_EVENTS, MAX_MODES, submission};
pub use refused::Refused;
pub use state::DrillState;

//! Effects: the changes that an event makes at one endpoint of a message exchange, and the bytes of their records.
#![tactic(auto)]

mod carried;
mod delivery;
mod effect;
mod kept;
mod mark;
mod measured;
mod queue;
mod sound;
mod submission;

pub use carried::Carried;
pub use delivery::Delivery;
pub use effect::{Effect, Tick};
pub use kept::Kept;
pub use mark::Mark;
pub use measured::Measured;
pub use queue::Queue;
pub use sound::{delivery_fits, header_fits, is_id_of, is_route, submission_fits};
pub use submission::Submission;

//! What one endpoint does with each event, row by row of the machine's table: its effects and its reply.
#![tactic(auto)]

mod asking;
mod bundled;
mod coming;
mod consuming;
mod events;
mod refusing;
mod rows;
mod submitting;

pub use events::row_of;
pub use refusing::refusals_of;
pub use rows::rests;

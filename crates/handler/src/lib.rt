//! The message handler: it opens its store, serves its guests by workers side by side, and gives back what it opened.
#![tactic(auto)]

mod announcing;
mod crew;
mod dismissing;
mod ending;
mod handling;
mod laws;
mod modes_file;
mod opening;
mod running;
mod setup;
mod working;

pub use ending::HandlerEnd;
pub use handling::handle;
pub use laws::a_whole_store_is_left_whole;
pub use modes_file::read_modes;
pub use setup::Setup;

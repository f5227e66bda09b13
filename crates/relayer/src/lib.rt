//! Relays the received messages of a journal over any host: opens the journal, submits each message that isn't relayed
//! yet onwards, and writes a line for each.
//!
//!     relay_journal  relays until there is nothing left, or up to a number of messages
#![tactic(auto)]

mod ending;
mod relaying;
mod running;

pub use ending::{RelayRefusal, RelayerEnd};
pub use running::relay_journal;

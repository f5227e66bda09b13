//! The relaying hub: each received message is submitted onwards once, in the order of the inbox.
#![tactic(auto)]

mod ended;
mod onwards;
mod relaying;

pub use ended::RelayEnd;
pub use relaying::relay;

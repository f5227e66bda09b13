//! The received messages, each identifier once and for good.
#![tactic(auto)]

mod entry;
mod held;
mod identifiers;
mod inbox;

pub use held::Held;
pub use inbox::Inbox;

//! An exchange of messages between two endpoints: the events of an endpoint, its replies, and the definitions that the
//! contracts and the laws cite.
#![tactic(auto)]

mod event;
mod inbox_entry;
mod outcome;
mod reply;
mod sent;
mod what;

pub use as4_effects::{Mark, Queue};
pub use event::Event;
pub use inbox_entry::InboxEntry;
pub use outcome::Outcome;
pub use reply::Reply;
pub use sent::{Sent, Standing};
pub use what::What;

//! Sessions: one request is read from a source, answered by an office, and its response is written to a sink.
//!
//!     session_on   over an office that was lent
//!     session      over an office that is shared under a lock
//!     reply_on     the same without the streams: a request that was read, and the response that is to be written
//!     reply_to
//!     tick_round   sets the clock of a shared office
#![tactic(auto)]

mod answering;
mod ended;
mod laws;
mod lent;
mod locked;
mod naming;
mod requests;
mod rounds;
mod sending;
mod shared_office;
mod streams;

pub use as4_doors::{DoorKind, Fixed, Written};
pub use ended::Ended;
pub use laws::{a_request_is_handled, an_event_is_replied_to, sessions_deliver_once};
pub use lent::{reply_on, session_on};
pub use locked::{reply_to, session};
pub use naming::Opening;
pub use rounds::{RoundEnd, tick_round};
pub use sending::Sending;
pub use shared_office::SharedOffice;

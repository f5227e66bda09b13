//! Connections that are kept: a stream of requests on one connection is answered in order.
//!
//!     keep_session  serves the requests of one connection
//!     serve_kept    runs workers whose guests send several requests each
#![tactic(auto)]

mod connection;
mod guests;
mod keep_end;
mod laws;
mod next;
mod serving;
mod streams;

pub use connection::keep_session;
pub use keep_end::KeepEnd;
pub use laws::{kept_workers_make_their_turns, requests_are_answered_in_order};
pub use serving::serve_kept;

//! The doors of a server: what an HTTP request asks an endpoint for, and the HTTP response to the endpoint's reply.
#![tactic(auto)]

mod asking;
mod door;
mod laws;
mod lines;
mod local;
mod peer;
mod pieces;
mod responding;
mod written;

pub use asking::ask;
pub use door::{DoorKind, DoorRefusal};
pub use laws::{one_refusal, one_request, one_response, refused_or_asked, strangers_ask_nothing};
pub use responding::{refusal_response, response};
pub use written::{Fixed, Written};

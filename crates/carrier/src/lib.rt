//! A message is carried to an endpoint in memory: as an HTTP request, through a session. What the endpoint replies is read
//! from the bytes of the response.
#![tactic(auto)]

mod carrying;
mod replies;
mod requests;
mod serving;

pub use carrying::carry;

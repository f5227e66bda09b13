//! Rounds: an endpoint sends what is due, or pulls what waits for it, and handles the responses.
//!
//!     push_round   takes the next message, sends it, and handles the response
//!     pull_round   sends a pull request, handles the response, and sends the answer that this gets
//!     pull_one     the same, and says whether a message was received
#![tactic(auto)]

mod delivering;
mod ending;
mod exchange;
mod pulling;
mod pushing;
mod receiving;

pub use pulling::{Pulled, pull_one, pull_round};
pub use pushing::push_round;
pub use sessions::RoundEnd;

//! What a business's own program says to its handler: it submits a document, and collects received ones.
//!
//!     submit    POST /submit/MODE/CONVERSATION
//!     collect   for each number: GET /inbox/N, a file, POST /confirm/N, a line
#![tactic(auto)]

mod collecting;
mod ending;
mod exchange;
mod fetching;
mod laws;
mod requests;
mod submitting;
mod telling;

pub use collecting::collect;
pub use ending::{CollectEnd, SubmitEnd};
pub use laws::a_target_is_read_back;
pub use submitting::submit;

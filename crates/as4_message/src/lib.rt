//! Messages: from a media text and a body to a message, and back.
#![tactic(auto)]

mod attach;
mod attachment;
mod error_codes;
mod laws;
mod line;
mod message_file;
mod read;
mod received;
mod root;

pub use attachment::Attachment;
pub use laws::{each_has_a_meaning, one_meaning};
pub use line::{Line, check_line};
pub use message_file::{split_file, write_message, write_message_file, write_user};
pub use package_writer::Wire;
pub use read::read_message;
pub use received::{MessageRefusal, Received, Refusal, lend_message};

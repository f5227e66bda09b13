//! The bytes of a record: how long they are, writing them, and reading them back.
#![tactic(auto)]

mod body;
mod read_effect;
mod read_header;
mod read_messages;
mod read_payload;
mod read_values;
mod reading;
mod record;
mod refusal;
mod rest;
mod spelled;
mod whole;
mod written;

pub use body::{body_len, confirm_body, push_body, tick_body};
pub use record::{one_body, read_body};
pub use refusal::BodyRefusal;

//! A written message is read back as that message.
#![tactic(auto)]

mod laws;

pub use laws::{
    a_file_is_its_parts, answer_is_the_message, file_is_cut_again, message_is_read_again,
};

//! Packages: an envelope and payloads as one body of parts (RFC 2046, section 5.1; RFC 2387), borrowed from the input.
#![tactic(auto)]

mod boundary;
mod delimiters;
mod laws;
mod package;
mod parameters;
mod parts;
mod read;
mod root;
mod search;

pub use laws::{
    a_bad_part_is_the_first, a_body_is_cut_so, a_body_without_a_delimiter,
    an_encoded_part_is_the_first, the_meaning_wants_no_memory,
};
pub use package::Package;
pub use read::{MimeRefusal, read_parts};

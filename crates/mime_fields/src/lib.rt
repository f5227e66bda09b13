//! The heads of MIME: media types, and the fields of the parts of a package.
#![tactic(auto)]

mod class;
mod fields;
mod known;
mod laws;
mod media_type;
mod names;
mod part;
mod part_reader;
mod runs;
mod unfolded;
mod value;

pub use known::without_brackets;
pub use laws::{a_media_type_is_written_so, a_part_is_written_so};
pub use media_type::{MediaType, Parameter, read_media_type};
pub use part::Part;
pub use part_reader::read_part;
pub use value::Value;

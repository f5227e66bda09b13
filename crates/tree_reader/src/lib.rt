//! Documents of XML with namespaces, read into trees.
#![tactic(auto)]

mod apart;
mod declarations;
mod laws;
mod names;
mod read;
mod reading;
mod scope;
mod stop;
mod text;

pub use laws::{one_place, one_tree, text_is_document};
pub use read::{MAX_BYTES, read_tree};
pub use stop::TreeRefusal;

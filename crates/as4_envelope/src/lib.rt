//! Elements of XML as trees, and the single text of each.
#![tactic(auto)]

mod attributes;
mod bytes;
mod copies;
mod markup;
mod tree;
mod writable;
mod write;

pub use attributes::Attributes;
pub use bytes::TreeBytes;
pub use markup::{
    push_attribute, push_end_tag, push_escaped, push_optional_attribute, push_optional_element,
    push_tag_end, push_tag_start, push_text_element,
};
pub use tree::{Attribute, Element};
pub use writable::{MAX_DEPTH, is_writable};
pub use write::{EBMS, SOAP, write_tree};

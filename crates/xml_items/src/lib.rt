//! The items of an XML document, cut by bytes alone. The layer above checks their texts, names and values.
#![tactic(auto)]

mod attributes;
mod comments;
mod declaration;
mod item;
mod laws;
mod next;
mod runs;
mod tags;

pub use item::{RawAttribute, RawItem};
pub use laws::{item_is_written, one_item};
pub use next::next_item;

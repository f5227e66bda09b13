//! Elements and their attributes.

use crate::attributes::Attributes;
use crate::bytes::TreeBytes;
use as4_values::Seq;

/// An attribute, by its expanded name (Namespaces in XML 1.0, section 2.1). Namespace declarations aren't attributes
/// here.
#[derive(Drop)]
pub struct Attribute {
    /// The namespace; empty if there is none.
    pub space: TreeBytes,
    pub local: TreeBytes,
    pub value: TreeBytes,
}

/// An element, by its expanded name.
#[derive(Drop)]
pub struct Element {
    /// The namespace; empty if there is none.
    pub space: TreeBytes,
    pub local: TreeBytes,
    pub attributes: Attributes,
    /// The character data directly in the element, joined.
    pub text: TreeBytes,
    pub children: Seq<Element>,
}

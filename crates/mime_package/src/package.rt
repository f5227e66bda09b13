//! The result of reading a package.

use mime_fields::Part;

/// A package, borrowed from its body: the root, and the other parts in order.
#[derive(Drop)]
pub struct Package<'a> {
    /// The content of the root part, an envelope.
    pub root: &'a [u8],
    /// At most 255; none if the body is a bare envelope.
    pub parts: Vec<Part<'a>>,
}

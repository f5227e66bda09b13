//! The items that are cut out of a document's bytes. They borrow from the bytes, and keep them as written.

/// An attribute of a start tag (XML 1.0, section 3.1).
#[derive(Clone, Copy)]
pub struct RawAttribute<'a> {
    /// At least one byte. Whether it is a name, with or without a prefix, isn't checked.
    pub name: &'a [u8],
    /// The bytes between the quotes: references and line ends as written.
    pub value: &'a [u8],
}

/// An item of a document.
#[derive(Clone, Copy)]
pub enum RawItem<'a> {
    /// An XML declaration of version 1.0, and of UTF-8 if it names an encoding (XML 1.0, section 2.8).
    Declaration,
    /// The bytes between `<!--` and `-->` (XML 1.0, section 2.5).
    Comment(&'a [u8]),
    /// A start tag. If `closed`, it ends in `/>` and is also an end tag (XML 1.0, section 3.1).
    Start { name: &'a [u8], closed: bool },
    /// An end tag (XML 1.0, section 3.1).
    End { name: &'a [u8] },
    /// The bytes up to the next `<` or the end of the document, at least one (XML 1.0, section 2.4).
    Text(&'a [u8]),
}

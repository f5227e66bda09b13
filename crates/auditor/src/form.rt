//! What an audit writes.

/// What an audit writes.
#[derive(Clone, Copy, Debug, PartialEq, Eq)]
pub enum Form {
    /// A line for each change, and the answer.
    Lines,
    /// A sequence diagram, as an SVG document. It shows the records up to the first that isn't right.
    Drawing,
}

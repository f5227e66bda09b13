//! Messages, and the check lines that are wanted of them.

/// A message.
#[derive(Clone, Copy)]
pub struct Case {
    pub name: &'static str,
    /// Its media text.
    pub media: &'static [u8],
    pub body: &'static [u8],
}

/// A message with its check line.
#[derive(Clone, Copy)]
pub struct Vector {
    pub case: Case,
    /// Ends in LF.
    pub want: &'static [u8],
}

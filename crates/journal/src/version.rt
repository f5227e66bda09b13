//! The two versions of a leaf. Version 1 is read alone.
ghost use Rattle.std.specs.Prelude.{◌≡◌};

/// The version of a leaf, which its magic names.
#[derive(Clone, Copy, Debug, PartialEq, Eq)]
pub enum Version {
    /// Lengths of 4 bytes, and at most 1,073,741,824 bytes.
    One,
    /// Lengths of 8 bytes, and at most 4,294,967,296 bytes.
    Two,
}

impl Version {
    ghost use Rattle.journal.specs.Leaf.{width_of, limit_of, number_of};

    pub(crate) fn number(self) -> u8
        ensures { result ≡ number_of self }
    {
        match self {
            Version::One => 1,
            Version::Two => 2,
        }
    }

    /// How many bytes a length has.
    pub(crate) fn width(self) -> u64
        ensures { result ≡ width_of self }
    {
        match self {
            Version::One => 4,
            Version::Two => 8,
        }
    }

    /// How many bytes a leaf may have, up to its last gate.
    pub(crate) fn limit(self) -> u64
        ensures { result ≡ limit_of self }
    {
        match self {
            Version::One => 1 << 30,
            Version::Two => 1 << 32,
        }
    }
}

//! Classes of bytes.
ghost use Rattle.std.specs.Prelude.{◌≡◌, ℕ, Bool};
ghost use Rattle.byte_forms.specs.Classes.{is_blank, is_space};

/// A class of bytes.
pub trait ByteClass: Copy {
    ghost contains: { Self → ℕ → Bool };

    /// Whether the byte is of this class.
    fn has(&self, byte: u8) -> bool
        ensures { result ≡ contains self.now byte };
}

/// Spaces, tabs and the bytes of line ends (XML 1.0, section 2.3: `S`).
#[derive(Clone, Copy)]
pub struct Blank;

impl ByteClass for Blank {
    ghost use Rattle.byte_forms.specs.Classes.{is_blank};

    ghost contains = { λ _. is_blank };

    fn has(&self, byte: u8) -> bool {
        is_blank(byte)
    }
}

/// Spaces and tabs (RFC 9112, section 5.6.3: `OWS`).
#[derive(Clone, Copy)]
pub struct Space;

impl ByteClass for Space {
    ghost use Rattle.byte_forms.specs.Classes.{is_space};

    ghost contains = { λ _. is_space };

    fn has(&self, byte: u8) -> bool {
        is_space(byte)
    }
}

/// Whether a byte is a space, a tab or a byte of a line end (XML 1.0, section 2.3).
// Most bytes are above a space, and the first comparison answers for those.
pub fn is_blank(byte: u8) -> bool
    ensures { result ≡ is_blank byte }
{
    byte <= b' ' && matches!(byte, b' ' | b'\t' | b'\n' | b'\r')
}

/// Whether a byte is a space or a tab.
pub fn is_space(byte: u8) -> bool
    ensures { result ≡ is_space byte }
{
    byte == b' ' || byte == b'\t'
}

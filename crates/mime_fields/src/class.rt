//! The classes of bytes of which texts and heads consist.

ghost use Rattle.std.specs.Prelude.{◌≡◌, ◌==◌, codes};
ghost use Rattle.std.specs.List.{list_any};

use byte_forms::{ByteClass, is_blank, is_space};

/// A class of bytes.
#[derive(Clone, Copy)]
pub enum Class {
    /// A space or a tab.
    Space,
    /// A space, a tab, CR or LF.
    Blank,
    /// A byte of a token (RFC 2045, section 5.1): a graphic ASCII character other than the separators.
    Token,
    /// A byte of a field's name (RFC 2822, section 2.2): a graphic ASCII character other than the colon.
    Name,
    /// A byte of a line: any except CR and LF.
    Line,
}

impl ByteClass for Class {
    ghost use Rattle.mime_fields.specs.Classes.{has};

    ghost contains = { has };

    fn has(&self, byte: u8) -> bool {
        match self {
            Class::Space => is_space(byte),
            Class::Blank => is_blank(byte),
            Class::Token => byte > 32 && byte < 127 && !is_separator(byte),
            Class::Name => byte > 32 && byte < 127 && byte != b':',
            Class::Line => byte != b'\r' && byte != b'\n',
        }
    }
}

/// The separators of a media type (RFC 2045, section 5.1: `tspecials`).
fn is_separator(byte: u8) -> bool
    ensures { result ≡ list_any (λ c. byte == c) (codes "()<>@,;:\\\"/[]?=") }
{
    matches!(
        byte,
        b'(' | b')'
            | b'<'
            | b'>'
            | b'@'
            | b','
            | b';'
            | b':'
            | b'\\'
            | b'"'
            | b'/'
            | b'['
            | b']'
            | b'?'
            | b'='
    )
}

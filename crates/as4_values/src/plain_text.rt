//! Texts that need no escape in a document or in a URL.

ghost use Rattle.std.specs.Prelude.{◌≡◌, ◌<◌, ◌↔◌, IsTrue, length};
ghost use Rattle.as4_values.specs.PlainTexts.{IsPlainText, allows_at, is_plain};

use crate::text::MAX_TEXT;

/// Whether the bytes are a plain text.
pub fn is_plain_text(bytes: &[u8]) -> bool
    ensures { IsTrue result ↔ IsPlainText bytes.now }
{
    if bytes.is_empty() || bytes.len() > MAX_TEXT {
        return false;
    }
    for at in 0..bytes.len() {
        if !allows_at(bytes, at) {
            return false;
        }
    }
    true
}

fn allows_at(bytes: &[u8], at: usize) -> bool
    requires { at < length bytes.now }
    ensures { result ≡ allows_at bytes.now at }
{
    let byte = bytes[at];
    is_plain(byte) && !(byte == b' ' && (at == 0 || at + 1 == bytes.len()))
}

/// Whether a plain text may have this byte.
fn is_plain(byte: u8) -> bool
    ensures { result ≡ is_plain byte }
{
    (32..=126).contains(&byte) && !matches!(byte, b'"' | b'%' | b'&' | b'<' | b'>')
}

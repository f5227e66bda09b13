//! Texts as the character data of an XML element.

use as4_values::NoMemory;

/// The maximum number of bytes of a text that are drawn. An identifier and the words before it have less.
pub(crate) const MAX_SHOWN: usize = 320;

/// Adds the text. What XML reserves is escaped, and a byte that isn't printable ASCII becomes a question mark.
pub(crate) fn add_escaped(out: &mut Vec<u8>, text: &[u8]) -> Result<(), NoMemory> {
    for byte in shown(text) {
        match *byte {
            b'&' => out.extend_from_slice(b"&amp;")?,
            b'<' => out.extend_from_slice(b"&lt;")?,
            b'>' => out.extend_from_slice(b"&gt;")?,
            b'"' => out.extend_from_slice(b"&quot;")?,
            b' '..=b'~' => out.push(*byte)?,
            _ => out.push(b'?')?,
        }
    }
    Ok(())
}

/// The part of a text that is drawn.
fn shown(text: &[u8]) -> &[u8] {
    let (shown, _) = text.split_at(text.len().min(MAX_SHOWN));
    shown
}

//! Names, and the values and texts up to the byte that ends them.
ghost use Rattle.std.specs.Prelude.{◌≡◌, ◌≤◌, length};
ghost use Rattle.std.specs.List.{prefix_len, take_while};
ghost use Rattle.xml_items.specs.Classes.{is_name_byte, is_value_byte, is_text_byte};
ghost use Rattle.byte_forms.specs.Cuts.{skip};

use byte_forms::ByteClass;
use memchr::{memchr, memchr2};

// The entry of each name byte is that byte, or `x` past ASCII; every other entry is a comma.
static NAME_BYTES: [u8; 256] = *b"\
    ,,,,,,,,,,,,,,,,,,,,,,,,,,,,,,,,\
    ,,,,,,,,,,,,,-.,0123456789:,,,,,\
    ,ABCDEFGHIJKLMNOPQRSTUVWXYZ,,,,_\
    ,abcdefghijklmnopqrstuvwxyz,,,,,\
    xxxxxxxxxxxxxxxxxxxxxxxxxxxxxxxx\
    xxxxxxxxxxxxxxxxxxxxxxxxxxxxxxxx\
    xxxxxxxxxxxxxxxxxxxxxxxxxxxxxxxx\
    xxxxxxxxxxxxxxxxxxxxxxxxxxxxxxxx";

/// A value up to its second quote or `<` or the end, and the rest.
pub fn split_value(quote: u8, bytes: &[u8]) -> (&[u8], &[u8])
    ensures front { result.0.now ≡ take_while (is_value_byte quote) bytes.now }
    ensures back { result.1.now ≡ skip (is_value_byte quote) bytes.now }
{
    bytes.split_at(value_len(quote, bytes))
}

/// The text up to the first `<` or the end, and the rest.
pub fn split_text(bytes: &[u8]) -> (&[u8], &[u8])
    ensures front { result.0.now ≡ take_while is_text_byte bytes.now }
    ensures back { result.1.now ≡ skip is_text_byte bytes.now }
{
    bytes.split_at(text_len(bytes))
}

/// The bytes of a name (XML 1.0, section 2.3).
#[derive(Clone, Copy)]
pub struct NameByte;

impl ByteClass for NameByte {
    ghost use Rattle.xml_items.specs.Classes.{is_name_byte};

    ghost contains = { λ _. is_name_byte };

    fn has(&self, byte: u8) -> bool {
        is_name_byte(byte)
    }
}

fn is_name_byte(byte: u8) -> bool
    ensures { result ≡ is_name_byte byte }
{
    NAME_BYTES[byte as usize] != b','
}

#[tactic(auto, using(crate::proofs::SearchLemmas::end_of_value))]
fn value_len(quote: u8, bytes: &[u8]) -> usize
    ensures value { result ≡ prefix_len (is_value_byte quote) bytes.now }
    ensures within { result ≤ length bytes.now }
{
    memchr2(quote, b'<', bytes).unwrap_or(bytes.len())
}

#[tactic(auto, using(crate::proofs::SearchLemmas::end_of_text))]
fn text_len(bytes: &[u8]) -> usize
    ensures value { result ≡ prefix_len is_text_byte bytes.now }
    ensures within { result ≤ length bytes.now }
{
    memchr(b'<', bytes).unwrap_or(bytes.len())
}

//! Characters of XML in UTF-8.

ghost use Rattle.std.specs.Prelude.{◌≡◌, ℕ, ◌<◌, ◌≤◌, ◌↔◌, List, IsNone, IfSome, IsUtf8, false, true, length, take};
ghost use Rattle.std.specs.Str.{IsValidUpTo};
ghost use Rattle.as4_values.specs.Texts.{IsXml, IsNoXmlFrom};
ghost use Rattle.byte_forms.specs.Classes.{is_blank};
ghost use Rattle.as4_values.specs.XmlBytes.{is_control, forbidden_at};

use byte_forms::is_blank;

/// The first byte that isn't part of a character that a document may hold (XML 1.0, section 2.2).
pub fn first_not_xml(bytes: &[u8]) -> Option<usize>
    ensures none { IsNone result ↔ IsXml bytes.now }
    ensures wrong { IfSome result (IsNoXmlFrom bytes.now) }
    ensures only { (at : ℕ) → IsNoXmlFrom bytes.now at → result ≡ Some at }
{
    let valid = valid_len(bytes);
    if let Some(at) = first_forbidden(&bytes[..valid]) {
        return Some(at);
    }
    if valid < bytes.len() {
        Some(valid)
    } else {
        None
    }
}

/// The length of the longest prefix that is UTF-8.
fn valid_len(bytes: &[u8]) -> usize
    ensures bound { result ≤ length bytes.now }
    ensures front { IsUtf8 (take result bytes.now) }
    ensures stop { result < length bytes.now → IsValidUpTo bytes.now result }
{
    match str::from_utf8(bytes) {
        Ok(text) => text.len(),
        Err(error) => error.valid_up_to(),
    }
}

/// Where in the text the first character is that a document may not hold.
fn first_forbidden(text: &[u8]) -> Option<usize>
    ensures none { IsNone result → (k : ℕ) → k < length text.now → forbidden_at text.now k ≡ false }
    ensures some { IfSome result (λ at. (at < length text.now) × (forbidden_at text.now at ≡ true)
        × ((k : ℕ) → k < at → forbidden_at text.now k ≡ false)) }
{
    for at in 0..text.len() {
        if is_forbidden_at(text, at) {
            return Some(at);
        }
    }
    None
}

/// Whether a control character other than a blank, U+FFFE or U+FFFF begins at this place.
#[tactic(auto, unfolding(crate::specs::XmlBytes::forbidden_at))]
fn is_forbidden_at(text: &[u8], at: usize) -> bool
    requires { at < length text.now }
    ensures { result ≡ forbidden_at text.now at }
{
    is_control(text[at])
        || (text[at] == 0xEF && text.len() - at > 2 && text[at + 1] == 0xBF && text[at + 2] >= 0xBE)
}

fn is_control(byte: u8) -> bool
    ensures { result ≡ is_control byte }
{
    byte < b' ' && !is_blank(byte)
}

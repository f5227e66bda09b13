//! Bytes as hexadecimal digits: two for each byte, 0 to 9 and a to f.
ghost use Rattle.std.specs.Prelude.{◌≡◌, ℕ, ◌/◌, ◌%◌, ◌<◌, Some, List, IfOk, IfSome, IsTrue};
ghost use Rattle.byte_forms.specs.Digits.{hex_digit};
ghost use Rattle.drill_script.specs.LineText.{are_bytes, hex_text};

use as4_values::{NoMemory, Octets};
use byte_forms::digit_value;
use std::alloc::Global;

/// Reads the digits of bytes.
pub(crate) fn hex_of(alloc: Global, digits: &[u8]) -> Result<Option<Octets>, NoMemory>
    ensures found { IfOk result (λ read. IfSome read (λ bytes. (digits.now ≡ hex_text bytes) × IsTrue (are_bytes bytes))) }
    ensures only { (bytes : List ℕ) → digits.now ≡ hex_text bytes → IsTrue (are_bytes bytes)
        → IfOk result (λ read. read ≡ Some bytes) }
{
    let mut bytes = Vec::with_capacity(alloc, digits.len() / 2)?;
    let mut rest = digits;
    'pairs: while let [high, low, tail @ ..] = rest {
        let Some(byte) = byte_of(*high, *low) else {
            return Ok(None);
        };
        bytes.push(byte)?;
        rest = tail;
    }
    if !rest.is_empty() {
        return Ok(None);
    }
    Ok(Some(Octets::of(bytes)))
}

// Reads the two digits of a byte.
fn byte_of(high: u8, low: u8) -> Option<u8>
    ensures range { IfSome result (λ byte. byte < 256) }
    ensures found { IfSome result (λ byte. (high ≡ hex_digit (byte / 16)) × (low ≡ hex_digit (byte % 16))) }
    ensures only { (byte : ℕ) → byte < 256 → high ≡ hex_digit (byte / 16) → low ≡ hex_digit (byte % 16) → result ≡ Some byte }
{
    let high = digit_value(high)?;
    let low = digit_value(low)?;
    Some(high * 16 + low)
}

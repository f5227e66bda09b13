//! The nonce in a submission's identifier.

ghost use Rattle.std.specs.Prelude.{◌≡◌, ◌^◌, ◌≤◌, IfOk, IfSome, IsNone, IsTrue};
ghost use Rattle.as4_effects.specs.Sound.{digit_of, is_id_of, nonce_in, number_in};

use as4_values::{MessageId, NoMemory};
use std::alloc::Global;

/// The nonce that makes the identifier of the submission of this number.
pub fn nonce_of(alloc: Global, number: u64, id: &MessageId) -> Result<u128, NoMemory>
    requires { IsTrue (is_id_of number id.now) }
    ensures { IfOk result (λ nonce. nonce ≡ nonce_in number id.now) }
{
    let digits = format!(in alloc; "{number}")?.as_bytes().len();
    let bytes = id.bytes();
    if bytes.len() < digits + 37 {
        return Ok(0);
    }
    match number_in(&bytes[digits + 1..digits + 37]) {
        Some(nonce) => Ok(nonce),
        None => Ok(0),
    }
}

/// The number that the digits of a UUID's text write; None where it has more than 128 bits.
#[tactic(auto, using(as4_effects::proofs::NonceLemmas::too_great), unfolding(as4_effects::specs::Sound::number_in))]
fn number_in(text: &[u8]) -> Option<u128>
    ensures some { IfSome result (λ number. number ≡ number_in 0 text.now) }
    ensures none { IsNone result → 2 ^ 128 ≤ number_in 0 text.now }
{
    let mut number: u128 = 0;
    for byte in text {
        if *byte != b'-' {
            number = number
                .checked_mul(16)?
                .checked_add(digit_of(*byte) as u128)?;
        }
    }
    Some(number)
}

/// The value of a lower-case hexadecimal digit.
fn digit_of(byte: u8) -> u8
    ensures { result ≡ digit_of byte }
{
    if byte >= b'a' {
        byte - 87
    } else {
        byte.saturating_sub(48)
    }
}

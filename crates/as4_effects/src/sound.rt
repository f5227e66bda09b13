//! Tests of the facts that a submission and a delivery keep, for code that makes one.

ghost use Rattle.std.specs.Prelude.{◌≡◌, ℕ, ◌≤◌, ◌^◌, IfOk, IfSome, IsNone};
ghost use Rattle.as4_effects.specs.Sound.{digit_of, number_in, is_id_of, is_route, submitted_body, delivered_body, kept_body, fits_an_effect};

use crate::measured::Measured;
use as4_values::{MessageId, NoMemory, Payload, Route, Seq, UserHeader, is_address};
use std::alloc::Global;

/// The most bytes of an effect that an event makes: the limit of a record's body less the two bytes of its count.
const MAX_EFFECT: u64 = 536_870_910;

/// The length of a submission's identifier after its number.
const BEHIND_NUMBER: usize = 41;

/// Whether the identifier is that of a submission of this number, with some nonce.
pub fn is_id_of(alloc: Global, number: u64, id: &MessageId) -> Result<bool, NoMemory>
    ensures { IfOk result (λ same. same ≡ is_id_of number id.now) }
{
    let digits = format!(in alloc; "{number}")?.as_bytes().len();
    let bytes = id.bytes();
    if bytes.len() != digits + BEHIND_NUMBER {
        return Ok(false);
    }
    let Some(nonce) = number_in(&bytes[digits + 1..digits + 37]) else {
        return Ok(false);
    };
    let wanted = MessageId::of_submission(alloc, number, nonce)?;
    Ok(bytes == wanted.bytes())
}

/// The number that the digits of a UUID's text write; None where it has more than 128 bits.
#[tactic(auto, using(crate::proofs::NonceLemmas::too_great), unfolding(crate::specs::Sound::number_in))]
fn number_in(text: &[u8]) -> Option<u128>
    ensures some { IfSome result (λ number. number ≡ number_in 0 text.now) }
    ensures none { IsNone result → 2 ^ 128 ≤ number_in 0 text.now }
{
    let mut number: u128 = 0;
    for byte in text {
        if *byte != b'-' {
            number = number
                .checked_mul(16)?
                .checked_add(digit_of(*byte) as u128)?;
        }
    }
    Some(number)
}

/// The value of a lower-case hexadecimal digit.
fn digit_of(byte: u8) -> u8
    ensures { result ≡ digit_of byte }
{
    if byte >= b'a' {
        byte - 87
    } else {
        byte.saturating_sub(48)
    }
}

/// Whether the address of the route is well-formed.
#[tactic(auto, unfolding(crate::specs::Sound::is_route))]
pub fn is_route(route: &Route) -> bool
    ensures { result ≡ is_route route.now }
{
    match route {
        Route::Push { address } => is_address(address),
        Route::Pull { address, .. } => is_address(address),
    }
}

/// Whether a submission with these fields fits an effect, whatever its numbers are.
#[tactic(auto, using(crate::proofs::LengthLemmas::grown_append, crate::proofs::LengthLemmas::grown_cons, crate::proofs::LengthLemmas::grown_number, crate::proofs::LengthLemmas::fits_by_length))]
pub fn submission_fits(header: &UserHeader, payloads: &Seq<Payload>, route: &Route) -> bool
    ensures { (number retries period moment : ℕ)
        → result ≡ fits_an_effect (submitted_body number header.now payloads.now route.now retries period moment) }
{
    let len = header.add_len(9);
    let len = payloads.add_len(len);
    let len = route.add_len(len).saturating_add(20);
    len <= MAX_EFFECT
}

/// Whether a delivery with these fields fits an effect.
#[tactic(auto, using(crate::proofs::LengthLemmas::grown_append, crate::proofs::LengthLemmas::grown_cons, crate::proofs::LengthLemmas::fits_by_length))]
pub fn delivery_fits(header: &UserHeader, payloads: &Seq<Payload>) -> bool
    ensures { result ≡ fits_an_effect (delivered_body header.now payloads.now) }
{
    payloads.add_len(header.add_len(1)) <= MAX_EFFECT
}

/// Whether the effect `Kept` of this header fits an effect's limit.
#[tactic(auto, using(crate::proofs::LengthLemmas::grown_cons, crate::proofs::LengthLemmas::fits_by_length))]
pub fn header_fits(header: &UserHeader) -> bool
    ensures { result ≡ fits_an_effect (kept_body header.now) }
{
    header.add_len(1) <= MAX_EFFECT
}

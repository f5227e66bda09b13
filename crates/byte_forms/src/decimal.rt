//! Decimal numbers in one spelling.
ghost use Rattle.std.specs.Prelude.{◌≡◌, ◌<◌, ◌^◌, ℕ, Some, IfSome};
ghost use Rattle.std.specs.Fmt.{decimal};

use itoa::Buffer;
use std::str;

/// The number that decimal digits spell without a sign and without leading zeros.
pub fn decimal_of(digits: &[u8]) -> Option<u128>
    ensures found { IfSome result (λ number. digits.now ≡ decimal number) }
    ensures range { IfSome result (λ number. number < 2 ^ 128) }
    ensures only { (number : ℕ) → number < 2 ^ 128 → digits.now ≡ decimal number → result ≡ Some number }
{
    let Ok(text) = str::from_utf8(digits) else {
        return None;
    };
    let Ok(number) = text.parse::<u128>() else {
        return None;
    };
    let mut buffer = Buffer::new();
    if buffer.format(number).as_bytes() != digits {
        return None;
    }
    Some(number)
}

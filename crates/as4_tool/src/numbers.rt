//! Numbers among the words.
ghost use Rattle.std.specs.Prelude.{◌≡◌, ◌<◌, ◌≤◌, ◌^◌, ℕ, Some, IfSome};
ghost use Rattle.std.specs.Fmt.{decimal};

use byte_forms::decimal_of;

/// The number that the text spells, below 2^128.
pub(crate) fn wide_number(text: &str) -> Option<u128>
    ensures found { IfSome result (λ n. (text.now ≡ decimal n) × (n < 2 ^ 128)) }
    ensures only { (n : ℕ) → n < 2 ^ 128 → text.now ≡ decimal n → result ≡ Some n }
{
    decimal_of(text.as_bytes())
}

/// The number that the text spells, if it is at most `most`.
pub(crate) fn number_within(text: &str, most: u64) -> Option<u64>
    ensures found { IfSome result (λ n. (text.now ≡ decimal n) × (n ≤ most)) }
    ensures only { (n : ℕ) → n ≤ most → text.now ≡ decimal n → result ≡ Some n }
{
    let number = decimal_of(text.as_bytes())?;
    if number > u128::from(most) {
        return None;
    }
    Some(number as u64)
}

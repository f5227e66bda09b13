//! Hexadecimal digits in lower case.
ghost use Rattle.std.specs.Prelude.{◌≡◌, ◌<◌, ℕ, Some, IfSome};
ghost use Rattle.byte_forms.specs.Digits.{digit_value, hex_digit};

/// The value of a digit, from 0 to 15.
pub fn digit_value(digit: u8) -> Option<u8>
    ensures value { result ≡ digit_value digit }
    ensures range { IfSome result (λ value. value < 16) }
    ensures found { IfSome result (λ value. digit ≡ hex_digit value) }
    ensures only { (value : ℕ) → value < 16 → digit ≡ hex_digit value → result ≡ Some value }
{
    match digit {
        b'0'..=b'9' => Some(digit - b'0'),
        b'a'..=b'f' => Some(digit - 87),
        _ => None,
    }
}

/// The digit of a value from 0 to 15.
pub fn hex_digit(value: u8) -> u8
    requires { value < 16 }
    ensures { result ≡ hex_digit value }
{
    if value < 10 { b'0' + value } else { 87 + value }
}

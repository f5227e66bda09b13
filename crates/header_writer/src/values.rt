//! The bytes of optional values.

ghost use Rattle.std.specs.Prelude.{◌≡◌};
ghost use Rattle.std.specs.Option.{option_copied};

use as4_values::{MessageId, Text};

pub fn text_bytes(text: &Option<Text>) -> Option<&[u8]>
    ensures { option_copied result ≡ text.now }
{
    match text {
        None => None,
        Some(text) => Some(text.bytes()),
    }
}

pub fn id_bytes(id: &Option<MessageId>) -> Option<&[u8]>
    ensures { option_copied result ≡ id.now }
{
    match id {
        None => None,
        Some(id) => Some(id.bytes()),
    }
}

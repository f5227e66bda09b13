//! Texts, identifiers, codes and stamps, which blanks may surround.

ghost use Rattle.std.specs.Prelude.{◌≡◌, ℕ, List, Option};
ghost use Rattle.header_reader.specs.Gives.{Gives};
ghost use Rattle.header_reader.specs.Values.{text_of, id_of, code_of, stamp_of, optional};

use crate::refusal::HeaderRefusal;
use as4_values::{
    Code, IdRefusal, MessageId, StampRefusal, StampText, Text, TextRefusal, read_stamp,
};
use byte_forms::trimmed;
use std::alloc::Global;

/// A value that is read from bytes.
pub trait Value: Drop {
    ghost value_of: { List ℕ → Option Self };

    fn read_value(alloc: Global, bytes: &[u8]) -> Result<Self, HeaderRefusal>
        ensures { Gives result (value_of bytes.now) };
}

impl Value for Text {
    ghost value_of = { text_of };

    fn read_value(alloc: Global, bytes: &[u8]) -> Result<Text, HeaderRefusal> {
        match Text::read(alloc, bytes) {
            Ok(text) => Ok(text),
            Err(TextRefusal::BadText { .. }) => Err(HeaderRefusal::Invalid),
            Err(TextRefusal::NoMemory) => Err(HeaderRefusal::NoMemory),
        }
    }
}

impl Value for MessageId {
    ghost value_of = { id_of };

    fn read_value(alloc: Global, bytes: &[u8]) -> Result<MessageId, HeaderRefusal> {
        match MessageId::read(alloc, trimmed(bytes)) {
            Ok(id) => Ok(id),
            Err(IdRefusal::BadId { .. }) => Err(HeaderRefusal::Invalid),
            Err(IdRefusal::NoMemory) => Err(HeaderRefusal::NoMemory),
        }
    }
}

impl Value for Code {
    ghost value_of = { code_of };

    fn read_value(alloc: Global, bytes: &[u8]) -> Result<Code, HeaderRefusal> {
        match Code::read(alloc, trimmed(bytes)) {
            Ok(code) => Ok(code),
            Err(IdRefusal::BadId { .. }) => Err(HeaderRefusal::Invalid),
            Err(IdRefusal::NoMemory) => Err(HeaderRefusal::NoMemory),
        }
    }
}

impl Value for StampText {
    ghost value_of = { stamp_of };

    fn read_value(alloc: Global, bytes: &[u8]) -> Result<StampText, HeaderRefusal> {
        match read_stamp(alloc, trimmed(bytes)) {
            Ok(stamp) => Ok(stamp),
            Err(StampRefusal::BadStamp { .. }) => Err(HeaderRefusal::Invalid),
            Err(StampRefusal::NoMemory) => Err(HeaderRefusal::NoMemory),
        }
    }
}

/// Reads an optional value; only blanks count as no value.
#[tactic(auto, unfolding(crate::specs::Values::optional))]
pub fn read_optional<T: Value>(alloc: Global, bytes: &[u8]) -> Result<Option<T>, HeaderRefusal>
    ensures { Gives result (optional T.value_of bytes.now) }
{
    if trimmed(bytes).is_empty() {
        return Ok(None);
    }
    Ok(Some(T::read_value(alloc, bytes)?))
}

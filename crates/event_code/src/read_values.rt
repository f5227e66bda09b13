//! Reads texts, identifiers, stamps, codes and octets. Their types check the bytes; a text is refused unless the bytes
//! are exactly the text.

ghost use Rattle.std.specs.Prelude.{◌≡◌, ℕ, List, length};
ghost use Rattle.byte_forms.specs.Forms.{IsCounted};
ghost use Rattle.as4_effects.specs.Bodies.{text_body};
ghost use Rattle.as4_values.specs.Texts.{IsText};
ghost use Rattle.as4_values.specs.Word.{IsWord};
ghost use Rattle.as4_values.specs.declared.word.Word.TheVariants.{Identifier, ErrorCode};
ghost use Rattle.event_code.specs.Spelled.{IsSpelledStamp};

use crate::reading::Readable;
use crate::refusal::BodyRefusal;
use crate::rest::Rest;
use as4_values::{
    Code, IdRefusal, MessageId, Octets, StampRefusal, StampText, Text, TextRefusal, read_stamp,
};
use std::alloc::Global;

impl Readable for Octets {
    ghost body = { text_body };

    ghost is_one = { IsCounted {X = ℕ} };

    fn read(alloc: Global, rest: &mut Rest) -> Result<Octets, BodyRefusal> {
        let octets = rest.take_octets()?;
        match Vec::from_slice(alloc, octets) {
            Ok(items) => Ok(Octets::of(items)),
            Err(_) => Err(BodyRefusal::NoMemory),
        }
    }

    #[tactic(auto, using(byte_forms::proofs::OnceLemmas::text_once))]
    fn once() {}
}

impl Readable for Text {
    ghost body = { text_body };

    ghost is_one = { IsText };

    fn read(alloc: Global, rest: &mut Rest) -> Result<Text, BodyRefusal> {
        let octets = rest.take_octets()?;
        match Text::read(alloc, octets) {
            Ok(text) if text.bytes() == octets => Ok(text),
            Ok(_) => Err(BodyRefusal::NotBody),
            Err(TextRefusal::BadText { .. }) => Err(BodyRefusal::NotBody),
            Err(TextRefusal::NoMemory) => Err(BodyRefusal::NoMemory),
        }
    }

    #[tactic(auto, using(as4_effects::proofs::CountLemmas::texts_once))]
    fn once() {}
}

impl Readable for MessageId {
    ghost body = { text_body };

    ghost is_one = { IsWord Identifier };

    fn read(alloc: Global, rest: &mut Rest) -> Result<MessageId, BodyRefusal> {
        match MessageId::read(alloc, rest.take_octets()?) {
            Ok(id) => Ok(id),
            Err(IdRefusal::BadId { .. }) => Err(BodyRefusal::NotBody),
            Err(IdRefusal::NoMemory) => Err(BodyRefusal::NoMemory),
        }
    }

    fn once() {}
}

impl Readable for Code {
    ghost body = { text_body };

    ghost is_one = { IsWord ErrorCode };

    fn read(alloc: Global, rest: &mut Rest) -> Result<Code, BodyRefusal> {
        match Code::read(alloc, rest.take_octets()?) {
            Ok(code) => Ok(code),
            Err(IdRefusal::BadId { .. }) => Err(BodyRefusal::NotBody),
            Err(IdRefusal::NoMemory) => Err(BodyRefusal::NoMemory),
        }
    }

    fn once() {}
}

impl Readable for StampText {
    ghost body = { text_body };

    ghost is_one = { IsSpelledStamp };

    fn read(alloc: Global, rest: &mut Rest) -> Result<StampText, BodyRefusal> {
        match read_stamp(alloc, rest.take_octets()?) {
            Ok(stamp) => Ok(stamp),
            Err(StampRefusal::BadStamp { .. }) => Err(BodyRefusal::NotBody),
            Err(StampRefusal::NoMemory) => Err(BodyRefusal::NoMemory),
        }
    }

    #[tactic(auto, using(as4_effects::proofs::CountLemmas::stamps_once), unfolding(crate::specs::Spelled::IsSpelledStamp))]
    fn once() {}
}

//! The pieces of a target, and their values.

ghost use Rattle.std.specs.Prelude.{◌≡◌, ℕ, ◌<◌, ◌^◌, IfOk, decimal};
ghost use Rattle.percent_encoding.specs.Percent.{percent_decode};
ghost use Rattle.as4_values.specs.Word.{IsWord};
ghost use Rattle.as4_values.specs.declared.word.Word.TheVariants.{Identifier};
ghost use Rattle.as4_doors.specs.Targets.{pieces, Finds, IsShortText, IsConversation};

use as4_values::{IdRefusal, MessageId, NoMemory, Octets, Text, TextRefusal, one_text};
use byte_forms::{cut_at, decimal_of};
use percent_encoding::percent_decode;
use std::alloc::Global;

/// The most bytes of a mode's name and of a conversation.
const MAX_SHORT: usize = 255;

const _: () = prove!(MAX_SHORT == 255);

/// The pieces of a target, decoded.
pub(crate) fn pieces_of(alloc: Global, target: &[u8]) -> Result<Vec<Octets>, NoMemory>
    ensures { IfOk result (λ list. list.items ≡ pieces target.now) }
{
    let mut list = Vec::new(alloc);
    let mut rest = target;
    'pieces: while let Some((piece, more)) = cut_at(b'/', rest) {
        list.push(decoded(alloc, piece)?)?;
        rest = more;
    }
    list.push(decoded(alloc, rest)?)?;
    Ok(list)
}

fn decoded(alloc: Global, piece: &[u8]) -> Result<Octets, NoMemory>
    ensures { IfOk result (λ bytes. bytes ≡ percent_decode piece.now) }
{
    let mut bytes = Vec::new(alloc);
    percent_decode(piece).append_to(&mut bytes)?;
    Ok(Octets::of(bytes))
}

/// The number of 64 bits that a piece is, in its one spelling.
pub(crate) fn number_in(piece: &[u8]) -> Option<u64>
    ensures { Finds (λ (number : ℕ). (piece.now ≡ decimal number) × (number < 2 ^ 64)) result }
{
    u64::try_from(decimal_of(piece)?).ok()
}

/// The identifier that a piece is.
pub(crate) fn id_in(alloc: Global, piece: &[u8]) -> Result<Option<MessageId>, NoMemory>
    ensures { IfOk result (Finds (λ id. (piece.now ≡ id) × IsWord Identifier id)) }
{
    match MessageId::read(alloc, piece) {
        Ok(id) => Ok(Some(id)),
        Err(IdRefusal::BadId { .. }) => Ok(None),
        Err(IdRefusal::NoMemory) => Err(NoMemory),
    }
}

/// The text of at most 255 bytes that a piece is read as.
pub(crate) fn short_text(alloc: Global, piece: &[u8]) -> Result<Option<Text>, NoMemory>
    ensures { IfOk result (Finds (IsShortText piece.now)) }
{
    one_text();
    match Text::read(alloc, piece) {
        Ok(text) if text.bytes().len() <= MAX_SHORT => Ok(Some(text)),
        Ok(_) => Ok(None),
        Err(TextRefusal::BadText { .. }) => Ok(None),
        Err(TextRefusal::NoMemory) => Err(NoMemory),
    }
}

/// The conversation that a piece is read as. An empty piece is none.
pub(crate) fn conversation_in(alloc: Global, piece: &[u8]) -> Result<Option<Option<Text>>, NoMemory>
    ensures { IfOk result (Finds (IsConversation piece.now)) }
{
    if piece.is_empty() {
        return Ok(Some(None));
    }
    match short_text(alloc, piece)? {
        Some(text) => Ok(Some(Some(text))),
        None => Ok(None),
    }
}

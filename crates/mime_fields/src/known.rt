//! The values of a part's three known fields: Content-ID, Content-Type and Content-Transfer-Encoding (RFC 2045,
//! sections 5 to 7).
ghost use Rattle.std.specs.Prelude.{◌≡◌, ◌↔◌, IfOk, IfSome, IsTrue, Some, map, option_map};
ghost use Rattle.as4_values.specs.Payload.{IsContentId, is_media_text};
ghost use Rattle.mime_fields.specs.Fields.{content_id, id_of, is_identity, is_word, media_of, without_brackets};
ghost use Rattle.mime_fields.specs.Known.{known_of, known_values, value_in};
ghost use Rattle.mime_fields.specs.Lent.{field_of};

use crate::fields::{RawField, lines_of};
use crate::runs::is_same_word;
use crate::unfolded::unfolded_value;
use as4_values::{NoMemory, Octets, Word};
use std::alloc::Global;

/// The lines of the known fields, if a head has them.
#[derive(Clone, Copy)]
pub struct KnownLines<'a> {
    pub id: Option<&'a [u8]>,
    pub media: Option<&'a [u8]>,
    pub encoding: Option<&'a [u8]>,
}

/// Finds the known fields; `None` if one of them occurs twice.
#[tactic(auto, unfolding(crate::specs::Known::known_of))]
pub fn known_lines<'a>(fields: &[RawField<'a>]) -> Option<KnownLines<'a>>
    ensures { option_map known_values result ≡ known_of (map field_of fields.now) }
{
    let id = lines_of(b"Content-ID", fields)?;
    let media = lines_of(b"Content-Type", fields)?;
    let encoding = lines_of(b"Content-Transfer-Encoding", fields)?;
    Some(KnownLines {
        id,
        media,
        encoding,
    })
}

/// The Content-ID without its angle brackets, if there is one; `None` if it is no identifier.
#[tactic(auto, using(crate::proofs::KnownLemmas::long_id))]
pub fn id_in(alloc: Global, lines: Option<&[u8]>) -> Result<Option<Option<Octets>>, NoMemory>
    ensures value { IfOk result (λ found. found ≡ id_of (value_in lines.entry)) }
    ensures named { IfOk result (λ found. IfSome found (λ id. IfSome id IsContentId)) }
{
    let Some(lines) = lines else {
        return Ok(Some(None));
    };
    let Some(value) = unfolded_value(alloc, lines)? else {
        return Ok(None);
    };
    let Some(id) = content_id(alloc, value.as_slice())? else {
        return Ok(None);
    };
    Ok(Some(Some(id)))
}

/// The media text, empty if there is none; `None` if it is too long.
#[tactic(auto, using(crate::proofs::MediaLemmas::is_media, crate::proofs::MediaLemmas::no_media))]
pub fn media_in(alloc: Global, lines: Option<&[u8]>) -> Result<Option<Octets>, NoMemory>
    ensures value { IfOk result (λ found. found ≡ media_of (value_in lines.entry)) }
    ensures typed { IfOk result (λ found. IfSome found (λ media. IsTrue (is_media_text media))) }
{
    let Some(lines) = lines else {
        return Ok(Some(Octets::of(Vec::new(alloc))));
    };
    let Some(value) = unfolded_value(alloc, lines)? else {
        return Ok(None);
    };
    Ok(Some(Octets::of(value)))
}

/// Whether the content is sent unencoded.
#[tactic(auto, using(crate::proofs::KnownLemmas::long_encoding))]
pub fn identity_in(alloc: Global, lines: Option<&[u8]>) -> Result<bool, NoMemory>
    ensures { IfOk result (λ identity. identity ≡ is_identity (value_in lines.entry)) }
{
    let Some(lines) = lines else {
        return Ok(true);
    };
    let Some(value) = unfolded_value(alloc, lines)? else {
        return Ok(false);
    };
    Ok(is_identity(value.as_slice()))
}

/// The bytes between angle brackets, or the bytes themselves if they have none.
pub fn without_brackets(bytes: &[u8]) -> &[u8]
    ensures { result.now ≡ without_brackets bytes.now }
{
    if bytes.len() > 1 && bytes.starts_with(b"<") && bytes.ends_with(b">") {
        &bytes[1..bytes.len() - 1]
    } else {
        bytes
    }
}

#[tactic(auto, unfolding(crate::specs::Fields::content_id))]
fn content_id(alloc: Global, value: &[u8]) -> Result<Option<Octets>, NoMemory>
    ensures value { IfOk result (λ found. found ≡ content_id value.now) }
    ensures named { IfOk result (λ found. IfSome found IsContentId) }
{
    let id = without_brackets(value);
    if !is_word(id) {
        return Ok(None);
    }
    Ok(Some(Octets::of(Vec::from_slice(alloc, id)?)))
}

fn is_word(bytes: &[u8]) -> bool
    ensures value { result ≡ is_word bytes.now }
    ensures named { IsTrue result ↔ IsContentId bytes.now }
{
    Word::Identifier.first_wrong(bytes).is_none()
}

fn is_identity(value: &[u8]) -> bool
    ensures { result ≡ is_identity (Some value.now) }
{
    is_same_word(value, b"7bit") || is_same_word(value, b"8bit") || is_same_word(value, b"binary")
}

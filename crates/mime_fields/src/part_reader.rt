//! Reads a part: its fields, and the values of the known ones.
ghost use Rattle.std.specs.Prelude.{◌≡◌, IfOk, option_map};
ghost use Rattle.mime_fields.specs.Fields.{part_of};
ghost use Rattle.mime_fields.specs.Known.{known_values, part_with};
ghost use Rattle.mime_fields.specs.Lent.{part_value};

use crate::fields::read_head;
use crate::known::{KnownLines, id_in, identity_in, known_lines, media_in};
use crate::part::Part;
use as4_values::NoMemory;
use std::alloc::Global;

/// Reads a part; `None` if the bytes spell none. They don't if the head has more than 64 fields, a field is malformed,
/// a known field occurs twice, a Content-ID is no identifier, or a Content-Type has more than 1,024 bytes.
pub fn read_part<'a>(alloc: Global, bytes: &'a [u8]) -> Result<Option<Part<'a>>, NoMemory>
    ensures { IfOk result (λ found. option_map part_value found ≡ part_of bytes.now) }
{
    let Some(head) = read_head(alloc, bytes)? else {
        return Ok(None);
    };
    let Some(known) = known_lines(head.fields.as_slice()) else {
        return Ok(None);
    };
    part_with(alloc, known, head.content)
}

// The part with these known fields and this content.
#[tactic(auto, unfolding(crate::specs::Known::part_with))]
fn part_with<'a>(
    alloc: Global,
    known: KnownLines<'_>,
    content: &'a [u8],
) -> Result<Option<Part<'a>>, NoMemory>
    ensures { IfOk result (λ found. option_map part_value found ≡ part_with (known_values known.entry) content.now) }
{
    let Some(id) = id_in(alloc, known.id)? else {
        return Ok(None);
    };
    let Some(media) = media_in(alloc, known.media)? else {
        return Ok(None);
    };
    let identity = identity_in(alloc, known.encoding)?;
    Ok(Some(Part {
        id,
        media,
        identity,
        content,
    }))
}

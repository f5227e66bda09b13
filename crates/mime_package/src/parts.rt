//! The parts of a body (RFC 2046, section 5.1.1).

ghost use Rattle.std.specs.Prelude.{◌≡◌, ◌++◌, IfOk, codes, drop, map, option_map};
ghost use Rattle.mime_fields.specs.Fields.{crlf};
ghost use Rattle.mime_fields.specs.Lent.{part_value};
ghost use Rattle.mime_package.specs.Answers.{Answers};
ghost use Rattle.mime_package.specs.Reading.{max_parts, parts_of, parts_within};
ghost use Rattle.mime_package.specs.Lent.{ending_of};
ghost use Rattle.mime_package.specs.Steps.{part_at, with_part};

use crate::delimiters::Ending;
use crate::read::MimeRefusal;
use crate::search::Search;
use as4_values::NoMemory;
use mime_fields::{Part, read_part};
use std::alloc::{AllocError, Global};

/// The maximum number of parts of a package.
const MAX_PARTS: usize = 256;

/// The parts of a body, in order: at least one, and at most `MAX_PARTS`.
pub fn parts_of<'a>(
    alloc: Global,
    boundary: &[u8],
    body: &'a [u8],
) -> Result<Vec<Part<'a>>, MimeRefusal>
    ensures { Answers (λ parts. map part_value parts.items) result (parts_of boundary.now body.now) }
{
    let start = delimiter_start(alloc, boundary)?;
    let parts = parts_from(alloc, &Search::new(boundary, start.as_slice()), body);
    drop(start);
    parts
}

// The prefix of each delimiter.
fn delimiter_start(alloc: Global, boundary: &[u8]) -> Result<Vec<u8>, AllocError>
    ensures { IfOk result (λ start. start.items ≡ crlf ++ (codes "--" ++ boundary.now)) }
{
    let mut start = Vec::with_capacity(alloc, boundary.len() + 4)?;
    start.extend_from_slice(b"\r\n--")?;
    start.extend_from_slice(boundary)?;
    Ok(start)
}

#[tactic(auto, using(crate::proofs::PartsLemmas::no_delimiter, crate::proofs::PartsLemmas::parts_behind))]
fn parts_from<'a>(
    alloc: Global,
    search: &Search<'_>,
    body: &'a [u8],
) -> Result<Vec<Part<'a>>, MimeRefusal>
    ensures { Answers (λ parts. map part_value parts.items) result (parts_of search.now.boundary.now body.now) }
{
    match search.behind_first(body) {
        None => Err(MimeRefusal::NoBoundary),
        Some(rest) => parts_within(alloc, search, rest),
    }
}

// The parts after a delimiter, from its second CRLF on.
fn parts_within<'a>(
    alloc: Global,
    search: &Search<'_>,
    bytes: &'a [u8],
) -> Result<Vec<Part<'a>>, MimeRefusal>
    ensures { Answers (λ parts. map part_value parts.items) result (parts_within max_parts 0 search.now.boundary.now bytes.now) }
{
    let mut parts = Vec::new(alloc);
    let mut rest = bytes;
    for index in 0..MAX_PARTS {
        match next_part(alloc, search, rest, &mut parts) {
            Ok(Some(Ending::Last)) => return Ok(parts),
            Ok(Some(Ending::Next(behind))) => rest = behind,
            Ok(None) => {
                drop(parts);
                return Err(MimeRefusal::BadPart { index });
            }
            Err(NoMemory) => {
                drop(parts);
                return Err(MimeRefusal::NoMemory);
            }
        }
    }
    drop(parts);
    Err(MimeRefusal::BadPart { index: MAX_PARTS })
}

// Reads the first part after a delimiter, appends it to the parts so far and returns its end.
fn next_part<'a>(
    alloc: Global,
    search: &Search<'_>,
    bytes: &'a [u8],
    parts: &mut Vec<Part<'a>>,
) -> Result<Option<Ending<'a>>, NoMemory>
    ensures { IfOk result (λ found. option_map (λ ending. (map part_value parts.new.items, ending_of ending)) found
        ≡ option_map (with_part (map part_value parts.old.items)) (part_at search.now.boundary.now bytes.now)) }
{
    match part_at(alloc, search, bytes)? {
        None => Ok(None),
        Some((part, ending)) => {
            parts.push(part)?;
            Ok(Some(ending))
        }
    }
}

// The first part after a delimiter, and its end.
#[tactic(auto, unfolding(crate::specs::Steps::part_at))]
fn part_at<'a>(
    alloc: Global,
    search: &Search<'_>,
    bytes: &'a [u8],
) -> Result<Option<(Part<'a>, Ending<'a>)>, NoMemory>
    ensures { IfOk result (λ found. option_map (λ x. (part_value x.0, ending_of x.1)) found ≡ part_at search.now.boundary.now bytes.now) }
{
    let Some((piece, ending)) = search.up_to_ending(bytes) else {
        return Ok(None);
    };
    let Some(part) = read_part(alloc, behind_line_end(piece))? else {
        return Ok(None);
    };
    Ok(Some((part, ending)))
}

// The bytes after the CRLF of a delimiter, or no bytes if the next delimiter shares the CRLF.
fn behind_line_end(piece: &[u8]) -> &[u8]
    ensures { result.now ≡ drop 2 piece.now }
{
    match piece {
        [] => piece,
        [_] => &[],
        [_, _, bytes @ ..] => bytes,
    }
}

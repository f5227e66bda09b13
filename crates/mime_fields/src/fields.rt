//! The fields of a part's head (RFC 2822, section 2.2), borrowed from its bytes.
ghost use Rattle.std.specs.Prelude.{◌≡◌, ◌+◌, ◌≤◌, IfOk, IfSome, length, map, option_map};
ghost use Rattle.mime_fields.specs.Fields.{begins_with_space, field_at, fields_within, lines_within, max_fields, unfolded, value_of};
ghost use Rattle.mime_fields.specs.Lent.{field_of, head_of};
ghost use Rattle.mime_fields.specs.Loops.{content_at, goes_on};

use crate::class::Class;
use crate::runs::{after_line, is_same_word};
use as4_values::NoMemory;
use byte_forms::{ByteClass, run_at, strip_prefix};
use std::alloc::Global;

/// The maximum number of fields of a head.
const MAX_FIELDS: usize = 64;

/// A field as written.
#[derive(Clone, Copy)]
pub struct RawField<'a> {
    pub name: &'a [u8],
    /// The bytes between the colon and the CRLF that ends the field, with the line ends within.
    pub lines: &'a [u8],
}

/// A part's fields, and the content after them.
#[derive(Drop)]
pub struct Head<'a> {
    pub fields: Vec<RawField<'a>>,
    pub content: &'a [u8],
}

/// Reads the head of a part; `None` if the bytes begin with none, or with one of more than `MAX_FIELDS` fields.
#[tactic(auto, using(crate::proofs::FieldLemmas::none_yet))]
pub fn read_head<'a>(alloc: Global, bytes: &'a [u8]) -> Result<Option<Head<'a>>, NoMemory>
    ensures { IfOk result (λ found. option_map head_of found ≡ fields_within max_fields bytes.now) }
{
    let mut fields = Vec::new(alloc);
    let mut rest = bytes;
    while goes_on(rest) {
        if fields.len() == MAX_FIELDS {
            return Ok(None);
        }
        let Some((field, after)) = field_at(rest) else {
            return Ok(None);
        };
        fields.push(field)?;
        rest = after;
    }
    let Some(content) = content_at(rest) else {
        return Ok(None);
    };
    Ok(Some(Head { fields, content }))
}

/// The lines of the field of this name, in any case, if there is one; `None` if there are several.
#[tactic(auto, unfolding(crate::specs::Fields::value_of))]
pub fn lines_of<'a>(name: &[u8], fields: &[RawField<'a>]) -> Option<Option<&'a [u8]>>
    ensures { option_map (λ found. option_map (λ lines. unfolded lines.now) found) result ≡ value_of name.now (map field_of fields.now) }
{
    let mut found = None;
    for field in fields {
        if is_same_word(field.name, name) {
            if found.is_some() {
                return None;
            }
            found = Some(field.lines);
        }
    }
    Some(found)
}

// Whether a field must follow, and neither the end nor an empty line does.
fn goes_on(bytes: &[u8]) -> bool
    ensures { result ≡ goes_on bytes.now }
{
    match bytes {
        [] => false,
        [byte, ..] => *byte != b'\r',
    }
}

// The content after the fields: empty at the end, otherwise after an empty line.
#[tactic(auto, unfolding(crate::specs::Loops::content_at))]
fn content_at(bytes: &[u8]) -> Option<&[u8]>
    ensures { option_map (λ content. content.now) result ≡ content_at bytes.now }
{
    match bytes {
        [] => Some(bytes),
        [_, ..] => strip_prefix(b"\r\n", bytes),
    }
}

// A field, and the bytes after it.
#[tactic(auto, unfolding(crate::specs::Fields::field_at))]
fn field_at(bytes: &[u8]) -> Option<(RawField<'_>, &[u8])>
    ensures { option_map (λ x. (field_of x.0, x.1.now)) result ≡ field_at bytes.now }
{
    let (name, rest) = run_at(Class::Name, bytes)?;
    let rest = strip_prefix(b":", rest)?;
    let (lines, rest) = lines_at(rest)?;
    Some((RawField { name, lines }, rest))
}

// Lines, each of which after the first begins with a space or tab, and the bytes after the CRLF that ends them.
#[tactic(auto, using(crate::proofs::LineLemmas::lines_told))]
fn lines_at(bytes: &[u8]) -> Option<(&[u8], &[u8])>
    ensures { option_map (λ x. (x.0.now, x.1.now)) result ≡ lines_within (length bytes.now) bytes.now }
{
    let rest = behind_lines(bytes)?;
    let (lines, _) = bytes.split_at(bytes.len() - rest.len() - 2);
    Some((lines, rest))
}

// The bytes after such lines.
#[tactic(auto, using(crate::proofs::LineLemmas::more_lines, crate::proofs::LineLemmas::last_line, crate::proofs::LineLemmas::no_line, crate::proofs::LineLemmas::line_shortens))]
fn behind_lines(bytes: &[u8]) -> Option<&[u8]>
    ensures value { option_map (λ rest. rest.now) result ≡ option_map (λ x. x.1) (lines_within (length bytes.now) bytes.now) }
    ensures within { IfSome result (λ rest. length rest.now + 2 ≤ length bytes.now) }
{
    let mut rest = bytes;
    while let Some(next) = after_line(rest) {
        if !begins_with_space(next) {
            return Some(next);
        }
        rest = next;
    }
    None
}

fn begins_with_space(bytes: &[u8]) -> bool
    ensures { result ≡ begins_with_space bytes.now }
{
    match bytes {
        [] => false,
        [byte, ..] => Class::Space.has(*byte),
    }
}

//! The value of a field, unfolded (RFC 2822, section 2.2.3) and trimmed.
ghost use Rattle.std.specs.Prelude.{◌≡◌, ◌≤◌, IfOk, Some, length, option_map, take};
ghost use Rattle.std.specs.List.{filter};
ghost use Rattle.mime_fields.specs.Fields.{is_line_byte, media_of, unfolded};
ghost use Rattle.mime_fields.specs.Loops.{end_trimmed};

use crate::class::Class;
use as4_values::NoMemory;
use byte_forms::{ByteClass, skip};
use std::alloc::Global;

/// The longest value that is read, in bytes.
const MAX_VALUE: usize = 1024;

/// The unfolded lines, without spaces and tabs at both ends; `None` if they are longer than `MAX_VALUE`.
#[tactic(auto, using(crate::proofs::TrimLemmas::unfolded_is))]
pub fn unfolded_value(alloc: Global, lines: &[u8]) -> Result<Option<Vec<u8>>, NoMemory>
    ensures { IfOk result (λ value. option_map (λ v. v.items) value ≡ media_of (Some (unfolded lines.now))) }
{
    line_bytes(alloc, end_trimmed(skip(Class::Blank, lines)))
}

// The bytes except the line ends; `None` if they are more than `MAX_VALUE`.
#[tactic(auto, using(crate::proofs::TrimLemmas::too_long))]
fn line_bytes(alloc: Global, bytes: &[u8]) -> Result<Option<Vec<u8>>, NoMemory>
    ensures { IfOk result (λ value. option_map (λ v. v.items) value ≡ media_of (Some (filter is_line_byte bytes.now))) }
{
    let mut value = Vec::new(alloc);
    for byte in bytes {
        if Class::Line.has(*byte) {
            if value.len() == MAX_VALUE {
                return Ok(None);
            }
            value.push(*byte)?;
        }
    }
    Ok(Some(value))
}

// The bytes without trailing blanks and line ends.
fn end_trimmed(bytes: &[u8]) -> &[u8]
    ensures { result.now ≡ end_trimmed bytes.now }
{
    let (front, _) = bytes.split_at(trimmed_len(bytes));
    front
}

#[tactic(auto, using(crate::proofs::TrimLemmas::one_off, crate::proofs::TrimLemmas::none_off))]
fn trimmed_len(bytes: &[u8]) -> usize
    ensures value { take result bytes.now ≡ end_trimmed bytes.now }
    ensures within { result ≤ length bytes.now }
{
    let mut end = bytes.len();
    while end > 0 {
        if !Class::Blank.has(bytes[end - 1]) {
            return end;
        }
        end -= 1;
    }
    0
}

//! The meaning of texts and values (XML 1.0, sections 2.11, 3.3.3, 4.1 and 4.6).

ghost use Rattle.std.specs.Prelude.{◌≡◌, ◌<◌, ◌≤◌, min, length, cond, Some, None, position, IfSome};
ghost use Rattle.std.specs.List.{list_all, prefix_len};
ghost use Rattle.std.specs.Option.{option_map};
ghost use Rattle.std.specs.Char.{is_digit, encode_utf8};
ghost use Rattle.std.specs.Str.Parse.{digits_value};
ghost use Rattle.as4_values.specs.Texts.{is_xml, is_xml_char};
ghost use Rattle.tree_reader.specs.Decoded.{entity, numbered, referred, Piece, is_semicolon, reference_at, line_end, is_plain, is_simple, pieces_meant, characters_meant, text_meant, value_meant};
ghost use Rattle.tree_reader.specs.Views.{Finds, Adds, AddsPiece, GoesOn};

use crate::stop::Stop;
use as4_envelope::TreeBytes;
use as4_values::first_not_xml;
use std::alloc::Global;

/// The meaning of a value, from the bytes between its quotes.
#[tactic(auto, using(crate::proofs::SimpleLemmas::simple_meant))]
pub(crate) fn value_meant(alloc: Global, bytes: &[u8]) -> Result<TreeBytes, Stop>
    ensures { Finds (λ value. value) result (value_meant bytes.now) }
{
    if is_simple(true, bytes) {
        return Ok(TreeBytes::copied(alloc, bytes)?);
    }
    Ok(TreeBytes::of(alloc, characters_meant(alloc, true, bytes)?)?)
}

/// Adds the meaning of a text, from the bytes between two tags.
#[tactic(auto, using(crate::proofs::SimpleLemmas::simple_meant))]
pub(crate) fn push_text(alloc: Global, out: &mut TreeBytes, bytes: &[u8]) -> Result<(), Stop>
    ensures { Adds result (text_meant bytes.now) out.old out.new }
{
    if is_simple(false, bytes) {
        out.append(alloc, bytes)?;
        return Ok(());
    }
    let meant = characters_meant(alloc, false, bytes)?;
    out.append(alloc, meant.as_slice())?;
    Ok(())
}

/// The meaning of a text or a value.
#[tactic(auto, unfolding(crate::specs::Decoded::characters_meant))]
fn characters_meant(alloc: Global, in_value: bool, bytes: &[u8]) -> Result<Vec<u8>, Stop>
    ensures { Finds (λ meant. meant.items) result (characters_meant in_value bytes.now) }
{
    if !is_xml(bytes) {
        return Err(Stop::Markup);
    }
    let mut meant = Vec::with_capacity(alloc, bytes.len())?;
    push_pieces(&mut meant, in_value, bytes)?;
    Ok(meant)
}

/// Whether all bytes are ASCII characters of XML that mean themselves. There is no early exit, so that many bytes are
/// tested at once.
fn is_simple(in_value: bool, bytes: &[u8]) -> bool
    ensures { result ≡ list_all (is_simple in_value) bytes.now }
{
    let mut simple = true;
    for byte in bytes {
        simple &= is_simple_byte(in_value, *byte);
    }
    simple
}

fn is_simple_byte(in_value: bool, byte: u8) -> bool
    ensures { result ≡ is_simple in_value byte }
{
    byte != b'&' && (b' '..=b'~').contains(&byte) || !in_value && (byte == b'\n' || byte == b'\t')
}

/// Whether the bytes are characters of XML in UTF-8.
pub(crate) fn is_xml(bytes: &[u8]) -> bool
    ensures { result ≡ is_xml bytes.now }
{
    first_not_xml(bytes).is_none()
}

#[tactic(auto, unfolding(crate::specs::Decoded::pieces_meant))]
fn push_pieces(out: &mut Vec<u8>, in_value: bool, bytes: &[u8]) -> Result<(), Stop>
    ensures { Adds result (pieces_meant in_value bytes.now) out.old.items out.new.items }
{
    let mut rest = bytes;
    while !rest.is_empty() {
        rest = push_next(out, in_value, rest)?;
    }
    Ok(())
}

/// Adds the leading bytes that mean themselves or, if there are none, the meaning of the first piece. Returns the bytes
/// after them.
#[tactic(auto, using(crate::proofs::TextLemmas::plain_added))]
fn push_next<'a>(out: &mut Vec<u8>, in_value: bool, bytes: &'a [u8]) -> Result<&'a [u8], Stop>
    requires { 0 < length bytes.now }
    ensures { GoesOn result in_value bytes.now out.old.items out.new.items }
{
    let plain = plain_len(in_value, bytes);
    if plain == 0 {
        return push_piece(out, in_value, bytes);
    }
    let (front, rest) = bytes.split_at(plain);
    out.extend_from_slice(front)?;
    Ok(rest)
}

/// The number of leading bytes that mean themselves.
fn plain_len(in_value: bool, bytes: &[u8]) -> usize
    ensures value { result ≡ prefix_len (is_plain in_value) bytes.now }
    ensures bound { result ≤ length bytes.now }
{
    for (at, byte) in bytes.iter().enumerate() {
        if !is_plain(in_value, *byte) {
            return at;
        }
    }
    bytes.len()
}

fn is_plain(in_value: bool, byte: u8) -> bool
    ensures { result ≡ is_plain in_value byte }
{
    byte != b'&' && byte != b'\r' && !(in_value && (byte == b'\t' || byte == b'\n'))
}

/// Adds the meaning of the first piece, a reference or the end of a line.
#[tactic(auto, unfolding(crate::specs::Decoded::piece_at), using(crate::proofs::TextLemmas::piece_goes, crate::proofs::TextLemmas::piece_fails))]
fn push_piece<'a>(out: &mut Vec<u8>, in_value: bool, bytes: &'a [u8]) -> Result<&'a [u8], Stop>
    requires some { 0 < length bytes.now }
    requires not_plain { prefix_len (is_plain in_value) bytes.now ≡ 0 }
    ensures { GoesOn result in_value bytes.now out.old.items out.new.items }
{
    let (first, behind) = bytes.split_at(1);
    if first[0] == b'&' {
        return push_reference(out, behind);
    }
    out.push(line_end(in_value))?;
    if first[0] == b'\r' && behind.first() == Some(&b'\n') {
        return Ok(behind.split_at(1).1);
    }
    Ok(behind)
}

/// Adds the character of the reference, given the bytes after its `&`. Returns the bytes after the reference.
fn push_reference<'a>(out: &mut Vec<u8>, bytes: &'a [u8]) -> Result<&'a [u8], Stop>
    ensures { AddsPiece result (reference_at bytes.now) bytes.now out.old.items out.new.items }
{
    let Some((character, len)) = reference_at(bytes) else {
        return Err(Stop::Markup);
    };
    let mut room = [0; 4];
    out.extend_from_slice(character.encode_utf8(&mut room).as_bytes())?;
    Ok(bytes.split_at(len).1)
}

/// The meaning of the end of a line: a LF, in a value a space.
fn line_end(in_value: bool) -> u8
    ensures { result ≡ line_end in_value }
{
    if in_value { b' ' } else { b'\n' }
}

/// The reference after an `&`: its character, and the number of bytes that it takes.
#[tactic(auto, unfolding(crate::specs::Decoded::reference_at))]
fn reference_at(bytes: &[u8]) -> Option<(char, usize)>
    ensures value { option_map (λ x. record { meant = encode_utf8 x.0; more = x.1 }) result ≡ reference_at bytes.now }
    ensures bound { IfSome result (λ x. x.1 ≤ length bytes.now) }
{
    let at = semicolon_at(bytes)?;
    let character = referred(&bytes[..at])?;
    Some((character, at + 1))
}

fn semicolon_at(bytes: &[u8]) -> Option<usize>
    ensures value { result ≡ position is_semicolon bytes.now }
    ensures bound { IfSome result (λ at. at < length bytes.now) }
{
    bytes.iter().position(|byte| *byte == b';')
}

/// The character for a reference of this name.
#[tactic(auto, unfolding(crate::specs::Decoded::referred))]
fn referred(name: &[u8]) -> Option<char>
    ensures { result ≡ referred name.now }
{
    if let Some(digits) = name.strip_prefix(b"#x") {
        return numbered(16, digits);
    }
    if let Some(digits) = name.strip_prefix(b"#") {
        return numbered(10, digits);
    }
    entity(name)
}

/// The predefined entities.
#[tactic(auto, unfolding(crate::specs::Decoded::entity))]
fn entity(name: &[u8]) -> Option<char>
    ensures { result ≡ entity name.now }
{
    if name == b"amp".as_slice() {
        Some('&')
    } else if name == b"lt".as_slice() {
        Some('<')
    } else if name == b"gt".as_slice() {
        Some('>')
    } else if name == b"quot".as_slice() {
        Some('"')
    } else if name == b"apos".as_slice() {
        Some('\'')
    } else {
        None
    }
}

/// The character of XML that these digits name.
#[tactic(auto, unfolding(crate::specs::Decoded::numbered))]
fn numbered(radix: u32, digits: &[u8]) -> Option<char>
    requires low { 2 ≤ radix }
    requires high { radix ≤ 16 }
    ensures { result ≡ numbered radix digits.now }
{
    if digits.is_empty() {
        return None;
    }
    let number = number(radix, digits)?;
    if !is_xml_char(number) {
        return None;
    }
    char::from_u32(number)
}

/// One more than the last code of a character.
const PAST_CODES: u32 = 0x11_0000;

/// The number that the digits write, or `PAST_CODES` if it is greater; `None` if a byte isn't a digit.
fn number(radix: u32, digits: &[u8]) -> Option<u32>
    requires low { 2 ≤ radix }
    requires high { radix ≤ 16 }
    ensures { result ≡ cond (list_all (λ d. is_digit d radix) digits.now) (Some (min (digits_value radix digits.now) 0x11_0000)) None }
{
    let mut number = 0;
    for byte in digits {
        let digit = char::from(*byte).to_digit(radix)?;
        number = (number * radix + digit).min(PAST_CODES);
    }
    Some(number)
}

/// Whether this is the code of a character that a document may hold (XML 1.0, section 2.2).
fn is_xml_char(code: u32) -> bool
    ensures { result ≡ is_xml_char code }
{
    matches!(code, 0x9 | 0xA | 0xD | 0x20..=0xD7FF | 0xE000..=0xFFFD | 0x1_0000..=0x10_FFFF)
}

//! Delimiters (RFC 2046, section 5.1.1): lines of two hyphens and the boundary, with blanks at their end.
//!
//!     CRLF -- boundary blanks CRLF        a delimiter: a part may follow it
//!     CRLF -- boundary -- blanks CRLF     the last delimiter; at the end of the body it needs no second CRLF
//!
//! The bytes after a delimiter begin with its second CRLF, which the next delimiter may share.

ghost use Rattle.std.specs.Prelude.{◌≡◌, ◌++◌, codes};
ghost use Rattle.std.specs.Option.{option_map};
ghost use Rattle.byte_forms.specs.Cuts.{strip_prefix};
ghost use Rattle.mime_fields.specs.Fields.{crlf};
ghost use Rattle.mime_package.specs.Reading.{line_end, delimiter_at, is_line_end, is_last_at, ending_at};
ghost use Rattle.mime_package.specs.Lent.{ending_of};

use byte_forms::{Space, skip, strip_prefix};

/// The end of a part.
#[derive(Clone, Copy)]
pub enum Ending<'a> {
    /// The last delimiter.
    Last,
    /// A delimiter, and the bytes after it from its second CRLF on.
    Next(&'a [u8]),
}

/// The end of a part with which the bytes begin.
#[tactic(auto, unfolding(crate::specs::Reading::ending_at))]
pub fn ending_at<'a>(boundary: &[u8], bytes: &'a [u8]) -> Option<Ending<'a>>
    ensures { option_map ending_of result ≡ ending_at boundary.now bytes.now }
{
    if is_last_at(boundary, bytes) {
        return Some(Ending::Last);
    }
    let rest = delimiter_at(boundary, bytes)?;
    Some(Ending::Next(rest))
}

/// The bytes after a delimiter with which the bytes begin.
#[tactic(auto, unfolding(crate::specs::Reading::delimiter_at))]
pub fn delimiter_at<'a>(boundary: &[u8], bytes: &'a [u8]) -> Option<&'a [u8]>
    ensures { option_map (λ rest. rest.now) result ≡ delimiter_at boundary.now bytes.now }
{
    let rest = behind_boundary(boundary, bytes)?;
    line_end(rest)
}

/// The bytes after a delimiter at the first byte of the body, where its first CRLF is missing.
#[tactic(auto, using(crate::proofs::DelimiterLemmas::first_by_words))]
pub fn first_at<'a>(boundary: &[u8], body: &'a [u8]) -> Option<&'a [u8]>
    ensures { option_map (λ rest. rest.now) result ≡ delimiter_at boundary.now (crlf ++ body.now) }
{
    let rest = strip_prefix(b"--", body)?;
    let rest = strip_prefix(boundary, rest)?;
    line_end(rest)
}

// Whether the bytes begin with the last delimiter.
#[tactic(auto, unfolding(crate::specs::Reading::is_last_at))]
fn is_last_at(boundary: &[u8], bytes: &[u8]) -> bool
    ensures { result ≡ is_last_at boundary.now bytes.now }
{
    match behind_last(boundary, bytes) {
        None => false,
        Some(rest) => is_line_end(skip(Space, rest)),
    }
}

// The bytes after the boundary of the last delimiter and its two hyphens.
#[tactic(auto, using(crate::proofs::DelimiterLemmas::last_by_words))]
fn behind_last<'a>(boundary: &[u8], bytes: &'a [u8]) -> Option<&'a [u8]>
    ensures { option_map (λ rest. rest.now) result ≡ strip_prefix (crlf ++ (codes "--" ++ (boundary.now ++ codes "--"))) bytes.now }
{
    let rest = behind_boundary(boundary, bytes)?;
    strip_prefix(b"--", rest)
}

// The bytes after CRLF, two hyphens and the boundary.
#[tactic(auto, using(crate::proofs::DelimiterLemmas::start_by_words))]
fn behind_boundary<'a>(boundary: &[u8], bytes: &'a [u8]) -> Option<&'a [u8]>
    ensures { option_map (λ rest. rest.now) result ≡ strip_prefix (crlf ++ (codes "--" ++ boundary.now)) bytes.now }
{
    let rest = strip_prefix(b"\r\n--", bytes)?;
    strip_prefix(boundary, rest)
}

fn is_line_end(bytes: &[u8]) -> bool
    ensures { result ≡ is_line_end bytes.now }
{
    bytes.is_empty() || bytes.starts_with(b"\r\n")
}

// At blanks followed by the CRLF of a line's end: the bytes from that CRLF on.
#[tactic(auto, unfolding(crate::specs::Reading::line_end))]
fn line_end(bytes: &[u8]) -> Option<&[u8]>
    ensures { option_map (λ rest. rest.now) result ≡ line_end bytes.now }
{
    let rest = skip(Space, bytes);
    strip_prefix(b"\r\n", rest)?;
    Some(rest)
}

//! Whether a stream that begins with no request ends inside one.
//!
//!     empty lines   each LF or CRLF
//!     method, space, target, ..   the request line, ended by LF or CRLF
//!     field lines   at most 128
ghost use Rattle.std.specs.Prelude.{◌≡◌, ◌==◌, ◌↔◌, ◌≤◌, ◌++◌, List, IsTrue, IfSome, IsNone, codes, false, length};
ghost use Rattle.std.specs.List.{list_any};
ghost use Rattle.httparse.specs.Grammar.{AllPass, EndsInTarget, IsToken, LineEnd, print_blank, print_end};
ghost use Rattle.as4_http.specs.Limits.{the_limits};
ghost use Rattle.as4_http.specs.Requests.{IsCutRequest};
ghost use Rattle.conformance.specs.Exchanges.{IsCut, ended_lines};
ghost use Rattle.conformance.specs.Heads.{EndsFewLines, HasHead, HasNoEnd, IsTargetLine};

use as4_http::{MAX_FIELDS, MAX_HEAD};
use byte_forms::{ByteClass, cut_at, skip, strip_prefix};
use httparse::Status;
use httparse::spans::{EMPTY_HEADER_SPAN, parse_request};

/// Whether a stream is cut that ends inside a head, or that more bytes make a request.
pub(crate) fn is_cut(stream: &[u8]) -> bool
    requires { IsCutRequest stream.now }
    ensures { IsTrue result ↔ IsCut stream.now }
{
    // The lines of a body count too, so a head is looked for.
    ended_lines(stream) <= MAX_FIELDS + 1 || has_head(stream)
}

/// Whether the bytes begin with a head of at most 128 fields.
fn has_head(bytes: &[u8]) -> bool
    ensures yes { IsTrue result → HasHead bytes.now }
    ensures no { result ≡ false → EndsFewLines bytes.now }
{
    let mut headers = [EMPTY_HEADER_SPAN; MAX_FIELDS];
    match parse_request(bytes, &mut headers) {
        Ok(Status::Complete(_)) => true,
        Ok(Status::Partial) => false,
        Err(_) => false,
    }
}

/// Whether the bytes end inside the target of a request, within the limit of a head.
pub(crate) fn is_in_target(bytes: &[u8]) -> bool
    ensures { IsTrue result ↔ (EndsInTarget bytes.now × (length bytes.now ≤ the_limits.head)) }
{
    bytes.len() <= MAX_HEAD && ends_in_target(after_empty_lines(bytes))
}

fn ends_in_target(line: &[u8]) -> bool
    ensures { IsTrue result ↔ IsTargetLine line.now }
{
    match cut_at(b' ', line) {
        Some((method, target)) => is_method(method) && all_pass(UriByte, target),
        None => false,
    }
}

fn is_method(bytes: &[u8]) -> bool
    ensures { IsTrue result ↔ IsToken bytes.now }
{
    !bytes.is_empty() && all_pass(TokenByte, bytes)
}

#[tactic(auto, using(crate::proofs::CutLemmas::all_pass_is))]
fn all_pass<C: ByteClass>(class: C, bytes: &[u8]) -> bool
    ensures { IsTrue result ↔ AllPass (C.contains class) bytes.now }
{
    bytes.iter().all(|byte| class.has(*byte))
}

fn after_empty_lines(bytes: &[u8]) -> &[u8]
    ensures parts { (blank : List LineEnd) × (bytes.now ≡ print_blank blank ++ result.now) }
    ensures none { HasNoEnd result.now }
{
    let mut rest = bytes;
    while let Some(next) = after_line_end(rest) {
        rest = next;
    }
    rest
}

fn after_line_end(bytes: &[u8]) -> Option<&[u8]>
    ensures some { IfSome result (λ rest. (end : LineEnd) × (bytes.now ≡ print_end end ++ rest.now)) }
    ensures none { IsNone result → HasNoEnd bytes.now }
{
    match strip_prefix(b"\n", bytes) {
        Some(rest) => Some(rest),
        None => strip_prefix(b"\r\n", bytes),
    }
}

/// How many lines have ended, the empty ones before the first other line left aside.
fn ended_lines(bytes: &[u8]) -> usize
    ensures { result ≡ ended_lines bytes.now }
{
    skip(LineEndByte, bytes)
        .iter()
        .filter(|byte| **byte == b'\n')
        .count()
}

/// The bytes of line ends.
#[derive(Clone, Copy)]
struct LineEndByte;

impl ByteClass for LineEndByte {
    ghost use Rattle.conformance.specs.Exchanges.{is_line_end};

    ghost contains = { λ _. is_line_end };

    fn has(&self, byte: u8) -> bool {
        byte == b'\r' || byte == b'\n'
    }
}

/// The bytes of a method (RFC 9110, section 5.6.2: `tchar`).
#[derive(Clone, Copy)]
struct TokenByte;

impl ByteClass for TokenByte {
    ghost use Rattle.httparse.specs.Grammar.{is_token_byte};

    ghost contains = { λ _. is_token_byte };

    #[tactic(auto, unfolding(httparse::specs::Grammar::is_token_byte))]
    fn has(&self, byte: u8) -> bool {
        byte.is_ascii_alphanumeric() || is_mark(byte)
    }
}

fn is_mark(byte: u8) -> bool
    ensures { result ≡ list_any (λ c. c == byte) (codes "!#$%&'*+-.^_`|~") }
{
    matches!(
        byte,
        b'!' | b'#'
            | b'$'
            | b'%'
            | b'&'
            | b'\''
            | b'*'
            | b'+'
            | b'-'
            | b'.'
            | b'^'
            | b'_'
            | b'`'
            | b'|'
            | b'~'
    )
}

/// The bytes of a target.
#[derive(Clone, Copy)]
struct UriByte;

impl ByteClass for UriByte {
    ghost use Rattle.httparse.specs.Grammar.{is_uri_byte};

    ghost contains = { λ _. is_uri_byte };

    fn has(&self, byte: u8) -> bool {
        byte > b' ' && byte != 0x7f
    }
}

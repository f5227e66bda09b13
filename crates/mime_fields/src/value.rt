//! The values of parameters: tokens and quoted strings (RFC 2045, section 5.1; RFC 2822, section 3.2.5).
ghost use Rattle.std.specs.Prelude.{◌≡◌, ◌<◌, ◌++◌, IfOk, IfSome, length, option_map};
ghost use Rattle.mime_fields.specs.MediaTypes.{quoted_at, value_at};
ghost use Rattle.mime_fields.specs.Lent.{unescaped, value_meant_by};
ghost use Rattle.mime_fields.specs.Loops.{meant_at, quoted_len};

use crate::class::Class;
use as4_values::NoMemory;
use byte_forms::run_at;
use std::alloc::Global;

/// A parameter's value as written.
#[derive(Clone, Copy)]
pub enum Value<'a> {
    /// A token, which means itself.
    Token(&'a [u8]),
    /// The bytes between the quotes of a quoted string, including backslashes.
    Quoted(&'a [u8]),
}

impl Value<'_> {
    /// The bytes that it means: in a quoted string, a backslash escapes the next byte.
    pub fn meant(&self, alloc: Global) -> Result<Vec<u8>, NoMemory>
        ensures { IfOk result (λ bytes. bytes.items ≡ value_meant_by self.now) }
    {
        match *self {
            Value::Token(bytes) => Ok(Vec::from_slice(alloc, bytes)?),
            Value::Quoted(bytes) => unescaped(alloc, bytes),
        }
    }
}

/// A quoted string or a token, and the bytes after it.
#[tactic(auto, unfolding(crate::specs::MediaTypes::value_at))]
pub fn value_at(bytes: &[u8]) -> Option<(Value<'_>, &[u8])>
    ensures { option_map (λ x. (value_meant_by x.0, x.1.now)) result ≡ value_at bytes.now }
{
    match bytes {
        [] => None,
        [byte, rest @ ..] => {
            if *byte == b'"' {
                let (quoted, rest) = quoted_at(rest)?;
                return Some((Value::Quoted(quoted), rest));
            }
            let (token, rest) = run_at(Class::Token, bytes)?;
            Some((Value::Token(token), rest))
        }
    }
}

// The bytes up to the closing quote of a quoted string, and the bytes after it.
#[tactic(auto, using(crate::proofs::QuoteLemmas::by_len))]
fn quoted_at(bytes: &[u8]) -> Option<(&[u8], &[u8])>
    ensures { option_map (λ x. (unescaped x.0.now, x.1.now)) result ≡ quoted_at bytes.now }
{
    let len = quoted_len(bytes)?;
    Some((&bytes[..len], &bytes[len + 1..]))
}

// The number of bytes before the closing quote of a quoted string.
#[tactic(auto, using(crate::proofs::QuoteLemmas::ends_more, crate::proofs::QuoteLemmas::ends_there, crate::proofs::QuoteLemmas::ends_nowhere))]
fn quoted_len(bytes: &[u8]) -> Option<usize>
    ensures value { result ≡ quoted_len bytes.now }
    ensures within { IfSome result (λ len. len < length bytes.now) }
{
    let mut at = 0;
    while at < bytes.len() {
        if bytes[at] == b'"' {
            return Some(at);
        }
        at = meant_at(bytes, at) + 1;
    }
    None
}

// The bytes of a quoted string without its backslashes.
#[tactic(auto, using(crate::proofs::QuoteLemmas::meant_more, crate::proofs::QuoteLemmas::all_meant))]
fn unescaped(alloc: Global, quoted: &[u8]) -> Result<Vec<u8>, NoMemory>
    ensures { IfOk result (λ bytes. bytes.items ≡ unescaped quoted.now) }
{
    let mut bytes = Vec::with_capacity(alloc, quoted.len())?;
    let mut at = 0;
    while at < quoted.len() {
        let place = meant_at(quoted, at);
        bytes.push(quoted[place])?;
        at = place + 1;
    }
    Ok(bytes)
}

// The index of the byte that is meant at this index: after a backslash, if there is one.
fn meant_at(quoted: &[u8], at: usize) -> usize
    requires { at < length quoted.now }
    ensures value { result ≡ meant_at quoted.now at }
    ensures within { result < length quoted.now }
{
    if quoted[at] == b'\\' && at + 1 < quoted.len() {
        at + 1
    } else {
        at
    }
}

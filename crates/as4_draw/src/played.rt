//! A line of a script and what the drill wrote for it, as far as a drawing shows them.
//!
//!     VERB END WORD ..              WORD is a mode, a number or a moment
//!     stop CALL PICK VERB END ..    the line that is stopped
//!     END SAID                      what the drill wrote

use byte_forms::{cut_at, decimal_of, strip_prefix};

/// One of the two endpoints of a drill.
#[derive(Clone, Copy, Debug, PartialEq, Eq)]
pub(crate) enum Endpoint {
    A,
    B,
}

impl Endpoint {
    pub(crate) fn other(self) -> Endpoint {
        match self {
            Endpoint::A => Endpoint::B,
            Endpoint::B => Endpoint::A,
        }
    }
}

/// A line that names an endpoint.
#[derive(Clone, Copy, Debug)]
pub(crate) struct Played<'a> {
    pub(crate) verb: &'a [u8],
    pub(crate) end: Endpoint,
    /// Empty where no word follows the endpoint.
    pub(crate) word: &'a [u8],
}

/// A line that stops another one.
#[derive(Clone, Copy, Debug)]
pub(crate) struct Stopped<'a> {
    pub(crate) call: &'a [u8],
    pub(crate) pick: &'a [u8],
    pub(crate) line: Played<'a>,
}

/// What a line does in a drawing.
#[derive(Clone, Copy, Debug, PartialEq, Eq)]
pub(crate) enum Kind {
    /// The application submits.
    Submits,
    /// The application confirms.
    Confirms,
    /// The application is given a message or a status.
    Reads,
    /// The endpoint may send.
    Sends,
    /// A package of the other endpoint comes in, and the endpoint may send.
    Meets,
    /// Anything else.
    Notes,
}

impl Played<'_> {
    pub(crate) fn kind(&self) -> Kind {
        match self.verb {
            b"submit" => Kind::Submits,
            b"confirm" => Kind::Confirms,
            b"read" | b"status" => Kind::Reads,
            b"take" | b"ask" | b"pair" => Kind::Sends,
            b"came" | b"lost" => Kind::Meets,
            _ => Kind::Notes,
        }
    }
}

/// Whether the drill writes nothing for the line: it declares a mode, or is what follows the last LF.
pub(crate) fn is_silent(line: &[u8]) -> bool {
    line.is_empty() || line.starts_with(b"mode ")
}

/// Reads a line that names an endpoint.
pub(crate) fn played_of(line: &[u8]) -> Option<Played<'_>> {
    let (verb, rest) = cut_at(b' ', line)?;
    let (end, rest) = first_word(rest);
    let end = endpoint_of(end)?;
    let (word, _) = first_word(rest);
    Some(Played { verb, end, word })
}

/// Reads a line that stops another one.
pub(crate) fn stopped_of(line: &[u8]) -> Option<Stopped<'_>> {
    let rest = strip_prefix(b"stop ", line)?;
    let (call, rest) = cut_at(b' ', rest)?;
    let (pick, rest) = cut_at(b' ', rest)?;
    let line = played_of(rest)?;
    Some(Stopped { call, pick, line })
}

/// What the drill wrote after the name of the endpoint.
pub(crate) fn said_of(reply: &[u8]) -> Option<(Endpoint, &[u8])> {
    let (end, said) = cut_at(b' ', reply)?;
    Some((endpoint_of(end)?, said))
}

/// The number of a package.
pub(crate) fn package_of(word: &[u8]) -> Option<usize> {
    usize::try_from(decimal_of(word)?).ok()
}

/// The first word, and what follows the space after it.
pub(crate) fn first_word(bytes: &[u8]) -> (&[u8], &[u8]) {
    match cut_at(b' ', bytes) {
        Some(parts) => parts,
        None => (bytes, &[]),
    }
}

fn endpoint_of(word: &[u8]) -> Option<Endpoint> {
    match word {
        b"a" => Some(Endpoint::A),
        b"b" => Some(Endpoint::B),
        _ => None,
    }
}

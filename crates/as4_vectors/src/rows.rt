//! Rows that are made of texts or bytes.
use conformance::{Case, Exchange, Play, Vector};

/// A message of texts, with its check line.
pub(crate) fn text_row(
    name: &'static str,
    media: &'static str,
    body: &'static str,
    want: &'static str,
) -> Vector {
    bytes_row(name, media.as_bytes(), body.as_bytes(), want.as_bytes())
}

/// A message with its check line.
pub(crate) fn bytes_row(
    name: &'static str,
    media: &'static [u8],
    body: &'static [u8],
    want: &'static [u8],
) -> Vector {
    let case = Case { name, media, body };
    Vector { case, want }
}

/// An exchange whose stream is a text.
pub(crate) fn text_stream(
    name: &'static str,
    stream: &'static str,
    want: &'static str,
) -> Exchange {
    bytes_stream(name, stream.as_bytes(), want.as_bytes())
}

/// A stream with what it begins with.
pub(crate) fn bytes_stream(
    name: &'static str,
    stream: &'static [u8],
    want: &'static [u8],
) -> Exchange {
    Exchange { name, stream, want }
}

/// A script with its transcript.
pub(crate) fn play_row(name: &'static str, script: &'static str, want: &'static str) -> Play {
    Play {
        name,
        script: script.as_bytes(),
        want: want.as_bytes(),
    }
}

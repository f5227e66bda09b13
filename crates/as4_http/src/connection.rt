//! Whether a connection is kept after a message (RFC 9112, section 9.3).
ghost use Rattle.std.specs.Prelude.{◌≡◌, ◌≤◌, length, map, All};
ghost use Rattle.std.specs.List.{list_any};
ghost use Rattle.httparse.specs.Spans.{IsHeaderWithin, header_bytes};
ghost use Rattle.as4_http.specs.Connection.{is_gap, names_close, is_closing, closes};

use crate::fields::is_name;
use httparse::spans::HeaderSpan;

/// Whether a field `Connection` has the word `close`.
pub(crate) fn closes(buf: &[u8], headers: &[HeaderSpan]) -> bool
    requires { All (IsHeaderWithin (length buf.now)) headers.now }
    ensures { result ≡ closes (map (header_bytes buf.now) headers.now) }
{
    for header in headers {
        if is_closing(header.name.of(buf), header.value.of(buf)) {
            return true;
        }
    }
    false
}

fn is_closing(name: &[u8], value: &[u8]) -> bool
    ensures { result ≡ is_closing (name.now, value.now) }
{
    is_name(name, b"connection") && names_close(value)
}

fn names_close(value: &[u8]) -> bool
    ensures { result ≡ names_close value.now }
{
    value
        .split(|byte| is_gap(*byte))
        .any(|word| is_name(word, b"close"))
}

fn is_gap(byte: u8) -> bool
    ensures { result ≡ is_gap byte }
{
    byte == b',' || byte == b' ' || byte == b'\t'
}

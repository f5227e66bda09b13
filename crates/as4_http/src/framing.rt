//! How a head frames its body (RFC 9112, section 6).
ghost use Rattle.std.specs.Prelude.{◌≡◌, ◌≢◌, ◌≤◌, ℕ, List, Option, length, map, All, IfOk, OnErr, IfErr};
ghost use Rattle.std.specs.Option.{option_copied};
ghost use Rattle.std.specs.Str.Parse.{digits_value};
ghost use Rattle.httparse.specs.Spans.{IsHeaderWithin, header_bytes};
ghost use Rattle.as4_http.specs.Framing.{IsLength, Frames, FramesAs};

use crate::HttpRefusal;
use crate::fields::{is_name, only_value};
use httparse::spans::HeaderSpan;

/// The most digits that a length has.
const MAX_DIGITS: usize = 19;

const _: () = prove!(MAX_DIGITS == 19);

/// How long the body is.
#[derive(Clone, Copy, Debug, PartialEq, Eq)]
pub(crate) enum Framing {
    /// There is none.
    Empty,
    /// This many bytes.
    Counted(u64),
    /// As long as its chunks.
    Chunked,
    /// It runs to the end of the stream.
    ToEnd,
}

/// What the fields of a head say; where none of them says anything, it is `neither`.
pub(crate) fn framing_of(
    buf: &[u8],
    headers: &[HeaderSpan],
    neither: Framing,
) -> Result<Framing, HttpRefusal>
    requires { All (IsHeaderWithin (length buf.now)) headers.now }
    ensures ok { IfOk result (FramesAs neither (map (header_bytes buf.now) headers.now)) }
    ensures err { OnErr result ((framing : Framing) → ¬ FramesAs neither (map (header_bytes buf.now) headers.now) framing) }
    ensures bad { IfErr result (λ refusal. refusal ≡ HttpRefusal.Bad) }
{
    let length = only_value(buf, headers, b"content-length")?;
    let coding = only_value(buf, headers, b"transfer-encoding")?;
    framing_said(length, coding, neither)
}

fn framing_said(
    length: Option<&[u8]>,
    coding: Option<&[u8]>,
    neither: Framing,
) -> Result<Framing, HttpRefusal>
    ensures ok { IfOk result (Frames neither (option_copied length.entry) (option_copied coding.entry)) }
    ensures err { OnErr result ((framing : Framing) → ¬ Frames neither (option_copied length.entry) (option_copied coding.entry) framing) }
    ensures bad { IfErr result (λ refusal. refusal ≡ HttpRefusal.Bad) }
{
    match (length, coding) {
        (None, None) => Ok(neither),
        (Some(digits), None) => Ok(Framing::Counted(number_of(digits)?)),
        (None, Some(coding)) if is_name(coding, b"chunked") => Ok(Framing::Chunked),
        (None, Some(_)) | (Some(_), Some(_)) => Err(HttpRefusal::Bad),
    }
}

// The number that the digits write, of which there are 1 to 19.
fn number_of(digits: &[u8]) -> Result<u64, HttpRefusal>
    ensures ok { IfOk result (λ number. IsLength digits.now × (number ≡ digits_value 10 digits.now)) }
    ensures err { OnErr result (¬ IsLength digits.now) }
    ensures bad { IfErr result (λ refusal. refusal ≡ HttpRefusal.Bad) }
{
    if digits.is_empty() || digits.len() > MAX_DIGITS {
        return Err(HttpRefusal::Bad);
    }
    let mut number: u64 = 0;
    for digit in digits {
        if !digit.is_ascii_digit() {
            return Err(HttpRefusal::Bad);
        }
        number = number * 10 + (*digit - b'0') as u64;
    }
    Ok(number)
}

//! Responses that are made: of a message, and of one line of text.

ghost use Rattle.std.specs.Prelude.{◌≡◌, ◌++◌, Some, IfOk, IsTrue, codes, decimal};
ghost use Rattle.as4_http.specs.Written.{is_status, response_text};
ghost use Rattle.as4_doors.specs.Responses.{connection, line_response};
ghost use Rattle.as4_doors.specs.WrittenText.{written_text};

use crate::written::Written;
use as4_http::{write_kept, write_response};
use as4_values::{MessageId, NoMemory, Octets};
use itoa::Buffer;
use std::alloc::Global;

/// A response with a media text.
pub(crate) fn made(
    alloc: Global,
    kept: bool,
    status: u16,
    media: &[u8],
    body: &[u8],
) -> Result<Written, NoMemory>
    requires { IsTrue (is_status status) }
    ensures { IfOk result (λ written. written_text written ≡ response_text status (Some media.now) (connection kept) body.now) }
{
    let bytes = if kept {
        write_kept(alloc, status, Some(media), body)?
    } else {
        write_response(alloc, status, Some(media), body)?
    };
    Ok(Written::Made(bytes))
}

/// The response of a line: these words, this value, and LF.
#[tactic(auto, unfolding(crate::specs::Responses::line_response, crate::specs::Responses::plain_media))]
pub(crate) fn line(
    alloc: Global,
    kept: bool,
    status: u16,
    words: &[u8],
    value: &[u8],
) -> Result<Written, NoMemory>
    requires { IsTrue (is_status status) }
    ensures { IfOk result (λ written. written_text written ≡ line_response kept status (words.now ++ value.now)) }
{
    let mut text = Vec::from_slice(alloc, words)?;
    text.extend_from_slice(value)?;
    text.extend_from_slice(b"\n")?;
    made(alloc, kept, status, b"text/plain", text.as_slice())
}

/// The response of a line with these words alone.
pub(crate) fn words(
    alloc: Global,
    kept: bool,
    status: u16,
    words: &[u8],
) -> Result<Written, NoMemory>
    requires { IsTrue (is_status status) }
    ensures { IfOk result (λ written. written_text written ≡ line_response kept status words.now) }
{
    line(alloc, kept, status, words, b"")
}

/// The response of a line with a number after these words.
pub(crate) fn counted(
    alloc: Global,
    kept: bool,
    words: &[u8],
    number: u64,
) -> Result<Written, NoMemory>
    ensures { IfOk result (λ written. written_text written ≡ line_response kept 200 (words.now ++ decimal number)) }
{
    let mut digits = Buffer::new();
    line(alloc, kept, 200, words, digits.format(number).as_bytes())
}

/// The response to a submission: its number and its identifier.
pub(crate) fn submitted(
    alloc: Global,
    kept: bool,
    number: u64,
    id: &MessageId,
) -> Result<Written, NoMemory>
    ensures { IfOk result (λ written. written_text written ≡ line_response kept 200 (decimal number ++ codes " " ++ id.now)) }
{
    let words = format!(in alloc; "{number} ")?;
    line(alloc, kept, 200, words.as_bytes(), id.bytes())
}

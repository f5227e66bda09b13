//! Messages as they are sent, and message files: a media text as a field, an empty line, and a body.
//!
//!     Content-Type: MEDIA
//!
//!     BODY
//!
//! Each of the two lines ends in CRLF.

ghost use Rattle.std.specs.Prelude.{◌≡◌, ◌<◌, IfOk, length};
ghost use Rattle.std.specs.Option.{option_map};
ghost use Rattle.message_model.specs.Package.{envelope_media};
ghost use Rattle.message_model.specs.Wire.{IsWire, IsFile, message_file, cut_at, file_at, media_and_body};

use as4_values::{Message, NoMemory, Octets, Payload, Seq, UserHeader};
use byte_forms::strip_prefix;
use header_writer::{write_pair_envelope, write_signal_envelope, write_user_envelope};
use memchr::memmem;
use package_writer::{ENVELOPE_MEDIA, Wire, write_parts};
use std::alloc::Global;

/// Room for the field and the empty line, in bytes.
const FIELD_ROOM: usize = 256;

/// The media text of a message file, up to the first empty line, and the body. Both are empty if the bytes have another
/// form.
pub fn split_file(file: &[u8]) -> (&[u8], &[u8])
    ensures { (result.0.now, result.1.now) ≡ media_and_body file.now }
{
    match field_and_body(file) {
        Some(parts) => parts,
        None => (b"", b""),
    }
}

#[tactic(auto, unfolding(message_model::specs::Wire::file_at))]
fn field_and_body(file: &[u8]) -> Option<(&[u8], &[u8])>
    ensures { option_map (λ parts. (parts.0.now, parts.1.now)) result ≡ file_at file.now }
{
    let rest = strip_prefix(b"Content-Type: ", file)?;
    cut_at(b"\r\n\r\n", rest)
}

/// The bytes before and after the first occurrence of the needle.
#[tactic(auto, using(crate::proofs::CutLemmas::cut_some, crate::proofs::CutLemmas::cut_none))]
fn cut_at<'a>(needle: &[u8], bytes: &'a [u8]) -> Option<(&'a [u8], &'a [u8])>
    requires { 0 < length needle.now }
    ensures { option_map (λ cut. (cut.0.now, cut.1.now)) result ≡ cut_at needle.now bytes.now }
{
    let at = memmem::find(bytes, needle)?;
    let (front, rest) = bytes.split_at(at);
    let (_, rest) = rest.split_at(needle.len());
    Some((front, rest))
}

/// A message as it is sent (AS4 Profile, section 2.1): a user message as a package with the least free boundary, a
/// signal or a pair as a bare envelope.
pub fn write_message(alloc: Global, message: &Message) -> Result<Wire, NoMemory>
    ensures { IfOk result (λ wire. IsWire message.now wire.media wire.body) }
{
    match message {
        Message::User { header, payloads } => write_user(alloc, header, payloads),
        Message::Signal(signal) => bare(alloc, write_signal_envelope(alloc, signal)?),
        Message::Pair(pair) => bare(alloc, write_pair_envelope(alloc, pair)?),
    }
}

/// A user message as it is sent, from a header and separate payloads.
pub fn write_user(
    alloc: Global,
    header: &UserHeader,
    payloads: &Seq<Payload>,
) -> Result<Wire, NoMemory>
    ensures { IfOk result (λ wire. IsWire (Message.User header.now payloads.now) wire.media wire.body) }
{
    let root = write_user_envelope(alloc, header)?;
    write_parts(alloc, root.bytes(), payloads)
}

/// A bare envelope.
#[tactic(auto, unfolding(message_model::specs::Package::envelope_media))]
fn bare(alloc: Global, body: Octets) -> Result<Wire, NoMemory>
    ensures media { IfOk result (λ wire. wire.media ≡ envelope_media) }
    ensures body { IfOk result (λ wire. wire.body ≡ body) }
{
    match Vec::from_slice(alloc, ENVELOPE_MEDIA) {
        Ok(media) => Ok(Wire {
            media: Octets::of(media),
            body,
        }),
        Err(_) => {
            drop(body);
            Err(NoMemory)
        }
    }
}

/// The message file of a message.
pub fn write_message_file(alloc: Global, message: &Message) -> Result<Octets, NoMemory>
    ensures { IfOk result (IsFile message.now) }
{
    let wire = write_message(alloc, message)?;
    joined(alloc, wire.media.bytes(), wire.body.bytes())
}

fn joined(alloc: Global, media: &[u8], body: &[u8]) -> Result<Octets, NoMemory>
    ensures { IfOk result (λ file. file ≡ message_file media.now body.now) }
{
    let mut file = Vec::with_capacity(alloc, body.len() + FIELD_ROOM)?;
    file.extend_from_slice(b"Content-Type: ")?;
    file.extend_from_slice(media)?;
    file.extend_from_slice(b"\r\n\r\n")?;
    file.extend_from_slice(body)?;
    Ok(Octets::of(file))
}

//! Writes a canonical package:
//!
//!     --as4-N                                for the root and for each payload
//!     Content-ID: <ID>
//!     Content-Type: MEDIA                    omitted if MEDIA is empty
//!     Content-Transfer-Encoding: binary
//!
//!     CONTENT
//!     --as4-N--                              at the end
//!
//! N is the number of the boundary in 16 hexadecimal digits. Each line ends in CRLF.

ghost use Rattle.std.specs.Prelude.{◌≡◌, ◌+◌, ◌*◌, ◌<◌, ◌++◌, ℕ, OnOk, IfOk, length, min};
ghost use Rattle.std.specs.List.{flat_map, sum_by};
ghost use Rattle.message_model.specs.Package.{crlf, hex_digits, dash_boundary, root_id, envelope_media, package_media, media_field, part_head, part_text, payload_text, package_body, IsBoundary};
ghost use Rattle.package_writer.specs.Room.{part_room};

use crate::boundary::free_boundary;
use as4_values::{NoMemory, Octets, Payload, Seq};
use byte_forms::hex_digit;
use std::alloc::Global;

/// A message as it is sent: a media text and a body.
#[derive(Drop)]
pub struct Wire {
    pub media: Octets,
    pub body: Octets,
}

/// The media text of an envelope.
pub const ENVELOPE_MEDIA: &[u8] = b"application/soap+xml; charset=UTF-8";

/// The number of digits of a boundary's number.
const DIGITS: u32 = 16;

/// Room for a part besides its identifier, media text and content.
const PART_ROOM: usize = 256;

#[tactic(auto, using(crate::proofs::HexLemmas::push_digit), unfolding(message_model::specs::Package::hex_digits))]
fn push_hex(out: &mut Vec<u8>, places: u32, number: u64) -> Result<(), NoMemory>
    ensures { OnOk result (out.new.items ≡ out.old.items ++ hex_digits places number) }
{
    if places == 0 {
        return Ok(());
    }
    push_hex(out, places - 1, number / 16)?;
    out.push(hex_digit((number % 16) as u8))?;
    Ok(())
}

#[tactic(auto, unfolding(message_model::specs::Package::dash_boundary))]
fn push_dash_boundary(out: &mut Vec<u8>, number: u64) -> Result<(), NoMemory>
    ensures { OnOk result (out.new.items ≡ out.old.items ++ dash_boundary number) }
{
    out.extend_from_slice(b"--as4-")?;
    push_hex(out, DIGITS, number)
}

/// The media text of a package.
#[tactic(auto, unfolding(message_model::specs::Package::package_media))]
fn media_text(alloc: Global, number: u64) -> Result<Octets, NoMemory>
    ensures { IfOk result (λ media. media ≡ package_media number) }
{
    let mut out = Vec::from_slice(
        alloc,
        b"multipart/related; type=\"application/soap+xml\"; boundary=\"as4-",
    )?;
    push_hex(&mut out, DIGITS, number)?;
    out.extend_from_slice(b"\"; start=\"<root-")?;
    push_hex(&mut out, DIGITS, number)?;
    out.extend_from_slice(b"@as4>\"")?;
    Ok(Octets::of(out))
}

#[tactic(auto, unfolding(message_model::specs::Package::media_field))]
fn push_media_field(out: &mut Vec<u8>, media: &[u8]) -> Result<(), NoMemory>
    ensures { OnOk result (out.new.items ≡ out.old.items ++ media_field media.now) }
{
    if media.is_empty() {
        return Ok(());
    }
    out.extend_from_slice(b"Content-Type: ")?;
    out.extend_from_slice(media)?;
    out.extend_from_slice(b"\r\n")?;
    Ok(())
}

#[tactic(auto, unfolding(message_model::specs::Package::part_head))]
fn push_part_head(out: &mut Vec<u8>, id: &[u8], media: &[u8]) -> Result<(), NoMemory>
    ensures { OnOk result (out.new.items ≡ out.old.items ++ part_head id.now media.now) }
{
    out.extend_from_slice(b"Content-ID: <")?;
    out.extend_from_slice(id)?;
    out.extend_from_slice(b">\r\n")?;
    push_media_field(out, media)?;
    out.extend_from_slice(b"Content-Transfer-Encoding: binary\r\n\r\n")?;
    Ok(())
}

#[tactic(auto, unfolding(message_model::specs::Package::part_text))]
fn push_part(
    out: &mut Vec<u8>,
    number: u64,
    id: &[u8],
    media: &[u8],
    content: &[u8],
) -> Result<(), NoMemory>
    ensures { OnOk result (out.new.items ≡ out.old.items ++ part_text number id.now media.now content.now) }
{
    push_dash_boundary(out, number)?;
    out.extend_from_slice(b"\r\n")?;
    push_part_head(out, id, media)?;
    out.extend_from_slice(content)?;
    out.extend_from_slice(b"\r\n")?;
    Ok(())
}

#[tactic(auto, unfolding(message_model::specs::Package::root_id))]
fn root_id(alloc: Global, number: u64) -> Result<Vec<u8>, NoMemory>
    ensures { IfOk result (λ id. id.items ≡ root_id number) }
{
    let mut id = Vec::with_capacity(alloc, 32)?;
    id.extend_from_slice(b"root-")?;
    push_hex(&mut id, DIGITS, number)?;
    id.extend_from_slice(b"@as4")?;
    Ok(id)
}

#[tactic(auto, unfolding(message_model::specs::Package::envelope_media))]
fn push_root(alloc: Global, out: &mut Vec<u8>, number: u64, root: &[u8]) -> Result<(), NoMemory>
    ensures { OnOk result (out.new.items ≡ out.old.items ++ part_text number (root_id number) envelope_media root.now) }
{
    let id = root_id(alloc, number)?;
    push_part(out, number, id.as_slice(), ENVELOPE_MEDIA, root)
}

#[tactic(auto, unfolding(message_model::specs::Package::payload_text))]
fn push_payload(out: &mut Vec<u8>, number: u64, payload: &Payload) -> Result<(), NoMemory>
    ensures { OnOk result (out.new.items ≡ out.old.items ++ payload_text number payload.now) }
{
    push_part(
        out,
        number,
        payload.cid.bytes(),
        payload.media.bytes(),
        payload.content.bytes(),
    )
}

fn push_payloads(out: &mut Vec<u8>, number: u64, payloads: &[Payload]) -> Result<(), NoMemory>
    ensures { OnOk result (out.new.items ≡ out.old.items ++ flat_map (payload_text number) payloads.now) }
{
    for payload in payloads {
        push_payload(out, number, payload)?;
    }
    Ok(())
}

/// Reserved for the body of the package, in bytes, so that no content is moved while it grows.
fn room_for(root: &[u8], payloads: &[Payload]) -> usize
    ensures { result ≡ min (length root.now + 2 * PART_ROOM + sum_by part_room payloads.now) usize.MAX }
{
    let mut room = root.len().saturating_add(2 * PART_ROOM);
    for payload in payloads {
        let named = payload
            .cid
            .bytes()
            .len()
            .saturating_add(payload.media.bytes().len());
        let part = payload.content.bytes().len().saturating_add(named);
        room = room.saturating_add(part).saturating_add(PART_ROOM);
    }
    room
}

/// The body of a package.
#[tactic(auto, unfolding(message_model::specs::Package::package_body))]
fn body_of(
    alloc: Global,
    number: u64,
    root: &[u8],
    payloads: &[Payload],
) -> Result<Octets, NoMemory>
    ensures { IfOk result (λ body. body ≡ package_body number root.now payloads.now) }
{
    let mut out = Vec::with_capacity(alloc, room_for(root, payloads))?;
    push_root(alloc, &mut out, number, root)?;
    push_payloads(&mut out, number, payloads)?;
    push_dash_boundary(&mut out, number)?;
    out.extend_from_slice(b"--\r\n")?;
    Ok(Octets::of(out))
}

/// The canonical package of an envelope and its payloads, with the least free boundary.
pub fn write_parts(alloc: Global, root: &[u8], payloads: &Seq<Payload>) -> Result<Wire, NoMemory>
    ensures { IfOk result (λ wire. (number : ℕ) × IsBoundary number root.now payloads.now
        × (wire.media ≡ package_media number) × (wire.body ≡ package_body number root.now payloads.now)) }
{
    let number = free_boundary(alloc, root, payloads)?;
    write_package(alloc, number, root, payloads)
}

/// The canonical package of an envelope and its payloads, with the boundary of this number.
fn write_package(
    alloc: Global,
    number: u64,
    root: &[u8],
    payloads: &Seq<Payload>,
) -> Result<Wire, NoMemory>
    ensures media { IfOk result (λ wire. wire.media ≡ package_media number) }
    ensures body { IfOk result (λ wire. wire.body ≡ package_body number root.now payloads.now) }
{
    match (
        media_text(alloc, number),
        body_of(alloc, number, root, payloads.items()),
    ) {
        (Ok(media), Ok(body)) => Ok(Wire { media, body }),
        (media, body) => {
            drop(media);
            drop(body);
            Err(NoMemory)
        }
    }
}

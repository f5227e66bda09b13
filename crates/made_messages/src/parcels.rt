//! Received messages with a payload.
ghost use Rattle.std.specs.Prelude.{◌≤◌, IfSome, length};

use crate::effects::delivery_of;
use crate::headers::{header_with, octets, text};
use as4_effects::Delivery;
use as4_values::{MessageId, Octets, PartInfo, Payload, Seq, UserHeader};
use std::alloc::Global;

/// The message with this identifier and one payload of these bytes, as received. Its one part info names the payload.
pub fn parcel(alloc: Global, id: &[u8], content: &[u8]) -> Option<Delivery> {
    match (header_with_part(alloc, id), payloads(alloc, content)) {
        (Some(header), Some(payloads)) => delivery_of(alloc, header, payloads),
        (header, payloads) => {
            drop(header);
            drop(payloads);
            None
        }
    }
}

/// All byte values in order, this many times. Each time they start one value later.
pub fn all_bytes(alloc: Global, times: u8) -> Option<Octets> {
    let mut bytes = Vec::new(alloc);
    for first in 0..times {
        for byte in 0..=u8::MAX {
            bytes.push(byte.wrapping_add(first)).ok()?;
        }
    }
    Some(Octets::of(bytes))
}

fn header_with_part(alloc: Global, id: &[u8]) -> Option<UserHeader> {
    match (MessageId::read(alloc, id), parts(alloc)) {
        (Ok(id), Some(parts)) => header_with(alloc, id, parts),
        (id, parts) => {
            drop(id);
            drop(parts);
            None
        }
    }
}

// A part info that names the payload `p`.
fn parts(alloc: Global) -> Option<Seq<PartInfo>>
    ensures { IfSome result (λ parts. length parts ≤ 1) }
{
    let href = text(alloc, b"cid:p")?;
    let part = PartInfo {
        href: Some(href),
        properties: Seq::of(Vec::new(alloc)),
    };
    Some(Seq::of(vec![in alloc; part].ok()?))
}

// The payload `p`.
#[tactic(auto, unfolding(as4_values::specs::Payload::is_media_text))]
fn payload(alloc: Global, content: &[u8]) -> Option<Payload> {
    match (
        octets(alloc, b"p"),
        octets(alloc, b"text/plain"),
        octets(alloc, content),
    ) {
        (Some(cid), Some(media), Some(content)) => Some(Payload {
            cid,
            media,
            content,
        }),
        (cid, media, content) => {
            drop(cid);
            drop(media);
            drop(content);
            None
        }
    }
}

fn payloads(alloc: Global, content: &[u8]) -> Option<Seq<Payload>> {
    let payload = payload(alloc, content)?;
    Some(Seq::of(vec![in alloc; payload].ok()?))
}

//! Bytes, texts and headers of messages.
ghost use Rattle.std.specs.Prelude.{◌≡◌, ◌≤◌, IfSome, length};

use as4_values::{
    MessageId, Octets, PartInfo, Party, Seq, Service, Side, StampText, Text, UserHeader, read_stamp,
};
use std::alloc::Global;

/// These bytes.
pub fn octets(alloc: Global, bytes: &[u8]) -> Option<Octets>
    ensures { IfSome result (λ octets. octets ≡ bytes.now) }
{
    Some(Octets::of(Vec::from_slice(alloc, bytes).ok()?))
}

/// The text of these bytes, if they form one.
pub fn text(alloc: Global, bytes: &[u8]) -> Option<Text> {
    Text::read(alloc, bytes).ok()
}

// A side of one party that plays the role `r`.
fn side(alloc: Global, id: &[u8]) -> Option<Side> {
    let role = text(alloc, b"r")?;
    let party = Party {
        id: text(alloc, id)?,
        kind: None,
    };
    Some(Side {
        parties: Seq::of(vec![in alloc; party].ok()?),
        role,
    })
}

fn sides(alloc: Global) -> Option<(Side, Side)> {
    match (side(alloc, b"a"), side(alloc, b"b")) {
        (Some(from), Some(to)) => Some((from, to)),
        (from, to) => {
            drop(from);
            drop(to);
            None
        }
    }
}

// The service and the action of a message.
fn service(alloc: Global) -> Option<(Service, Text)> {
    let action = text(alloc, b"act")?;
    let value = text(alloc, b"s")?;
    Some((Service { value, kind: None }, action))
}

fn stamp(alloc: Global) -> Option<StampText> {
    read_stamp(alloc, b"2025-01-02T03:04:05Z").ok()
}

/// The header of a message with this identifier, from `a` to `b`, without parts.
pub fn header(alloc: Global, id: MessageId) -> Option<UserHeader> {
    header_with(alloc, id, Seq::of(Vec::new(alloc)))
}

// The same, with these part infos.
pub(crate) fn header_with(alloc: Global, id: MessageId, parts: Seq<PartInfo>) -> Option<UserHeader>
    requires { length parts ≤ 1 }
{
    match (stamp(alloc), service(alloc), sides(alloc)) {
        (Some(stamp), Some((service, action)), Some((from, to))) => Some(UserHeader {
            mpc: None,
            stamp,
            id,
            ref_to: None,
            from,
            to,
            agreement: None,
            service,
            action,
            conversation: None,
            properties: Seq::of(Vec::new(alloc)),
            parts,
        }),
        (stamp, service, sides) => {
            drop(stamp);
            drop(service);
            drop(sides);
            drop(id);
            drop(parts);
            None
        }
    }
}

/// The header of the submission of this number, with the nonce 1.
pub fn header_of(alloc: Global, number: u64) -> Option<UserHeader> {
    header(alloc, MessageId::of_submission(alloc, number, 1).ok()?)
}

//! Values whose types keep a fact: counts within this handler's own limits, and what a signal must hold.

ghost use Rattle.std.specs.Prelude.{◌≡◌, ◌&&◌, nat_le, nat_lt, length};
ghost use Rattle.as4_values.specs.SignalParts.{is_signal, is_receipt, is_pull};
ghost use Rattle.header_reader.specs.Made.{side_from, part_from, header_from, signal_from};

use crate::parts::{CollaborationInfo, MessageInfo, PartyInfo};
use as4_values::{
    MessageId, PartInfo, Party, Property, Seq, Side, Signal, SignalBody, Text, UserHeader,
};

/// The maximum number of parties of a side.
const MAX_PARTIES: usize = 16;

/// The maximum number of properties of a header or a part info.
const MAX_PROPERTIES: usize = 256;

/// The maximum number of part infos of a header.
const MAX_PARTS: usize = 255;

/// The maximum number of errors of a signal.
const MAX_ERRORS: usize = 256;

fn may_be_side(parties: &Seq<Party>) -> bool
    ensures { result ≡ (nat_lt 0 (length parties.now) && nat_le (length parties.now) 16) }
{
    let count = parties.items().len();
    count > 0 && count <= MAX_PARTIES
}

/// A side of 1 to 16 parties.
pub fn side_from(parties: Seq<Party>, role: Text) -> Option<Side>
    ensures { result ≡ side_from parties role }
{
    if may_be_side(&parties) {
        Some(Side { parties, role })
    } else {
        drop(parties);
        drop(role);
        None
    }
}

fn may_be_part(properties: &Seq<Property>) -> bool
    ensures { result ≡ nat_le (length properties.now) 256 }
{
    properties.items().len() <= MAX_PROPERTIES
}

/// A part info of at most 256 properties.
pub fn part_from(href: Option<Text>, properties: Seq<Property>) -> Option<PartInfo>
    ensures { result ≡ part_from href properties }
{
    if may_be_part(&properties) {
        Some(PartInfo { href, properties })
    } else {
        drop(href);
        drop(properties);
        None
    }
}

fn may_be_header(properties: &Seq<Property>, parts: &Seq<PartInfo>) -> bool
    ensures { result ≡ (nat_le (length properties.now) 256 && nat_le (length parts.now) 255) }
{
    properties.items().len() <= MAX_PROPERTIES && parts.items().len() <= MAX_PARTS
}

/// A header of at most 256 properties and 255 part infos.
pub fn header_from(
    mpc: Option<Text>,
    info: MessageInfo,
    sides: PartyInfo,
    business: CollaborationInfo,
    properties: Seq<Property>,
    parts: Seq<PartInfo>,
) -> Option<UserHeader>
    ensures { result ≡ header_from mpc info sides business properties parts }
{
    if !may_be_header(&properties, &parts) {
        drop((mpc, info, sides));
        drop((business, properties, parts));
        return None;
    }
    let MessageInfo { stamp, id, ref_to } = info;
    let PartyInfo { from, to } = sides;
    let CollaborationInfo {
        agreement,
        service,
        action,
        conversation,
    } = business;
    Some(UserHeader {
        mpc,
        stamp,
        id,
        ref_to,
        from,
        to,
        agreement,
        service,
        action,
        conversation,
        properties,
        parts,
    })
}

fn may_be_signal(ref_to: &Option<MessageId>, body: &SignalBody) -> bool
    ensures { result ≡ is_signal ref_to.now body.now }
{
    match body {
        SignalBody::Pull { .. } => true,
        SignalBody::Receipt { .. } => ref_to.is_some(),
        SignalBody::Errors { items } => {
            let count = items.items().len();
            count >= 1 && count <= MAX_ERRORS
        }
    }
}

/// A receipt that refers to a message, 1 to 256 errors, or a pull request.
pub fn signal_from(info: MessageInfo, body: SignalBody) -> Option<Signal>
    ensures { result ≡ signal_from info body }
{
    if !may_be_signal(&info.ref_to, &body) {
        drop(info);
        drop(body);
        return None;
    }
    let MessageInfo { stamp, id, ref_to } = info;
    Some(Signal {
        stamp,
        id,
        ref_to,
        body,
    })
}

pub fn may_be_pair(receipt: &Signal, pull: &Signal) -> bool
    ensures { result ≡ (is_receipt receipt.now.body && is_pull pull.now.body) }
{
    matches!(receipt.body, SignalBody::Receipt { .. })
        && matches!(pull.body, SignalBody::Pull { .. })
}

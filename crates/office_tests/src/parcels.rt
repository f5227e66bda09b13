//! The two messages that have a payload.
use crate::steps::{Parcel, Said};
use as4_effects::Delivery;
use as4_values::{Payload, PlainData, Seq, UserHeader};
use made_messages::{all_bytes, parcel};
use std::alloc::Global;

const PARCELS: [Parcel; 2] = [Parcel::Short, Parcel::Long];

/// The message as it comes. The content of the short one has 3 bytes. That of the long one has 10,240: each byte value
/// forty times.
pub(crate) fn made(alloc: Global, which: Parcel) -> Option<Delivery> {
    match which {
        Parcel::Short => parcel(alloc, b"1@a", b"\0\xff\n"),
        Parcel::Long => {
            let content = all_bytes(alloc, 40)?;
            let made = parcel(alloc, b"2@a", content.bytes());
            drop(content);
            made
        }
    }
}

/// Which of the two messages has this header and these payloads, byte for byte.
pub(crate) fn held(alloc: Global, header: &UserHeader, payloads: &Seq<Payload>) -> Said {
    for which in &PARCELS {
        if is_made_of(alloc, *which, header, payloads) == Some(true) {
            return Said::Holds(*which);
        }
    }
    Said::Other
}

fn is_made_of(
    alloc: Global,
    which: Parcel,
    header: &UserHeader,
    payloads: &Seq<Payload>,
) -> Option<bool> {
    let made = made(alloc, which)?;
    let is_so = made.header.same(header) && made.payloads.same(payloads);
    drop(made);
    Some(is_so)
}

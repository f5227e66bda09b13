//! Values of effects: pairs of part infos and payloads, identifiers, routes, media texts, and copies.
use as4_effects::{Carried, Effect, Mark, Queue, Tick, is_id_of, is_route};
use as4_values::{
    Code, MessageId, Octets, PartInfo, Payload, PlainData, Route, Seq, Text, is_media_text, pairs,
};
use made_messages::{carried, delivery, kept, octets, submission};
use std::process::Abort;

fn text(rt: &(impl Abort + AllocGlobal), word: &[u8]) -> Text {
    Text::read(rt.alloc(), word).expect(rt, "a text")
}

fn message_id(rt: &(impl Abort + AllocGlobal), id: &[u8]) -> MessageId {
    MessageId::read(rt.alloc(), id).expect(rt, "an identifier")
}

/// A part info with this reference, or without one if it is `-`.
fn part(rt: &(impl Abort + AllocGlobal), href: &[u8]) -> PartInfo {
    let href = if href == b"-".as_slice() {
        None
    } else {
        Some(text(rt, href))
    };
    PartInfo {
        href,
        properties: Seq::of(Vec::new(rt.alloc())),
    }
}

#[tactic(auto, unfolding(as4_values::specs::Payload::is_media_text))]
fn payload(rt: &(impl Abort + AllocGlobal), cid: &[u8]) -> Payload {
    let name = message_id(rt, cid);
    Payload {
        cid: octets(rt.alloc(), name.bytes()).expect(rt, "memory"),
        media: Octets::of(Vec::new(rt.alloc())),
        content: octets(rt.alloc(), b"order").expect(rt, "memory"),
    }
}

/// A part info for each reference.
fn parts_of(rt: &(impl Abort + AllocGlobal), hrefs: &str) -> Vec<PartInfo> {
    let mut parts = Vec::new(rt.alloc());
    for href in hrefs.split_whitespace() {
        parts.push(part(rt, href.as_bytes())).expect(rt, "memory");
    }
    parts
}

/// A payload for each Content-ID.
fn payloads_of(rt: &(impl Abort + AllocGlobal), cids: &str) -> Vec<Payload> {
    let mut payloads = Vec::new(rt.alloc());
    for cid in cids.split_whitespace() {
        payloads
            .push(payload(rt, cid.as_bytes()))
            .expect(rt, "memory");
    }
    payloads
}

/// Whether part infos with these references and payloads with these Content-IDs pair.
fn are_paired(rt: &(impl Abort + AllocGlobal), hrefs: &str, cids: &str) -> bool {
    let (parts, payloads) = (parts_of(rt, hrefs), payloads_of(rt, cids));
    let paired = pairs(rt.alloc(), parts.as_slice(), payloads.as_slice());
    drop(parts);
    drop(payloads);
    paired.expect(rt, "memory")
}

/// References and Content-IDs, with blanks between them, and whether they pair.
const REFERENCES: [(&str, &str, bool); 19] = [
    ("", "", true),
    ("cid:a%40b", "a@b", true),
    ("CID:a@b", "a@b", true),
    ("cId:%61", "a", true),
    ("cid:a%4", "a%4", true),
    ("cid:a%4", "a", false),
    ("cid:a cid:b", "b a", true),
    ("cid:a@b CID:a%40b", "a@b", false),
    ("cid:a cid:a", "a b", false),
    ("cid:a cid:b", "a a", false),
    ("cid:a", "a b", false),
    ("cid:a cid:b", "a", false),
    ("cid:a", "A", false),
    ("-", "a", false),
    ("-", "", false),
    ("http://x", "//x", false),
    ("%63id:x", "x", false),
    ("cid", "cid", false),
    ("#a", "a", false),
];

/// The first row with another result.
fn first_other_pairing(rt: &(impl Abort + AllocGlobal)) -> Option<usize> {
    for (row, (hrefs, cids, wanted)) in REFERENCES.iter().enumerate() {
        if are_paired(rt, hrefs, cids) != *wanted {
            return Some(row);
        }
    }
    None
}

#[test]
fn references_pair_with_payloads(rt: HostRuntime) {
    assert_eq!(rt; first_other_pairing(&rt), None);
}

fn is_of(rt: &(impl Abort + AllocGlobal), number: u64, id: &[u8]) -> bool {
    is_id_of(rt.alloc(), number, &message_id(rt, id)).expect(rt, "memory")
}

/// Numbers, identifiers and whether they belong together.
const IDENTIFIERS: [(u64, &[u8], bool); 10] = [
    (7, b"7.00000000-0000-0000-0000-000000000001@as4", true),
    (7, b"7.ffffffff-ffff-ffff-ffff-ffffffffffff@as4", true),
    (
        1048575,
        b"1048575.01234567-89ab-cdef-0123-456789abcdef@as4",
        true,
    ),
    (8, b"7.00000000-0000-0000-0000-000000000001@as4", false),
    (77, b"7.00000000-0000-0000-0000-000000000001@as4", false),
    (7, b"7.FFFFFFFF-FFFF-FFFF-FFFF-FFFFFFFFFFFF@as4", false),
    (7, b"7.0000000-00000-0000-0000-000000000001@as4", false),
    (7, b"7.zzzzzzzz-zzzz-zzzz-zzzz-zzzzzzzzzzzz@as4", false),
    (7, b"7.00000000-0000-0000-0000-000000000001@as5", false),
    (7, b"7", false),
];

/// The first row with another result.
fn first_other_id(rt: &(impl Abort + AllocGlobal)) -> Option<usize> {
    for (row, (number, id, wanted)) in IDENTIFIERS.iter().enumerate() {
        if is_of(rt, *number, id) != *wanted {
            return Some(row);
        }
    }
    None
}

#[test]
fn identifiers_of_submissions_are_told_from_others(rt: HostRuntime) {
    assert_eq!(rt; first_other_id(&rt), None);
}

/// Whether the address is valid, in a push and in a pull.
fn are_routes(rt: &(impl Abort + AllocGlobal), address: &[u8]) -> (bool, bool) {
    let push = Route::Push {
        address: text(rt, address),
    };
    let pull = Route::Pull {
        mpc: text(rt, b"urn:mpc"),
        address: text(rt, address),
    };
    let told = (is_route(&push), is_route(&pull));
    drop(push);
    drop(pull);
    told
}

/// Addresses, and whether they are valid in a route.
const ADDRESSES: [(&[u8], bool); 3] = [
    (b"http://host:8080/in", true),
    (b"https://host/", false),
    (b"http://", false),
];

/// The first row with another result for one of the routes.
fn first_other_route(rt: &(impl Abort + AllocGlobal)) -> Option<usize> {
    for (row, (address, wanted)) in ADDRESSES.iter().enumerate() {
        if are_routes(rt, address) != (*wanted, *wanted) {
            return Some(row);
        }
    }
    None
}

#[test]
fn the_address_of_a_route_is_one(rt: HostRuntime) {
    assert_eq!(rt; first_other_route(&rt), None);
}

/// Bytes, and whether they are a single line without blanks at its ends.
const MEDIA_TEXTS: [(&[u8], bool); 7] = [
    (b"", true),
    (b"text/xml; charset=utf-8", true),
    (b"text/xml ", false),
    (b"\ttext/xml", false),
    (b" ", false),
    (b"text/\nxml", false),
    (b"text/xml\r", false),
];

/// The first row with another result.
fn first_other_media() -> Option<usize> {
    for (row, (text, wanted)) in MEDIA_TEXTS.iter().enumerate() {
        if is_media_text(text) != *wanted {
            return Some(row);
        }
    }
    None
}

#[test]
fn media_texts_are_one_line(rt: HostRuntime) {
    assert_eq!(rt; first_other_media(), None);
}

/// Whether each copy equals its source, and no two values are equal.
fn are_told_apart<T: PlainData + Drop>(rt: &(impl Abort + AllocGlobal), values: &[T]) -> bool {
    for (at, value) in values.iter().enumerate() {
        let copy = value.try_clone(rt.alloc()).expect(rt, "memory");
        for (place, other) in values.iter().enumerate() {
            if copy.same(other) != (at == place) {
                drop(copy);
                return false;
            }
        }
        drop(copy);
    }
    true
}

#[test]
fn a_copy_of_a_tick_is_the_same(rt: HostRuntime) {
    assert!(rt; are_told_apart(&rt, &[Tick { moment: 1 }, Tick { moment: 2 }]));
}

#[test]
fn a_copy_of_a_queue_is_the_same(rt: HostRuntime) {
    let (one, two) = (text(&rt, b"urn:one"), text(&rt, b"urn:two"));
    let queues = [Queue::Push, Queue::Channel(one), Queue::Channel(two)];
    assert!(rt; are_told_apart(&rt, &queues));
    drop(queues);
}

fn mark(rt: &(impl Abort + AllocGlobal), code: &[u8]) -> Mark {
    Mark::Refused {
        code: Code::read(rt.alloc(), code).expect(rt, "a code"),
    }
}

#[test]
fn a_copy_of_a_mark_is_the_same(rt: HostRuntime) {
    let marks = [
        Mark::Pending,
        Mark::Receipted,
        Mark::Failed,
        mark(&rt, b"EBMS:0004"),
        mark(&rt, b"EBMS:0301"),
    ];
    assert!(rt; are_told_apart(&rt, &marks));
    drop(marks);
}

fn carried_as(rt: &(impl Abort + AllocGlobal), tries: u32, last: u64, standing: Mark) -> Carried {
    let submission = submission(rt.alloc(), 0, 3).expect(rt, "memory");
    carried(submission, tries, last, standing).expect(rt, "a moment")
}

#[test]
fn a_copy_of_a_submission_as_it_stands_is_the_same(rt: HostRuntime) {
    let all = [
        carried_as(&rt, 1, 1, Mark::Pending),
        carried_as(&rt, 2, 1, Mark::Pending),
        carried_as(&rt, 1, 2, Mark::Pending),
        carried_as(&rt, 1, 1, Mark::Failed),
    ];
    assert!(rt; are_told_apart(&rt, &all));
    drop(all);
}

fn submitted(rt: &(impl Abort + AllocGlobal), number: u64) -> Effect {
    Effect::Submitted(submission(rt.alloc(), number, 3).expect(rt, "memory"))
}

fn refused(rt: &(impl Abort + AllocGlobal), code: &[u8]) -> Effect {
    let code = Code::read(rt.alloc(), code).expect(rt, "a code");
    Effect::Refused { number: 0, code }
}

#[test]
fn a_copy_of_an_effect_is_the_same(rt: HostRuntime) {
    let effects = [
        submitted(&rt, 0),
        submitted(&rt, 1),
        Effect::Ticked(Tick { moment: 1 }),
        Effect::Tried { number: 0 },
        Effect::Tried { number: 1 },
        Effect::Delivered(delivery(rt.alloc()).expect(&rt, "memory")),
        Effect::Receipted { number: 0 },
        refused(&rt, b"EBMS:0004"),
        refused(&rt, b"EBMS:0301"),
        Effect::Confirmed { upto: 0 },
        Effect::Carried(carried_as(&rt, 0, 0, Mark::Pending)),
        Effect::Kept(kept(rt.alloc(), 0).expect(&rt, "memory")),
    ];
    assert!(rt; are_told_apart(&rt, &effects));
    drop(effects);
}

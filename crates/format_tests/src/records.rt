//! The bytes of effects, and how they are read.
ghost use Rattle.std.specs.Prelude.{◌≡◌, ◌≤◌, IfSome, IsTrue, length};
ghost use Rattle.as4_values.specs.Pairing.{pair};
ghost use Rattle.as4_effects.specs.Sound.{is_id_of, is_route, fits_an_effect, submitted_body, delivered_body};

use as4_effects::{
    Carried, Delivery, Effect, Kept, Mark, Submission, Tick, delivery_fits, header_fits, is_id_of,
    is_route, submission_fits,
};
use as4_values::{
    Agreement, Code, MessageId, Octets, PartInfo, Party, Payload, PlainData, Property, Route, Seq,
    Service, Side, Text, UserHeader, pairs, read_stamp,
};
use event_code::{BodyRefusal, body_len, confirm_body, push_body, read_body, tick_body};
use std::alloc::Global;
use std::process::Abort;

#[test]
fn a_tick_and_a_confirmation_are_their_numbers(rt: HostRuntime) {
    assert_eq!(rt;
        [
            tick_body(1000),
            tick_body(253_402_300_799_999),
            confirm_body(0x0102030405060708),
        ],
        [
            *b"\x00\x01\x02\x00\x00\x00\x00\x00\x00\x03\xe8",
            *b"\x00\x01\x02\x00\x00\xe6\x77\xd2\x1f\xdb\xff",
            *b"\x00\x01\x07\x01\x02\x03\x04\x05\x06\x07\x08",
        ]
    );
}

fn text(rt: &(impl Abort + AllocGlobal), word: &[u8]) -> Text {
    Text::read(rt.alloc(), word).expect(rt, "a text")
}

fn optional(rt: &(impl Abort + AllocGlobal), full: bool, word: &[u8]) -> Option<Text> {
    if full { Some(text(rt, word)) } else { None }
}

fn octets(rt: &(impl Abort + AllocGlobal), bytes: &[u8]) -> Octets
    ensures { result ≡ bytes.now }
{
    Octets::of(Vec::from_slice(rt.alloc(), bytes).expect(rt, "memory"))
}

fn message_id(rt: &(impl Abort + AllocGlobal), id: &[u8]) -> MessageId {
    MessageId::read(rt.alloc(), id).expect(rt, "an identifier")
}

fn side(rt: &(impl Abort + AllocGlobal), full: bool, id: &[u8]) -> Side {
    let party = Party {
        id: text(rt, id),
        kind: optional(rt, full, b"k"),
    };
    Side {
        parties: Seq::of(vec![in rt.alloc(); party].expect(rt, "memory")),
        role: text(rt, b"r"),
    }
}

fn agreement(rt: &(impl Abort + AllocGlobal), full: bool) -> Option<Agreement> {
    if !full {
        return None;
    }
    Some(Agreement {
        value: text(rt, b"v"),
        kind: None,
        pmode: Some(text(rt, b"pm")),
    })
}

/// One property if it is full, and one without its value.
fn properties(rt: &(impl Abort + AllocGlobal), full: bool) -> Seq<Property>
    ensures { length result ≤ 1 }
{
    let property = Property {
        name: text(rt, b"n"),
        kind: None,
        value: optional(rt, full, b"w"),
    };
    Seq::of(vec![in rt.alloc(); property].expect(rt, "memory"))
}

/// One part info if it is full.
fn parts(rt: &(impl Abort + AllocGlobal), full: bool) -> Seq<PartInfo>
    ensures { length result ≤ 1 }
{
    if !full {
        return Seq::of(Vec::new(rt.alloc()));
    }
    let part = PartInfo {
        href: Some(text(rt, b"cid:p")),
        properties: properties(rt, true),
    };
    Seq::of(vec![in rt.alloc(); part].expect(rt, "memory"))
}

fn service(rt: &(impl Abort + AllocGlobal), full: bool) -> Service {
    Service {
        value: text(rt, b"s"),
        kind: optional(rt, full, b"t"),
    }
}

fn header(rt: &(impl Abort + AllocGlobal), full: bool, id: &[u8]) -> UserHeader {
    let ref_to = if full {
        Some(message_id(rt, b"m0"))
    } else {
        None
    };
    UserHeader {
        mpc: optional(rt, full, b"q"),
        stamp: read_stamp(rt.alloc(), b"2025-01-02T03:04:05Z").expect(rt, "a stamp"),
        id: message_id(rt, id),
        ref_to,
        from: side(rt, full, b"a"),
        to: side(rt, full, b"b"),
        agreement: agreement(rt, full),
        service: service(rt, full),
        action: text(rt, b"act"),
        conversation: optional(rt, full, b"c"),
        properties: properties(rt, false),
        parts: parts(rt, full),
    }
}

/// The one payload that a full header names.
#[tactic(auto, unfolding(as4_values::specs::Payload::is_media_text))]
fn payloads(rt: &(impl Abort + AllocGlobal), full: bool) -> Seq<Payload> {
    if !full {
        return Seq::of(Vec::new(rt.alloc()));
    }
    let name = message_id(rt, b"p");
    let payload = Payload {
        cid: octets(rt, name.bytes()),
        media: Octets::of(Vec::new(rt.alloc())),
        content: octets(rt, b"order"),
    };
    Seq::of(vec![in rt.alloc(); payload].expect(rt, "memory"))
}

/// Whether these values form a submission.
fn is_submission(
    alloc: Global,
    header: &UserHeader,
    payloads: &Seq<Payload>,
    route: &Route,
) -> Option<bool>
    ensures { IfSome result (λ whole. IsTrue whole
        → IsTrue (is_id_of 7 header.now.id) × IsTrue (pair header.now.parts payloads.now) × IsTrue (is_route route.now)
        × IsTrue (fits_an_effect (submitted_body 7 header.now payloads.now route.now 3 60000 1000))) }
{
    let paired = pairs(alloc, header.parts.items(), payloads.items()).ok()?;
    let named = is_id_of(alloc, 7, &header.id).ok()?;
    Some(paired && named && is_route(route) && submission_fits(header, payloads, route))
}

fn route(rt: &(impl Abort + AllocGlobal), full: bool) -> Route {
    let address = text(rt, b"http://h/");
    if full {
        Route::Pull {
            mpc: text(rt, b"q"),
            address,
        }
    } else {
        Route::Push { address }
    }
}

fn submission(rt: &(impl Abort + AllocGlobal), full: bool) -> Submission {
    let route = route(rt, full);
    let payloads = payloads(rt, full);
    let header = header(rt, full, b"7.00000000-0000-0000-0000-000000000001@as4");
    let whole = is_submission(rt.alloc(), &header, &payloads, &route).expect(rt, "memory");
    assert!(rt; whole);
    Submission {
        number: 7,
        header,
        payloads,
        route,
        retries: 3,
        period: 60000,
        moment: 1000,
    }
}

/// A bare submission after two tries, the last at 1,000.
fn carried(rt: &(impl Abort + AllocGlobal), standing: Mark) -> Effect {
    Effect::Carried(Carried {
        submission: submission(rt, false),
        tries: 2,
        last: 1000,
        standing,
    })
}

fn kept(rt: &(impl Abort + AllocGlobal), full: bool) -> Effect {
    let header = header(rt, full, b"m1");
    let fits = header_fits(&header);
    assert!(rt; fits);
    Effect::Kept(Kept { header })
}

fn is_delivery(alloc: Global, header: &UserHeader, payloads: &Seq<Payload>) -> Option<bool>
    ensures { IfSome result (λ whole. IsTrue whole
        → IsTrue (pair header.now.parts payloads.now) × IsTrue (fits_an_effect (delivered_body header.now payloads.now))) }
{
    let paired = pairs(alloc, header.parts.items(), payloads.items()).ok()?;
    Some(paired && delivery_fits(header, payloads))
}

fn delivered(rt: &(impl Abort + AllocGlobal), full: bool) -> Effect {
    let payloads = payloads(rt, full);
    let header = header(rt, full, b"m1");
    let whole = is_delivery(rt.alloc(), &header, &payloads).expect(rt, "memory");
    assert!(rt; whole);
    Effect::Delivered(Delivery { header, payloads })
}

fn code(rt: &(impl Abort + AllocGlobal)) -> Code {
    Code::read(rt.alloc(), b"EBMS:0004").expect(rt, "a code")
}

fn refused(rt: &(impl Abort + AllocGlobal)) -> Effect {
    Effect::Refused {
        number: 300,
        code: code(rt),
    }
}

fn joined(rt: &(impl Abort + AllocGlobal), pieces: &[&[u8]]) -> Vec<u8> {
    let mut bytes = Vec::new(rt.alloc());
    for piece in pieces {
        bytes.extend_from_slice(piece).expect(rt, "memory");
    }
    bytes
}

/// Whether the body of the effects consists of these bytes, and `body_len` is its length.
fn is_written(rt: &(impl Abort + AllocGlobal), effects: &Seq<Effect>, bytes: &[u8]) -> bool {
    let count = effects.items().len();
    assert!(rt; 0 < count && count <= 3);
    let len = body_len(effects);
    assert!(rt; len <= 1000);
    let mut body = Vec::new(rt.alloc());
    push_body(&mut body, effects).expect(rt, "memory");
    body.as_slice() == bytes && len == bytes.len() as u64
}

/// Whether the bytes are read as the effects, which are written as the same bytes.
fn is_read_back(rt: &(impl Abort + AllocGlobal), effects: &Seq<Effect>, bytes: &[u8]) -> bool {
    let read = read_body(rt.alloc(), bytes).expect(rt, "a body");
    let same = read.same(effects) && is_written(rt, &read, bytes);
    drop(read);
    same
}

/// Whether the body of the effects consists of the pieces, one after another, has the right length, and is read back.
fn is_body(rt: &(impl Abort + AllocGlobal), effects: Vec<Effect>, pieces: &[&[u8]]) -> bool {
    let effects = Seq::of(effects);
    let wanted = joined(rt, pieces);
    let same = is_written(rt, &effects, wanted.as_slice())
        && is_read_back(rt, &effects, wanted.as_slice());
    drop(effects);
    same
}

const SUBMITTED: &[u8] = b"\0\x01\x01";

const DELIVERED: &[u8] = b"\0\x01\x04";

const START: &[u8] = b"\0\0\0\x142025-01-02T03:04:05Z";

/// Effects without a header.
fn are_small(rt: &(impl Abort + AllocGlobal)) -> bool {
    let effects = vec![in rt.alloc();
        Effect::Tried { number: 258 },
        refused(rt),
        Effect::Receipted { number: 1 },
    ];
    is_body(
        rt,
        effects.expect(rt, "memory"),
        &[
            b"\0\x03",
            b"\x03\0\0\0\0\0\0\x01\x02",
            b"\x06\0\0\0\0\0\0\x01\x2c\0\0\0\x09EBMS:0004",
            b"\x05\0\0\0\0\0\0\0\x01",
        ],
    )
}

fn are_numbers(rt: &(impl Abort + AllocGlobal)) -> bool {
    let effects = vec![in rt.alloc();
        Effect::Ticked(Tick { moment: 1000 }),
        Effect::Confirmed {
            upto: 0xffff_ffff_ffff_ffff
        },
    ];
    is_body(
        rt,
        effects.expect(rt, "memory"),
        &[
            b"\0\x02",
            b"\x02\0\0\0\0\0\0\x03\xe8",
            b"\x07\xff\xff\xff\xff\xff\xff\xff\xff",
        ],
    )
}

/// The bytes of a bare header after its identifier.
const BARE: &[u8] =
    b"\0\0\0\0\x01\0\0\0\x01a\0\0\0\0\x01r\0\0\0\x01\0\0\0\x01b\0\0\0\0\x01r\0\0\0\0\x01s\0\0\0\0\x03act\0\0\0\0\x01\0\0\0\x01n\0\0\0\0\0\0";

/// The bytes of a full header after its identifier.
const FULL: &[u8] =
    b"\x01\0\0\0\x02m0\0\0\0\x01\0\0\0\x01a\x01\0\0\0\x01k\0\0\0\x01r\0\0\0\x01\0\0\0\x01b\x01\0\0\0\x01k\0\0\0\x01r\x01\0\0\0\x01v\0\x01\0\0\0\x02pm\0\0\0\x01s\x01\0\0\0\x01t\0\0\0\x03act\x01\0\0\0\x01c\0\0\0\x01\0\0\0\x01n\0\0\0\0\0\x01\x01\0\0\0\x05cid:p\0\0\0\x01\0\0\0\x01n\0\x01\0\0\0\x01w";

const PAYLOAD: &[u8] = b"\0\0\0\x01\0\0\0\x01p\0\0\0\0\0\0\0\x05order";

/// No payloads.
const NO_PAYLOADS: &[u8] = b"\0\0\0\0";

const FULL_MPC: &[u8] = b"\x01\0\0\0\x01q";

const M1: &[u8] = b"\0\0\0\x02m1";

const ID: &[u8] = b"\0\0\0\x2a7.00000000-0000-0000-0000-000000000001@as4";

const SEVEN: &[u8] = b"\0\0\0\0\0\0\0\x07";

const PUSH: &[u8] = b"\0\0\0\0\x09http://h/";

/// Retries, period and moment.
const TERMS: &[u8] = b"\0\0\0\x03\0\0\0\0\0\0\xea\x60\0\0\0\0\0\0\x03\xe8";

/// The body of a bare delivery.
const DELIVERY: [&[u8]; 6] = [DELIVERED, b"\0", START, M1, BARE, NO_PAYLOADS];

fn is_delivered(rt: &(impl Abort + AllocGlobal), full: bool) -> bool {
    let effects = vec![in rt.alloc(); delivered(rt, full)].expect(rt, "memory");
    if full {
        is_body(
            rt,
            effects,
            &[DELIVERED, FULL_MPC, START, M1, FULL, PAYLOAD],
        )
    } else {
        is_body(rt, effects, &DELIVERY)
    }
}

/// The body of a bare submission.
const SUBMISSION: [&[u8]; 9] = [
    SUBMITTED,
    SEVEN,
    b"\0",
    START,
    ID,
    BARE,
    NO_PAYLOADS,
    PUSH,
    TERMS,
];

fn is_submitted(rt: &(impl Abort + AllocGlobal), full: bool) -> bool {
    let effects = vec![in rt.alloc(); Effect::Submitted(submission(rt, full))].expect(rt, "memory");
    if full {
        let pull = b"\x01\0\0\0\x01q\0\0\0\x09http://h/";
        is_body(
            rt,
            effects,
            &[
                SUBMITTED, SEVEN, FULL_MPC, START, ID, FULL, PAYLOAD, pull, TERMS,
            ],
        )
    } else {
        is_body(rt, effects, &SUBMISSION)
    }
}

/// The number of tries, and the moment of the last.
const TRIED: &[u8] = b"\0\0\0\x02\0\0\0\0\0\0\x03\xe8";

/// The body of a bare submission that is carried over and pending.
const CARRIED: [&[u8]; 11] = [
    b"\0\x01\x08",
    SEVEN,
    b"\0",
    START,
    ID,
    BARE,
    NO_PAYLOADS,
    PUSH,
    TERMS,
    TRIED,
    b"\0",
];

/// Whether a submission with this standing ends in these bytes.
fn is_carried(rt: &(impl Abort + AllocGlobal), standing: Mark, mark: &[u8]) -> bool {
    let effects = vec![in rt.alloc(); carried(rt, standing)].expect(rt, "memory");
    let mut pieces = CARRIED;
    pieces[10] = mark;
    is_body(rt, effects, &pieces)
}

fn is_kept(rt: &(impl Abort + AllocGlobal), full: bool) -> bool {
    let effects = vec![in rt.alloc(); kept(rt, full)].expect(rt, "memory");
    let start = b"\0\x01\x09";
    if full {
        is_body(rt, effects, &[start, FULL_MPC, START, M1, FULL])
    } else {
        is_body(rt, effects, &[start, b"\0", START, M1, BARE])
    }
}

#[test]
fn effects_of_numbers_and_codes_are_written(rt: HostRuntime) {
    assert!(rt; are_small(&rt));
    assert!(rt; are_numbers(&rt));
}

#[test]
fn messages_are_written_full_and_bare(rt: HostRuntime) {
    for full in [false, true] {
        assert!(rt; is_delivered(&rt, full), "{full}");
        assert!(rt; is_submitted(&rt, full), "{full}");
    }
}

#[test]
fn submissions_are_written_as_they_stand(rt: HostRuntime) {
    assert!(rt; is_carried(&rt, Mark::Pending, b"\0"));
    assert!(rt; is_carried(&rt, Mark::Receipted, b"\x01"));
    assert!(rt; is_carried(&rt, Mark::Failed, b"\x02"));
    let refused = Mark::Refused { code: code(&rt) };
    assert!(rt; is_carried(&rt, refused, b"\x03\0\0\0\x09EBMS:0004"));
}

#[test]
fn headers_are_kept_full_and_bare(rt: HostRuntime) {
    for full in [false, true] {
        assert!(rt; is_kept(&rt, full), "{full}");
    }
}

const TICK: &[u8] = b"\0\x01\x02\0\0\0\0\0\0\x03\xe8";

/// The bytes of a bare header after its identifier, with a blank after its action.
const BLANK: &[u8] =
    b"\0\0\0\0\x01\0\0\0\x01a\0\0\0\0\x01r\0\0\0\x01\0\0\0\x01b\0\0\0\0\x01r\0\0\0\0\x01s\0\0\0\0\x04act \0\0\0\0\x01\0\0\0\x01n\0\0\0\0\0\0";

/// The moment of the only tick that is read from the bytes.
fn tick_of(rt: &(impl Abort + AllocGlobal), bytes: &[u8]) -> Option<u64> {
    let effects = read_body(rt.alloc(), bytes).expect(rt, "a body");
    let moment = match effects.items() {
        [Effect::Ticked(tick)] => Some(tick.moment),
        _ => None,
    };
    drop(effects);
    moment
}

#[test]
fn a_tick_is_read(rt: HostRuntime) {
    assert_eq!(rt; tick_of(&rt, TICK), Some(1000));
}

/// Whether the bytes are refused: they are no body.
fn is_no_body(rt: &(impl Abort + AllocGlobal), bytes: &[u8]) -> bool {
    match read_body(rt.alloc(), bytes) {
        Ok(effects) => {
            drop(effects);
            false
        }
        Err(refusal) => refusal == BodyRefusal::NotBody,
    }
}

/// Bytes that are no body of effects.
const OTHERS: [(&str, &[u8]); 9] = [
    ("no effects", b"\0\0"),
    ("1,025 effects", b"\x04\x01"),
    ("a cut tick", b"\0\x01\x02\0\0\0\0\0\0\x03"),
    ("a byte more", b"\0\x01\x02\0\0\0\0\0\0\x03\xe8\0"),
    ("an effect of byte 0", b"\0\x01\0\0\0\0\0\0\0\x03\xe8"),
    ("an effect of byte 10", b"\0\x01\x0a\0\0\0\0\0\0\x03\xe8"),
    ("a message that was kept without its header", b"\0\x01\x09"),
    (
        "a moment of the year 10,000",
        b"\0\x01\x02\0\0\xe6\x77\xd2\x1f\xdc\0",
    ),
    ("an empty code", b"\0\x01\x06\0\0\0\0\0\0\x01\x2c\0\0\0\0"),
];

#[test]
fn other_bytes_are_no_body(rt: HostRuntime) {
    for (name, bytes) in &OTHERS {
        assert!(rt; is_no_body(&rt, bytes), "{name}");
    }
}

/// The bytes of a bare header after its identifier, whose first side has no party.
const ALONE: &[u8] =
    b"\0\0\0\0\0\0\0\0\x01r\0\0\0\x01\0\0\0\x01b\0\0\0\0\x01r\0\0\0\0\x01s\0\0\0\0\x03act\0\0\0\0\x01\0\0\0\x01n\0\0\0\0\0\0";

/// An error in the body of a delivery, and the index and the bytes of that piece.
const OTHER_DELIVERIES: [(&str, usize, &[u8]); 9] = [
    ("a blank at the end of a text", 4, BLANK),
    ("a control character", 1, b"\x01\0\0\0\x01\x01"),
    ("neither a value nor none", 1, b"\x02\0\0\0\x01q"),
    ("a stamp without a time", 2, b"\0\0\0\x0a2025-01-02"),
    ("a space in an identifier", 3, b"\0\0\0\x02m "),
    ("a side of no party", 4, ALONE),
    ("a payload without a part info", 5, PAYLOAD),
    (
        "a space in a Content-ID",
        5,
        b"\0\0\0\x01\0\0\0\x02p \0\0\0\0\0\0\0\0",
    ),
    (
        "a media text of two lines",
        5,
        b"\0\0\0\x01\0\0\0\x01p\0\0\0\x03t\n/\0\0\0\0",
    ),
];

/// Whether the pieces, with another one at this index, are refused: they are no body.
fn are_no_body(
    rt: &(impl Abort + AllocGlobal),
    pieces: &[&[u8]],
    place: usize,
    other: &[u8],
) -> bool {
    let mut bytes = Vec::new(rt.alloc());
    for (at, piece) in pieces.iter().enumerate() {
        let piece = if at == place { other } else { *piece };
        bytes.extend_from_slice(piece).expect(rt, "memory");
    }
    is_no_body(rt, bytes.as_slice())
}

/// The first of these errors with which the pieces are still a body.
fn first_body(
    rt: &(impl Abort + AllocGlobal),
    pieces: &[&[u8]],
    others: &[(&'static str, usize, &[u8])],
) -> Option<&'static str> {
    for (name, place, other) in others {
        if !are_no_body(rt, pieces, *place, other) {
            return Some(*name);
        }
    }
    None
}

#[test]
fn other_deliveries_are_no_body(rt: HostRuntime) {
    assert!(rt; !is_no_body(&rt, joined(&rt, &DELIVERY).as_slice()));
    assert_eq!(rt; first_body(&rt, &DELIVERY, &OTHER_DELIVERIES), None);
}

/// An error in the body of a submission, and the index and the bytes of that piece.
const OTHER_SUBMISSIONS: [(&str, usize, &[u8]); 4] = [
    (
        "another number than the identifier's",
        1,
        b"\0\0\0\0\0\0\0\x08",
    ),
    ("an unknown route", 7, b"\x02\0\0\0\x09http://h/"),
    ("an address without a host", 7, b"\0\0\0\0\x07http://"),
    (
        "1,001 retries",
        8,
        b"\0\0\x03\xe9\0\0\0\0\0\0\xea\x60\0\0\0\0\0\0\x03\xe8",
    ),
];

#[test]
fn other_submissions_are_no_body(rt: HostRuntime) {
    assert!(rt; !is_no_body(&rt, joined(&rt, &SUBMISSION).as_slice()));
    assert_eq!(rt; first_body(&rt, &SUBMISSION, &OTHER_SUBMISSIONS), None);
}

/// An error in the body of a submission that is carried over, and the index and the bytes of that piece.
const OTHER_CARRIED: [(&str, usize, &[u8]); 6] = [
    (
        "1,001 retries",
        8,
        b"\0\0\x03\xe9\0\0\0\0\0\0\xea\x60\0\0\0\0\0\0\x03\xe8",
    ),
    ("tries that are cut off", 9, b"\0\0\x02\0\0\0\0\0\0\x03\xe8"),
    (
        "a last time in the year 10,000",
        9,
        b"\0\0\0\x02\0\0\xe6\x77\xd2\x1f\xdc\0",
    ),
    ("no mark", 10, b""),
    ("a mark of byte 4", 10, b"\x04"),
    ("a refusal without its code", 10, b"\x03"),
];

#[test]
fn other_submissions_as_they_stand_are_no_body(rt: HostRuntime) {
    assert!(rt; !is_no_body(&rt, joined(&rt, &CARRIED).as_slice()));
    assert_eq!(rt; first_body(&rt, &CARRIED, &OTHER_CARRIED), None);
}

//! Submissions made from modes and loads, and their limits.
ghost use Rattle.std.specs.Prelude.{false, IsTrue};
ghost use Rattle.mode_values.specs.ModeRanges.{is_mode_name, is_short, is_short_side, is_mode_route, may_collect};

use as4_effects::Submission;
use as4_values::{
    Load, Octets, PartInfo, Party, Payload, Route, Seq, Service, Side, Text, is_address,
};
use made_messages::octets;
use mode_values::Mode;
use std::alloc::Global;
use std::process::Abort;
use submissions::{Intake, are_too_large, submission};

/// The identifier of the first submission, with the nonce 0.
const ID: &[u8] = b"0.00000000-0000-0000-0000-000000000000@as4";

#[tactic(auto, unfolding(mode_values::specs::ModeRanges::is_short))]
fn short(rt: &(impl Abort + AllocGlobal), text: &[u8]) -> Text
    ensures { IsTrue (is_short result) }
{
    let text = Text::read(rt.alloc(), text).expect(rt, "a text");
    assert!(rt; text.bytes().len() <= 255);
    text
}

#[tactic(auto, unfolding(mode_values::specs::ModeRanges::is_mode_name))]
fn name(rt: &(impl Abort + AllocGlobal)) -> Text
    ensures { IsTrue (is_mode_name result) }
{
    let text = Text::read(rt.alloc(), b"m").expect(rt, "a text");
    assert!(rt; text.bytes() == b"m".as_slice());
    text
}

#[tactic(auto, unfolding(mode_values::specs::ModeRanges::is_short_side, mode_values::specs::ModeRanges::is_short_party))]
fn side(rt: &(impl Abort + AllocGlobal), id: &[u8]) -> Side
    ensures { IsTrue (is_short_side result.parties result.role) }
{
    let party = Party {
        id: short(rt, id),
        kind: None,
    };
    Side {
        parties: Seq::of(vec![in rt.alloc(); party].expect(rt, "memory")),
        role: short(rt, b"r"),
    }
}

/// A push, or a pull from the channel `c`.
#[tactic(auto, unfolding(mode_values::specs::ModeRanges::is_mode_route, mode_values::specs::ModeRanges::may_collect))]
fn route(rt: &(impl Abort + AllocGlobal), is_pulled: bool) -> Route
    ensures right { IsTrue (is_mode_route result) }
    ensures waits { IsTrue (may_collect result false) }
{
    let address = short(rt, b"http://h/p");
    assert!(rt; is_address(&address));
    if is_pulled {
        Route::Pull {
            mpc: short(rt, b"c"),
            address,
        }
    } else {
        Route::Push { address }
    }
}

#[tactic(auto, unfolding(mode_values::specs::ModeRanges::is_short_service, mode_values::specs::ModeRanges::is_mode_agreement))]
fn mode(rt: &(impl Abort + AllocGlobal), is_pulled: bool) -> Mode {
    Mode {
        name: name(rt),
        from: side(rt, b"a"),
        to: side(rt, b"b"),
        service: Service {
            value: short(rt, b"v"),
            kind: None,
        },
        action: short(rt, b"x"),
        agreement: None,
        route: route(rt, is_pulled),
        retries: 3,
        period: 1000,
        collect: false,
    }
}

/// This many loads of three bytes with this media text.
fn loads(rt: &(impl Abort + AllocGlobal), count: usize, media: &[u8]) -> Seq<Load> {
    let mut loads = Vec::new(rt.alloc());
    for _ in 0..count {
        let load = Load {
            media: octets(rt.alloc(), media).expect(rt, "memory"),
            content: octets(rt.alloc(), b"abc").expect(rt, "memory"),
        };
        loads.push(load).expect(rt, "memory");
    }
    Seq::of(loads)
}

/// Whether this many loads with this media text are too large.
fn too_large(rt: &(impl Abort + AllocGlobal), count: usize, media: &[u8]) -> bool {
    let loads = loads(rt, count, media);
    let are_too_large = are_too_large(loads.items());
    drop(loads);
    are_too_large
}

/// The first submission with this mode and these loads, at the moment 1 by the endpoint's clock and 2 by the event's.
fn made_of(alloc: Global, mode: &Mode, loads: &Seq<Load>) -> Option<Submission> {
    if are_too_large(loads.items()) {
        return None;
    }
    let intake = Intake {
        number: 0,
        now: 1,
        stamp: 2,
        nonce: 0,
    };
    submission(alloc, mode, intake, &None, loads).ok()
}

/// The same with this many loads, pushed or pulled.
fn made(rt: &(impl Abort + AllocGlobal), is_pulled: bool, count: usize) -> Submission {
    let mode = mode(rt, is_pulled);
    let loads = loads(rt, count, b"t/x");
    let made = made_of(rt.alloc(), &mode, &loads);
    drop(mode);
    drop(loads);
    made.expect(rt, "a submission")
}

/// The bytes of a text; empty if there is no text.
fn bytes(text: &Option<Text>) -> &[u8] {
    match text {
        Some(text) => text.bytes(),
        None => &[],
    }
}

/// Whether it has the identifier, the moment and the stamp of the first submission, and has no channel, no part and no
/// payload.
fn told_of_a_push(made: &Submission) -> [bool; 6] {
    let header = &made.header;
    [
        header.id.bytes() == ID,
        made.moment == 1,
        header.stamp.bytes() == b"1970-01-01T00:00:00.002Z".as_slice(),
        header.mpc.is_none(),
        header.parts.items().is_empty(),
        made.payloads.items().is_empty(),
    ]
}

#[test]
fn nothing_is_pushed(rt: HostRuntime) {
    let made = made(&rt, false, 0);
    let told = told_of_a_push(&made);
    drop(made);
    assert_eq!(rt; told, [true; 6]);
}

/// The Content-IDs of the first submission.
const CIDS: [&[u8]; 2] = [
    b"1.0.00000000-0000-0000-0000-000000000000@as4",
    b"2.0.00000000-0000-0000-0000-000000000000@as4",
];

/// Whether a payload of the media text `t/x` has this Content-ID, and the part info names it.
fn are_named(part: &PartInfo, payload: &Payload, cid: &[u8]) -> bool {
    bytes(&part.href).strip_prefix(b"cid:".as_slice()) == Some(cid)
        && payload.cid.bytes() == cid
        && payload.media.bytes() == b"t/x".as_slice()
}

/// Whether it waits in the channel `c`, and two payloads have their Content-IDs.
fn told_of_a_pull(made: &Submission) -> (bool, [bool; 2]) {
    let waits = bytes(&made.header.mpc) == b"c".as_slice();
    match (made.header.parts.items(), made.payloads.items()) {
        ([part, other_part], [payload, other_payload]) => (
            waits,
            [
                are_named(part, payload, CIDS[0]),
                are_named(other_part, other_payload, CIDS[1]),
            ],
        ),
        _ => (waits, [false; 2]),
    }
}

#[test]
fn two_payloads_wait_in_the_channel(rt: HostRuntime) {
    let made = made(&rt, true, 2);
    let told = told_of_a_pull(&made);
    drop(made);
    assert_eq!(rt; told, (true, [true; 2]));
}

/// Whether a load with a media text of this length is too large.
fn long_is_too_large(rt: &(impl Abort + AllocGlobal), length: usize) -> bool {
    let mut media = Vec::from_slice(rt.alloc(), b"t/x").expect(rt, "memory");
    media.resize(length, b'x').expect(rt, "memory");
    let is_too_large = too_large(rt, 1, &media);
    drop(media);
    is_too_large
}

#[test]
fn media_texts_are_one_line_of_1024_bytes(rt: HostRuntime) {
    assert!(rt; !long_is_too_large(&rt, 1024));
    assert!(rt; long_is_too_large(&rt, 1025));
    assert!(rt; too_large(&rt, 1, b"t/\nx"));
    assert!(rt; too_large(&rt, 1, b"t/x "));
    assert!(rt; !too_large(&rt, 1, b""));
}

#[test]
fn there_are_64_loads(rt: HostRuntime) {
    assert!(rt; !too_large(&rt, 64, b""));
    assert!(rt; too_large(&rt, 65, b""));
}

/// This many zeros, without a media text.
fn zeros(alloc: Global, length: usize) -> Option<Load> {
    Some(Load {
        media: Octets::of(Vec::new(alloc)),
        content: Octets::of(vec![in alloc; 0; length].ok()?),
    })
}

/// Whether two loads of these lengths are too large.
fn are_too_long(alloc: Global, lengths: [usize; 2]) -> Option<bool> {
    match (zeros(alloc, lengths[0]), zeros(alloc, lengths[1])) {
        (Some(one), Some(other)) => {
            let loads = [one, other];
            let told = are_too_large(&loads);
            drop(loads);
            Some(told)
        }
        (one, other) => {
            drop(one);
            drop(other);
            None
        }
    }
}

#[test]
fn contents_have_62914560_bytes_together(rt: HostRuntime) {
    assert_eq!(rt; are_too_long(rt.alloc(), [62_914_559, 1]), Some(false));
    assert_eq!(rt; are_too_long(rt.alloc(), [62_914_559, 2]), Some(true));
}

//! What requests ask for.

use crate::rows::{LOCAL, PEER, Row};
use crate::samples::{BODY, MEDIA};
use as4_codes::pull_request;
use as4_doors::{DoorKind, DoorRefusal, ask};
use as4_http::{Method, Request};
use as4_message::{Wire, write_message};
use as4_values::{Load, Message, Octets, Text};
use exchange_model::What;
use itoa::Buffer;
use std::alloc::{AllocError, Global};
use std::test::Fail;

/// A request with these parts.
pub fn request(
    alloc: Global,
    method: Method,
    target: &[u8],
    media: Option<&[u8]>,
    body: &[u8],
) -> Result<Request, AllocError> {
    let media = match media {
        Some(media) => Some(Octets::of(Vec::from_slice(alloc, media)?)),
        None => None,
    };
    Ok(Request {
        method,
        target: Octets::of(Vec::from_slice(alloc, target)?),
        media,
        body: Octets::of(Vec::from_slice(alloc, body)?),
    })
}

fn add_number(out: &mut Vec<u8>, words: &[u8], number: u64) -> Result<(), AllocError> {
    let mut digits = Buffer::new();
    out.extend_from_slice(words)?;
    out.extend_from_slice(digits.format(number).as_bytes())
}

fn add_two(out: &mut Vec<u8>, words: &[u8], text: &[u8]) -> Result<(), AllocError> {
    out.extend_from_slice(words)?;
    out.extend_from_slice(text)
}

fn add_loads(out: &mut Vec<u8>, loads: &[Load]) -> Result<(), AllocError> {
    for load in loads {
        add_two(out, b" ", load.media.bytes())?;
        add_two(out, b"=", load.content.bytes())?;
        out.extend_from_slice(b";")?;
    }
    Ok(())
}

fn add_message(out: &mut Vec<u8>, message: &Message) -> Result<(), AllocError> {
    match message {
        Message::User { header, payloads } => {
            add_two(out, b"user ", header.id.bytes())?;
            add_number(out, b" ", payloads.items().len() as u64)
        }
        Message::Signal(signal) => add_two(out, b"signal ", signal.id.bytes()),
        Message::Pair(pair) => add_two(out, b"pair ", pair.receipt.id.bytes()),
    }
}

fn add_submission(
    out: &mut Vec<u8>,
    mode: &Text,
    conversation: &Option<Text>,
    loads: &[Load],
) -> Result<(), AllocError> {
    add_two(out, b"submit ", mode.bytes())?;
    match conversation {
        Some(conversation) => add_two(out, b" ", conversation.bytes())?,
        None => out.extend_from_slice(b" -")?,
    }
    add_loads(out, loads)
}

fn add_what(out: &mut Vec<u8>, what: &What) -> Result<(), AllocError> {
    match what {
        What::Submit {
            mode,
            conversation,
            loads,
        } => add_submission(out, mode, conversation, loads.items()),
        What::Came(message) => add_message(out, message),
        What::Read { n } => add_number(out, b"read ", *n),
        What::Confirm { upto } => add_number(out, b"confirm ", *upto),
        What::Status { id } => add_two(out, b"status ", id.bytes()),
        _ => out.extend_from_slice(b"other"),
    }
}

fn add_answer(out: &mut Vec<u8>, answer: &Result<What, DoorRefusal>) -> Result<(), AllocError> {
    match answer {
        Ok(what) => add_what(out, what),
        Err(DoorRefusal::Stranger) => out.extend_from_slice(b"stranger"),
        Err(DoorRefusal::Refused(refusal)) => {
            add_number(out, b"refused ", u64::from(refusal.code))?;
            match &refusal.about {
                Some(id) => add_two(out, b" ", id.bytes()),
                None => Ok(()),
            }
        }
        Err(DoorRefusal::NoMemory) => out.extend_from_slice(b"no memory"),
    }
}

/// What a request asks for, as a line of `rows`.
pub fn asked(alloc: Global, door: DoorKind, request: &Request) -> Result<Vec<u8>, AllocError> {
    let mut out = Vec::new(alloc);
    let answer = ask(alloc, door, request);
    let added = add_answer(&mut out, &answer);
    drop(answer);
    added?;
    Ok(out)
}

fn is_right(alloc: Global, door: DoorKind, row: &Row) -> Result<bool, AllocError> {
    let media = row.2.map(|text| text.as_bytes());
    let request = request(alloc, row.0, row.1.as_bytes(), media, row.3.as_bytes())?;
    let line = asked(alloc, door, &request)?;
    Ok(line.as_slice() == row.4.as_bytes())
}

// The index of the first row with another answer.
fn first_wrong(alloc: Global, door: DoorKind, rows: &[Row]) -> Option<usize> {
    rows.iter()
        .position(|row| is_right(alloc, door, row) != Ok(true))
}

#[test]
fn requests_at_the_local_door(rt: HostRuntime) -> Result<(), Fail> {
    assert_eq!(rt; first_wrong(rt.alloc(), DoorKind::Local, &LOCAL), None);
    Ok(())
}

#[test]
fn requests_at_the_peers_door(rt: HostRuntime) -> Result<(), Fail> {
    assert_eq!(rt; first_wrong(rt.alloc(), DoorKind::Peer, &PEER), None);
    Ok(())
}

// What a submission asks for whose mode's name has this many bytes.
fn named(alloc: Global, mode: usize, conversation: usize) -> Result<Vec<u8>, AllocError> {
    let mut target = Vec::from_slice(alloc, b"/submit/")?;
    target.resize(8 + mode.min(300), b'm')?;
    target.extend_from_slice(b"/")?;
    let len = target.len();
    target.resize(len + conversation.min(300), b'c')?;
    let request = request(alloc, Method::Post, target.as_slice(), None, b"")?;
    asked(alloc, DoorKind::Local, &request)
}

#[test]
fn texts_have_at_most_255_bytes(rt: HostRuntime) -> Result<(), Fail> {
    let alloc = rt.alloc();
    assert_eq!(rt; named(alloc, 255, 255)?.len(), 518);
    assert_eq!(rt; named(alloc, 256, 1)?.as_slice(), b"stranger".as_slice());
    assert_eq!(rt; named(alloc, 1, 256)?.as_slice(), b"stranger".as_slice());
    Ok(())
}

#[test]
fn a_reference_to_no_payload_is_refused_about_its_message(rt: HostRuntime) -> Result<(), Fail> {
    let alloc = rt.alloc();
    let (front, back) = BODY.split_once("cid:p1@a").ok_or("no reference")?;
    let mut body = Vec::from_slice(alloc, front.as_bytes())?;
    body.extend_from_slice(b"cid:p2@a")?;
    body.extend_from_slice(back.as_bytes())?;
    let request = request(
        alloc,
        Method::Post,
        b"/",
        Some(MEDIA.as_bytes()),
        body.as_slice(),
    )?;
    assert_eq!(rt;
        asked(alloc, DoorKind::Peer, &request)?.as_slice(),
        b"refused 7 m1@a".as_slice()
    );
    Ok(())
}

// A pull request as it is sent.
fn pull_wire(alloc: Global) -> Option<Wire> {
    let mpc = Text::read(alloc, b"c").ok()?;
    let pull = pull_request(alloc, &mpc, 0, 1).ok()?;
    let message = Message::Signal(pull);
    let wire = write_message(alloc, &message);
    drop(message);
    wire.ok()
}

#[test]
fn a_signal_comes(rt: HostRuntime) -> Result<(), Fail> {
    let alloc = rt.alloc();
    let wire = pull_wire(alloc).ok_or("no wire")?;
    let media = Some(wire.media.bytes());
    let request = request(alloc, Method::Post, b"/", media, wire.body.bytes())?;
    assert_eq!(rt;
        asked(alloc, DoorKind::Peer, &request)?.as_slice(),
        b"signal s.00000000-0000-0000-0000-000000000001@as4".as_slice()
    );
    Ok(())
}

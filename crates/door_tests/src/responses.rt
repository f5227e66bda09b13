//! Responses to replies and refusals.

use crate::asking::request;
use crate::samples::{BARE, BARE_MEDIA, BODY, MEDIA};
use as4_codes::pull_request;
use as4_doors::{DoorKind, DoorRefusal, Fixed, Written, ask, refusal_response, response};
use as4_http::{Method, write_kept, write_response};
use as4_message::{Wire, write_message};
use as4_values::{Code, Message, MessageId, Octets, Text};
use exchange_model::{Reply, What};
use std::alloc::{AllocError, Global};
use std::test::Fail;

const UNAVAILABLE: &str =
    "HTTP/1.1 503 Service Unavailable\r\nContent-Length: 0\r\nConnection: close\r\n\r\n";

// Whether a reply has this status line and this line of text, on a connection that closes and on one that is kept.
fn has_line(alloc: Global, reply: Reply, status: &str, len: &str, text: &str) -> Option<bool> {
    let right = is_lined(alloc, &reply, status, len, text);
    drop(reply);
    right
}

fn is_lined(alloc: Global, reply: &Reply, status: &str, len: &str, text: &str) -> Option<bool> {
    let closing = lined(alloc, status, len, "close", text).ok()?;
    let keeping = lined(alloc, status, len, "keep-alive", text).ok()?;
    Some(
        is_written(alloc, false, reply, closing.as_slice())?
            && is_written(alloc, true, reply, keeping.as_slice())?,
    )
}

fn lined(
    alloc: Global,
    status: &str,
    len: &str,
    connection: &str,
    text: &str,
) -> Result<Vec<u8>, AllocError> {
    let mut out = Vec::from_slice(alloc, b"HTTP/1.1 ")?;
    for part in [
        status,
        "\r\nContent-Type: text/plain\r\nContent-Length: ",
        len,
        "\r\nConnection: ",
        connection,
        "\r\n\r\n",
        text,
    ] {
        out.extend_from_slice(part.as_bytes())?;
    }
    Ok(out)
}

// Whether the response to a reply has these bytes.
fn is_written(alloc: Global, kept: bool, reply: &Reply, bytes: &[u8]) -> Option<bool> {
    let written = response(alloc, kept, reply).ok()?;
    Some(written.bytes() == bytes)
}

// Whether a reply has these bytes, whether the connection is kept or not.
fn is_always(alloc: Global, reply: Reply, bytes: &[u8]) -> Option<bool> {
    let right = is_always_written(alloc, &reply, bytes);
    drop(reply);
    right
}

fn is_always_written(alloc: Global, reply: &Reply, bytes: &[u8]) -> Option<bool> {
    Some(is_written(alloc, false, reply, bytes)? && is_written(alloc, true, reply, bytes)?)
}

#[test]
fn submissions_have_lines(rt: HostRuntime) -> Result<(), Fail> {
    let alloc = rt.alloc();
    let id = MessageId::read(alloc, b"m1@a").ok().ok_or("no identifier")?;
    assert_eq!(rt;
        has_line(
            alloc,
            Reply::Submitted { number: 3, id },
            "200 OK",
            "7",
            "3 m1@a\n"
        ),
        Some(true)
    );
    assert_eq!(rt;
        has_line(alloc, Reply::NoMode, "404 Not Found", "8", "no mode\n"),
        Some(true)
    );
    assert_eq!(rt;
        has_line(
            alloc,
            Reply::OutboxFull,
            "409 Conflict",
            "12",
            "outbox full\n"
        ),
        Some(true)
    );
    assert_eq!(rt;
        has_line(alloc, Reply::TooLarge, "409 Conflict", "10", "too large\n"),
        Some(true)
    );
    Ok(())
}

#[test]
fn the_inbox_has_lines(rt: HostRuntime) -> Result<(), Fail> {
    let alloc = rt.alloc();
    assert_eq!(rt;
        has_line(alloc, Reply::NoEntry, "404 Not Found", "9", "no entry\n"),
        Some(true)
    );
    assert_eq!(rt;
        has_line(alloc, Reply::Gone, "410 Gone", "5", "gone\n"),
        Some(true)
    );
    assert_eq!(rt;
        has_line(
            alloc,
            Reply::Confirmed { upto: 2 },
            "200 OK",
            "12",
            "confirmed 2\n"
        ),
        Some(true)
    );
    Ok(())
}

#[test]
fn states_of_submissions_have_lines(rt: HostRuntime) -> Result<(), Fail> {
    let alloc = rt.alloc();
    assert_eq!(rt;
        has_line(
            alloc,
            Reply::Pending { tries: 3 },
            "200 OK",
            "10",
            "pending 3\n"
        ),
        Some(true)
    );
    assert_eq!(rt;
        has_line(alloc, Reply::Receipted, "200 OK", "10", "receipted\n"),
        Some(true)
    );
    assert_eq!(rt;
        has_line(alloc, Reply::Failed, "200 OK", "17", "failed EBMS:0301\n"),
        Some(true)
    );
    let code = Code::read(alloc, b"EBMS:0010").ok().ok_or("no code")?;
    assert_eq!(rt;
        has_line(
            alloc,
            Reply::RefusedWith { code },
            "200 OK",
            "18",
            "refused EBMS:0010\n"
        ),
        Some(true)
    );
    assert_eq!(rt;
        has_line(alloc, Reply::Unknown, "404 Not Found", "8", "unknown\n"),
        Some(true)
    );
    Ok(())
}

#[test]
fn no_answer_is_accepted(rt: HostRuntime) -> Result<(), Fail> {
    let alloc = rt.alloc();
    let closing = b"HTTP/1.1 202 Accepted\r\nContent-Length: 0\r\nConnection: close\r\n\r\n";
    let keeping = b"HTTP/1.1 202 Accepted\r\nContent-Length: 0\r\nConnection: keep-alive\r\n\r\n";
    let reply = Reply::Quiet;
    let closed = is_written(alloc, false, &reply, closing);
    let kept = is_written(alloc, true, &reply, keeping);
    drop(reply);
    assert_eq!(rt; closed, Some(true));
    assert_eq!(rt; kept, Some(true));
    Ok(())
}

#[test]
fn the_service_is_unavailable(rt: HostRuntime) -> Result<(), Fail> {
    let alloc = rt.alloc();
    let bytes = UNAVAILABLE.as_bytes();
    assert_eq!(rt;
        is_always(alloc, Reply::Full { size: 1, need: 2 }, bytes),
        Some(true)
    );
    assert_eq!(rt;
        is_always(
            alloc,
            Reply::Stopped {
                before: 0,
                after: 1
            },
            bytes
        ),
        Some(true)
    );
    assert_eq!(rt;
        is_always(alloc, Reply::Ticked { failed: 1 }, bytes),
        Some(true)
    );
    assert_eq!(rt; is_always(alloc, Reply::Nothing, bytes), Some(true));
    Ok(())
}

// A pull request.
fn pull(alloc: Global) -> Option<Message> {
    let mpc = Text::read(alloc, b"c").ok()?;
    Some(Message::Signal(pull_request(alloc, &mpc, 0, 1).ok()?))
}

#[test]
fn what_is_for_a_link_is_unavailable(rt: HostRuntime) -> Result<(), Fail> {
    let alloc = rt.alloc();
    let address = Text::read(alloc, b"http://h/").ok().ok_or("no text")?;
    let message = pull(alloc).ok_or("no message")?;
    assert_eq!(rt;
        is_always(
            alloc,
            Reply::Push { address, message },
            UNAVAILABLE.as_bytes()
        ),
        Some(true)
    );
    let address = Text::read(alloc, b"http://h/").ok().ok_or("no text")?;
    let message = pull(alloc).ok_or("no message")?;
    assert_eq!(rt;
        is_always(
            alloc,
            Reply::Request { address, message },
            UNAVAILABLE.as_bytes()
        ),
        Some(true)
    );
    Ok(())
}

// Whether the response to an answer carries it as it is sent.
fn is_carried(alloc: Global, kept: bool, reply: &Reply) -> Option<bool> {
    match reply {
        Reply::Answer(message) => {
            let wire = write_message(alloc, message).ok()?;
            let text = wired(alloc, kept, &wire)?;
            is_written(alloc, kept, reply, text.bytes())
        }
        _ => None,
    }
}

fn wired(alloc: Global, kept: bool, wire: &Wire) -> Option<Octets> {
    let (media, body) = (Some(wire.media.bytes()), wire.body.bytes());
    if kept {
        return write_kept(alloc, 200, media, body).ok();
    }
    write_response(alloc, 200, media, body).ok()
}

#[test]
fn an_answer_is_carried(rt: HostRuntime) -> Result<(), Fail> {
    let alloc = rt.alloc();
    let message = pull(alloc).ok_or("no message")?;
    let reply = Reply::Answer(message);
    let closing = is_carried(alloc, false, &reply);
    let keeping = is_carried(alloc, true, &reply);
    drop(reply);
    assert_eq!(rt; closing, Some(true));
    assert_eq!(rt; keeping, Some(true));
    Ok(())
}

// The response to the reading of the message that a package carries.
fn read_back(alloc: Global, media: &str, body: &str) -> Option<Written> {
    let media = Some(media.as_bytes());
    let asking = request(alloc, Method::Post, b"/", media, body.as_bytes()).ok()?;
    match ask(alloc, DoorKind::Peer, &asking) {
        Ok(what) => response_to(alloc, what),
        Err(refusal) => {
            drop(refusal);
            None
        }
    }
}

fn response_to(alloc: Global, what: What) -> Option<Written> {
    match what {
        What::Came(message) => response_of(alloc, message),
        other => {
            drop(other);
            None
        }
    }
}

fn response_of(alloc: Global, message: Message) -> Option<Written> {
    match message {
        Message::User { header, payloads } => {
            let reply = Reply::Entry { header, payloads };
            let written = response(alloc, false, &reply);
            drop(reply);
            written.ok()
        }
        other => {
            drop(other);
            None
        }
    }
}

#[test]
fn a_message_of_the_inbox_is_carried(rt: HostRuntime) -> Result<(), Fail> {
    let alloc = rt.alloc();
    let start =
        b"HTTP/1.1 200 OK\r\nContent-Type: multipart/related; type=\"application/soap+xml\"; boundary=\"as4-0000000000000000\"; start=\"<root-0000000000000000@as4>\"\r\n";
    let end = b"--as4-0000000000000000--\r\n";
    let written = read_back(alloc, MEDIA, BODY).ok_or("no response")?;
    assert!(rt; written.bytes().starts_with(start));
    assert!(rt; written.bytes().ends_with(end));
    let written = read_back(alloc, BARE_MEDIA, BARE).ok_or("no response")?;
    assert!(rt; written.bytes().starts_with(start));
    Ok(())
}

// The response to a request that is refused.
fn refused(alloc: Global, kept: bool) -> Option<Written> {
    let asking = request(alloc, Method::Post, b"/", None, b"").ok()?;
    match ask(alloc, DoorKind::Peer, &asking) {
        Err(DoorRefusal::Refused(refusal)) => {
            let written = refusal_response(alloc, kept, &refusal, 0, 1);
            drop(refusal);
            written.ok()
        }
        other => {
            drop(other);
            None
        }
    }
}

#[test]
fn a_refusal_is_an_error_signal(rt: HostRuntime) -> Result<(), Fail> {
    let alloc = rt.alloc();
    let start = b"HTTP/1.1 200 OK\r\nContent-Type: application/soap+xml; charset=UTF-8\r\n";
    for kept in [false, true] {
        let written = refused(alloc, kept).ok_or("no response")?;
        assert!(rt; written.bytes().starts_with(start));
        let text = str::from_utf8(written.bytes()).ok().ok_or("no text")?;
        assert!(rt; text.contains("EBMS:0007"));
        assert!(rt; text.contains("s.00000000-0000-0000-0000-000000000001@as4"));
        assert!(rt; text.contains("1970-01-01T00:00:00.000Z"));
        assert_eq!(rt; text.contains("keep-alive"), kept);
    }
    Ok(())
}

#[test]
fn fixed_responses(rt: HostRuntime) -> Result<(), Fail> {
    assert_eq!(rt;
        Fixed::Accepted.bytes(),
        b"HTTP/1.1 202 Accepted\r\nContent-Length: 0\r\nConnection: close\r\n\r\n".as_slice()
    );
    assert_eq!(rt;
        Fixed::BadRequest.bytes(),
        b"HTTP/1.1 400 Bad Request\r\nContent-Length: 0\r\nConnection: close\r\n\r\n".as_slice()
    );
    assert_eq!(rt;
        Fixed::TooLarge.bytes(),
        b"HTTP/1.1 413 Content Too Large\r\nContent-Length: 0\r\nConnection: close\r\n\r\n".as_slice()
    );
    assert_eq!(rt; Fixed::Unavailable.bytes(), UNAVAILABLE.as_bytes());
    Ok(())
}

//! Sessions at the local door.

use crate::desk::Desk;
use crate::samples::{
    ACCEPTED, BAD_REQUEST, COUNTED, FAILURE_OF_1, GET_0, LONG_MEDIA, PACKAGE, RECEIPT, RECEIPT_OF_0,
};
use crate::shown::EndKind;
use sessions::DoorKind;
use std::alloc::{AllocError, Global};
use std::test::Fail;

// A request without a body at the local door, how the session ends, and the end of what it writes.
type Row = (&'static str, EndKind, &'static str);

const EMPTY: [Row; 8] = [
    (
        "GET /inbox/0",
        EndKind::Answered,
        "HTTP/1.1 404 Not Found\r\nContent-Type: text/plain\r\nContent-Length: 9\r\nConnection: close\r\n\r\nno entry\n",
    ),
    (
        "POST /confirm/0",
        EndKind::Answered,
        "HTTP/1.1 404 Not Found\r\nContent-Type: text/plain\r\nContent-Length: 9\r\nConnection: close\r\n\r\nno entry\n",
    ),
    (
        "POST /submit/x/c",
        EndKind::Answered,
        "HTTP/1.1 404 Not Found\r\nContent-Type: text/plain\r\nContent-Length: 8\r\nConnection: close\r\n\r\nno mode\n",
    ),
    (
        "GET /status/none@x",
        EndKind::Answered,
        "HTTP/1.1 404 Not Found\r\nContent-Type: text/plain\r\nContent-Length: 8\r\nConnection: close\r\n\r\nunknown\n",
    ),
    (
        "POST /submit/invoice/c1",
        EndKind::Answered,
        "HTTP/1.1 200 OK\r\nContent-Type: text/plain\r\nContent-Length: 45\r\nConnection: close\r\n\r\n0 0.00000000-0000-0000-0000-000000000001@as4\n",
    ),
    (
        "GET /status/0.00000000-0000-0000-0000-000000000001@as4",
        EndKind::Answered,
        "HTTP/1.1 200 OK\r\nContent-Type: text/plain\r\nContent-Length: 10\r\nConnection: close\r\n\r\npending 0\n",
    ),
    (
        "PUT /x",
        EndKind::Bad,
        "HTTP/1.1 400 Bad Request\r\nContent-Length: 0\r\nConnection: close\r\n\r\n",
    ),
    (
        "GET /inbox/00",
        EndKind::Bad,
        "HTTP/1.1 400 Bad Request\r\nContent-Length: 0\r\nConnection: close\r\n\r\n",
    ),
];

const CONFIRMED: [Row; 4] = [
    (
        "POST /confirm/0",
        EndKind::Answered,
        "HTTP/1.1 200 OK\r\nContent-Type: text/plain\r\nContent-Length: 12\r\nConnection: close\r\n\r\nconfirmed 0\n",
    ),
    (
        "GET /inbox/0",
        EndKind::Answered,
        "HTTP/1.1 410 Gone\r\nContent-Type: text/plain\r\nContent-Length: 5\r\nConnection: close\r\n\r\ngone\n",
    ),
    (
        "POST /confirm/0",
        EndKind::Answered,
        "HTTP/1.1 410 Gone\r\nContent-Type: text/plain\r\nContent-Length: 5\r\nConnection: close\r\n\r\ngone\n",
    ),
    (
        "POST /confirm/1",
        EndKind::Answered,
        "HTTP/1.1 404 Not Found\r\nContent-Type: text/plain\r\nContent-Length: 9\r\nConnection: close\r\n\r\nno entry\n",
    ),
];

// A request without a body.
fn bare_request(alloc: Global, line: &str) -> Result<Vec<u8>, AllocError> {
    let mut bytes = line.as_bytes().to_vec(alloc)?;
    bytes.extend_from_slice(b" HTTP/1.1\r\nHost: localhost\r\nContent-Length: 0\r\n\r\n")?;
    Ok(bytes)
}

fn is_right(alloc: Global, desk: &mut Desk<'_>, row: &Row) -> bool {
    match bare_request(alloc, row.0) {
        Ok(bytes) => desk.answers(DoorKind::Local, bytes.as_slice(), row.1, row.2.as_bytes()),
        Err(_) => false,
    }
}

// The index of the first row that isn't so.
fn first_wrong(alloc: Global, desk: &mut Desk<'_>, rows: &[Row]) -> Option<usize> {
    rows.iter().position(|row| !is_right(alloc, desk, row))
}

#[test]
fn calls_at_an_empty_endpoint(rt: HostRuntime) -> Result<(), Fail> {
    let mut desk = Desk::new(rt.alloc(), &[])?;
    let wrong = first_wrong(rt.alloc(), &mut desk, &EMPTY);
    let share = desk.pass.share();
    drop(desk);
    assert_eq!(rt; (wrong, share), (None, 6));
    Ok(())
}

// Whether the invoice comes, comes again, and is read.
fn comes_and_is_read(desk: &mut Desk<'_>) -> bool {
    desk.answers(DoorKind::Peer, COUNTED, EndKind::Answered, RECEIPT)
        && desk.answers(DoorKind::Peer, COUNTED, EndKind::Answered, RECEIPT)
        && desk.answers(DoorKind::Local, GET_0, EndKind::Answered, PACKAGE)
}

// Whether it is, the first row after it that isn't so, and the numbers of messages and of calls.
fn after_a_message(alloc: Global) -> Result<(bool, Option<usize>, u64, u64), AllocError> {
    let mut desk = Desk::new(alloc, &[])?;
    let is_read = comes_and_is_read(&mut desk);
    let wrong = first_wrong(alloc, &mut desk, &CONFIRMED);
    let inbox = desk.office.totals().inbox;
    let share = desk.pass.share();
    drop(desk);
    Ok((is_read, wrong, inbox, share))
}

#[test]
fn a_message_is_read_and_confirmed(rt: HostRuntime) {
    assert_eq!(rt; after_a_message(rt.alloc()), Ok((true, None, 1, 7)));
}

#[test]
fn a_message_at_the_local_door(rt: HostRuntime) -> Result<(), Fail> {
    let mut desk = Desk::new(rt.alloc(), &[])?;
    let is_bad = desk.answers(DoorKind::Local, COUNTED, EndKind::Bad, BAD_REQUEST);
    let share = desk.pass.share();
    drop(desk);
    assert_eq!(rt; (is_bad, share), (true, 0));
    Ok(())
}

// What became of three submissions.
const SUBMITTED: [Row; 3] = [
    (
        "POST /submit/invoice/c1",
        EndKind::Answered,
        "HTTP/1.1 200 OK\r\nContent-Type: text/plain\r\nContent-Length: 45\r\nConnection: close\r\n\r\n0 0.00000000-0000-0000-0000-000000000001@as4\n",
    ),
    (
        "POST /submit/invoice/",
        EndKind::Answered,
        "HTTP/1.1 200 OK\r\nContent-Type: text/plain\r\nContent-Length: 45\r\nConnection: close\r\n\r\n1 1.00000000-0000-0000-0000-000000000001@as4\n",
    ),
    (
        "POST /submit/once/c3",
        EndKind::Answered,
        "HTTP/1.1 200 OK\r\nContent-Type: text/plain\r\nContent-Length: 45\r\nConnection: close\r\n\r\n2 2.00000000-0000-0000-0000-000000000001@as4\n",
    ),
];

const STATES: [Row; 3] = [
    (
        "GET /status/0.00000000-0000-0000-0000-000000000001@as4",
        EndKind::Answered,
        "HTTP/1.1 200 OK\r\nContent-Type: text/plain\r\nContent-Length: 10\r\nConnection: close\r\n\r\nreceipted\n",
    ),
    (
        "GET /status/1.00000000-0000-0000-0000-000000000001@as4",
        EndKind::Answered,
        "HTTP/1.1 200 OK\r\nContent-Type: text/plain\r\nContent-Length: 18\r\nConnection: close\r\n\r\nrefused EBMS:0010\n",
    ),
    (
        "GET /status/2.00000000-0000-0000-0000-000000000001@as4",
        EndKind::Answered,
        "HTTP/1.1 200 OK\r\nContent-Type: text/plain\r\nContent-Length: 17\r\nConnection: close\r\n\r\nfailed EBMS:0301\n",
    ),
];

// A receipt settles the first submission, an error signal the second, and the third expires after its one try.
#[test]
fn submissions_are_settled(rt: HostRuntime) -> Result<(), Fail> {
    let mut desk = Desk::new(rt.alloc(), &[])?;
    let submitted = first_wrong(rt.alloc(), &mut desk, &SUBMITTED);
    let came = desk.answers(DoorKind::Peer, RECEIPT_OF_0, EndKind::Answered, ACCEPTED)
        && desk.answers(DoorKind::Peer, FAILURE_OF_1, EndKind::Answered, ACCEPTED);
    let is_pushed = desk.takes();
    let is_ticked = desk.ticks(1000);
    let states = first_wrong(rt.alloc(), &mut desk, &STATES);
    drop(desk);
    assert_eq!(rt;
        (submitted, came, is_pushed, is_ticked, states),
        (None, true, true, true, None)
    );
    Ok(())
}

#[test]
fn a_media_text_of_1025_bytes(rt: HostRuntime) -> Result<(), Fail> {
    let mut desk = Desk::new(rt.alloc(), &[])?;
    let is_large = desk.answers(
        DoorKind::Local,
        LONG_MEDIA,
        EndKind::Answered,
        b"HTTP/1.1 409 Conflict\r\nContent-Type: text/plain\r\nContent-Length: 10\r\nConnection: close\r\n\r\ntoo large\n",
    );
    drop(desk);
    assert!(rt; is_large);
    Ok(())
}

// Whether this is the response of an endpoint without submissions to a request whose connection is kept, or closes.
fn replies(desk: &mut Desk<'_>, kept: bool, written: &[u8]) -> bool {
    match desk.replies("/status/none@x", kept) {
        Ok(served) => {
            let is_so = served.is(EndKind::Answered, written);
            drop(served);
            is_so
        }
        Err(_) => false,
    }
}

const KEPT: &[u8] =
    b"HTTP/1.1 404 Not Found\r\nContent-Type: text/plain\r\nContent-Length: 8\r\nConnection: keep-alive\r\n\r\nunknown\n";

const CLOSED: &[u8] =
    b"HTTP/1.1 404 Not Found\r\nContent-Type: text/plain\r\nContent-Length: 8\r\nConnection: close\r\n\r\nunknown\n";

#[test]
fn a_kept_response_says_so(rt: HostRuntime) -> Result<(), Fail> {
    let mut desk = Desk::new(rt.alloc(), &[])?;
    let kept = replies(&mut desk, true, KEPT);
    let closed = replies(&mut desk, false, CLOSED);
    drop(desk);
    assert_eq!(rt; (kept, closed), (true, true));
    Ok(())
}

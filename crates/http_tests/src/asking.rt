//! Sources whose next call fails once a whole message has come: that call is never made.
use as4_flow::MemorySource;
use as4_http::{HttpRefusal, Intake};
use std::alloc::{AllocError, Global};
use std::test::Fail;

/// Requests without a body, by length and in chunks.
const REQUESTS: [&[u8]; 5] = [
    b"GET /a HTTP/1.1\r\n\r\n",
    b"POST /a HTTP/1.1\r\nContent-Length: 0\r\n\r\n",
    b"POST /a HTTP/1.1\r\nContent-Length: 2\r\n\r\nhi",
    b"POST /a HTTP/1.1\r\nTransfer-Encoding: chunked\r\n\r\n2\r\nhi\r\n0\r\n\r\n",
    b"POST /a HTTP/1.1\r\nTransfer-Encoding: chunked\r\n\r\n0\r\nA: b\r\n\r\n",
];

/// Responses that say where they end.
const RESPONSES: [&[u8]; 3] = [
    b"HTTP/1.1 204 No Content\r\n\r\n",
    b"HTTP/1.1 200 OK\r\nContent-Length: 2\r\n\r\nhi",
    b"HTTP/1.1 200 OK\r\nTransfer-Encoding: chunked\r\n\r\n2\r\nhi\r\n0\r\n\r\n",
];

// A source of the bytes, which come in one call or one by one. The call after these fails.
fn failing_after(
    alloc: Global,
    bytes: &[u8],
    one_by_one: bool,
) -> Result<MemorySource, AllocError> {
    let (calls, size) = if one_by_one {
        (bytes.len(), 1)
    } else {
        (1, bytes.len())
    };
    let mut pieces = Vec::new(alloc);
    pieces.resize(calls, size)?;
    Ok(MemorySource::of(
        Vec::from_slice(alloc, bytes)?,
        pieces,
        Vec::from_slice(alloc, &[calls as u64 + 1])?,
    ))
}

/// Whether the request is read, in one piece and in single bytes.
fn is_read(alloc: Global, bytes: &[u8]) -> Result<bool, AllocError> {
    for one_by_one in [false, true] {
        let mut source = failing_after(alloc, bytes, one_by_one)?;
        if Intake::new(alloc).read_request(&mut source).is_err() {
            return Ok(false);
        }
    }
    Ok(true)
}

/// The same of a response.
fn is_answered(alloc: Global, bytes: &[u8]) -> Result<bool, AllocError> {
    for one_by_one in [false, true] {
        let mut source = failing_after(alloc, bytes, one_by_one)?;
        if Intake::new(alloc).read_response(&mut source).is_err() {
            return Ok(false);
        }
    }
    Ok(true)
}

/// The first request that isn't read, and the first response.
fn first_unread(alloc: Global) -> Result<(Option<usize>, Option<usize>), AllocError> {
    let mut request = None;
    for (row, bytes) in REQUESTS.iter().enumerate() {
        if request.is_none() && !is_read(alloc, bytes)? {
            request = Some(row);
        }
    }
    let mut response = None;
    for (row, bytes) in RESPONSES.iter().enumerate() {
        if response.is_none() && !is_answered(alloc, bytes)? {
            response = Some(row);
        }
    }
    Ok((request, response))
}

#[test]
fn a_whole_message_is_read_before_the_next_call_fails(rt: HostRuntime) -> Result<(), Fail> {
    assert_eq!(rt; first_unread(rt.alloc())?, (None, None));
    Ok(())
}

// What is read of a response whose body runs to the end of a source, where the call after its bytes fails.
fn to_the_end(alloc: Global) -> Result<bool, HttpRefusal> {
    let bytes = b"HTTP/1.1 200 OK\r\n\r\nhi";
    let mut source = failing_after(alloc, bytes, false)?;
    Intake::new(alloc).read_response(&mut source)?;
    Ok(true)
}

#[test]
fn a_body_to_the_end_is_read_until_the_next_call_fails(rt: HostRuntime) -> Result<(), Fail> {
    assert_eq!(rt; to_the_end(rt.alloc()), Err(HttpRefusal::ReadFault));
    Ok(())
}

/// Whether a further message begins: at first, where the call after it fails, and where its first message was read.
fn begins(alloc: Global) -> Result<(bool, bool), HttpRefusal> {
    let bytes = b"GET /a HTTP/1.1\r\n\r\nGET /b HTTP/1.1\r\n\r\n";
    let mut source = failing_after(alloc, bytes, false)?;
    let (first, intake) = Intake::new(alloc).begin(&mut source)?;
    let (_, intake) = intake.read_request(&mut source)?;
    let (second, _) = intake.begin(&mut source)?;
    Ok((first, second))
}

#[test]
fn begin_asks_once_and_only_where_nothing_is_held(rt: HostRuntime) -> Result<(), Fail> {
    assert_eq!(rt; begins(rt.alloc()), Ok((true, true)));
    Ok(())
}

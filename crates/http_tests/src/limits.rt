//! Streams at the limits and past them, and streams that come in single bytes.
use crate::reading::requests_of;
use as4_flow::MemorySource;
use as4_http::{HttpRefusal, Intake, MAX_BODY, MAX_CHUNK_LINE, MAX_FIELDS, MAX_HEAD, MAX_TRAILERS};
use std::alloc::{AllocError, Global};
use std::test::Fail;

// A front, so many times a middle, and an end.
fn made(
    alloc: Global,
    front: &[u8],
    middle: &[u8],
    times: usize,
    end: &[u8],
) -> Result<Vec<u8>, AllocError> {
    let mut bytes = Vec::from_slice(alloc, front)?;
    for _ in 0..times {
        bytes.extend_from_slice(middle)?;
    }
    bytes.extend_from_slice(end)?;
    Ok(bytes)
}

// What is read of the bytes, of which the last is the refusal.
fn last_of(alloc: Global, bytes: Vec<u8>, one_by_one: bool) -> Result<Option<u8>, AllocError> {
    let mut pieces = Vec::new(alloc);
    if one_by_one {
        pieces.resize(bytes.len(), 1)?;
    }
    let mut source = MemorySource::of(bytes, pieces, Vec::new(alloc));
    let text = requests_of(alloc, &mut source)?;
    Ok(match text.as_slice() {
        [] => None,
        [first, ..] => Some(*first),
    })
}

const START: &[u8] = b"GET /a HTTP/1.1\r\n";

const CHUNKS: &[u8] = b"GET /a HTTP/1.1\r\nTransfer-Encoding: chunked\r\n\r\n";

const LAST: &[u8] = b"GET /a HTTP/1.1\r\nTransfer-Encoding: chunked\r\n\r\n0\r\n";

/// A front, a byte or two that come so many times, an end, and the first byte of what is read: `G` where it is the
/// request, and else the refusal.
const ROWS: [(&[u8], &[u8], usize, &[u8], u8); 28] = [
    (b"", b"\n", MAX_HEAD - 18, b"GET / HTTP/1.1\r\n\r\n", b'G'),
    (b"", b"\n", MAX_HEAD - 17, b"GET / HTTP/1.1\r\n\r\n", b'T'),
    (b"GET /", b"a", MAX_HEAD - 5, b"", b'C'),
    (b"GET /", b"a", MAX_HEAD - 4, b"", b'T'),
    (START, b"a:\n", MAX_FIELDS, b"\n", b'G'),
    (START, b"a:\n", MAX_FIELDS, b"a", b'C'),
    (START, b"a:\n", MAX_FIELDS + 1, b"", b'T'),
    (START, b"a:\n", MAX_FIELDS + 1, b"\n", b'T'),
    (CHUNKS, b"0", 1, b"\r\n\r\n", b'G'),
    (
        b"GET /a HTTP/1.1\r\nTransfer-Encoding: chunked\r\n\r\n0;",
        b"a",
        MAX_CHUNK_LINE - 4,
        b"\r\n\r\n",
        b'G',
    ),
    (
        b"GET /a HTTP/1.1\r\nTransfer-Encoding: chunked\r\n\r\n0;",
        b"a",
        MAX_CHUNK_LINE - 3,
        b"\r\n\r\n",
        b'T',
    ),
    (
        b"GET /a HTTP/1.1\r\nTransfer-Encoding: chunked\r\n\r\n0;",
        b"a",
        MAX_CHUNK_LINE - 4,
        b"",
        b'C',
    ),
    (
        b"GET /a HTTP/1.1\r\nTransfer-Encoding: chunked\r\n\r\n0;",
        b"a",
        MAX_CHUNK_LINE - 3,
        b"",
        b'T',
    ),
    (
        b"GET /a HTTP/1.1\r\nTransfer-Encoding: chunked\r\n\r\n0;",
        b"a",
        MAX_CHUNK_LINE - 4,
        b"\r",
        b'C',
    ),
    (LAST, b"a:\n", 21_845, b"\n", b'G'),
    (LAST, b"a:\n", 21_845, b"\r\n", b'T'),
    (LAST, b"a:\n", 21_844, b"a:\n", b'C'),
    (LAST, b"a:\n", 21_844, b"a:b\n", b'T'),
    (LAST, b"a:\n", 21_844, b"a:b\n\n", b'T'),
    (LAST, b"a:\n", 21_844, b"a", b'C'),
    (LAST, b"a:\n", 21_844, b"aa", b'T'),
    (LAST, b"a:\n", 21_844, b"a:b", b'T'),
    (LAST, b"a:\n", 21_844, b"a b:\n", b'B'),
    (LAST, b"a:\n", 21_845, b"\x01:\n", b'B'),
    (LAST, b"a", MAX_TRAILERS, b":\n\n", b'T'),
    (LAST, b" ", MAX_TRAILERS, b":\n\n", b'B'),
    (CHUNKS, b"0", MAX_CHUNK_LINE, b"\r\n\r\n", b'B'),
    (CHUNKS, b";", MAX_CHUNK_LINE, b"\r\n\r\n", b'B'),
];

/// The first row of which something else is read.
fn first_other(
    alloc: Global,
    rows: &[(&[u8], &[u8], usize, &[u8], u8)],
) -> Result<Option<usize>, AllocError> {
    for (row, (front, middle, times, end, wanted)) in rows.iter().enumerate() {
        let bytes = made(alloc, front, middle, *times, end)?;
        if last_of(alloc, bytes, false)? != Some(*wanted) {
            return Ok(Some(row));
        }
    }
    Ok(None)
}

#[test]
fn what_is_at_its_limit_is_read_and_what_is_past_it_is_too_long(
    rt: HostRuntime,
) -> Result<(), Fail> {
    assert_eq!(rt; first_other(rt.alloc(), &ROWS)?, None);
    Ok(())
}

// The longest unended head, and the longest trailers.
fn in_single_bytes(alloc: Global) -> Result<(Option<u8>, Option<u8>), AllocError> {
    let head = made(alloc, b"GET /", b"a", MAX_HEAD - 5, b"")?;
    let trailers = made(alloc, LAST, b"a:\n", 21_845, b"\n")?;
    Ok((last_of(alloc, head, true)?, last_of(alloc, trailers, true)?))
}

#[test]
fn the_longest_parts_come_in_single_bytes(rt: HostRuntime) -> Result<(), Fail> {
    assert_eq!(rt; in_single_bytes(rt.alloc())?, (Some(b'C'), Some(b'G')));
    Ok(())
}

// How many bytes the body has, where the request is read.
fn body_len(alloc: Global, bytes: Vec<u8>, pieces: Vec<usize>) -> Result<usize, HttpRefusal> {
    let mut source = MemorySource::of(bytes, pieces, Vec::new(alloc));
    let (request, _) = Intake::new(alloc).read_request(&mut source)?;
    Ok(request.body.bytes().len())
}

#[test]
fn the_longest_body_is_read(rt: HostRuntime) -> Result<(), Fail> {
    let alloc = rt.alloc();
    let mut bytes = Vec::from_slice(
        alloc,
        b"GET /a HTTP/1.1\r\nContent-Length: 67108864\r\n\r\n",
    )?;
    bytes.resize(bytes.len().saturating_add(MAX_BODY), b'a')?;
    assert_eq!(rt; body_len(alloc, bytes, Vec::new(alloc)), Ok(MAX_BODY));
    Ok(())
}

#[test]
fn a_body_in_single_bytes_is_read(rt: HostRuntime) -> Result<(), Fail> {
    let alloc = rt.alloc();
    let mut bytes = Vec::from_slice(
        alloc,
        b"GET /a HTTP/1.1\r\nTransfer-Encoding: chunked\r\n\r\n100000\r\n",
    )?;
    bytes.resize(bytes.len().saturating_add(1 << 20), b'a')?;
    bytes.extend_from_slice(b"\r\n0\r\n\r\n")?;
    let mut pieces = Vec::new(alloc);
    pieces.resize(bytes.len(), 1)?;
    assert_eq!(rt; body_len(alloc, bytes, pieces), Ok(1 << 20));
    Ok(())
}

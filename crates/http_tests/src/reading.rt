//! What is read of a stream, whole and cut after each byte: a table by hand for requests, and one for responses.
use as4_flow::MemorySource;
use as4_http::{HttpRefusal, Intake, Method, Request, Response};
use as4_values::Octets;
use std::alloc::{AllocError, Global};
use std::test::Fail;

/// The most messages that are read of a stream.
const MOST: usize = 4;

/// Streams, and what is read of each: the requests, each as its method, its target, its media text, its body and
/// whether its connection goes on, and then the refusal. Heads and lengths.
const STARTS: [(&[u8], &[u8]); 24] = [
    (b"", b"C"),
    (b"POST ", b"C"),
    (
        b"POST /a HTTP/1.1\r\nContent-Length: 2\r\n\r\nhiGET",
        b"P/a|-|hi|+;C",
    ),
    (
        b"POST /a HTTP/1.1\r\nContent-Length: 2\r\n\r\nhiGET /n HTTP/1.1\r\n\r\n",
        b"P/a|-|hi|+;G/n|-||+;C",
    ),
    (
        b"POST /a HTTP/1.1\r\nTransfer-Encoding: chunked\r\n\r\n2\r\nhi\r\n0\r\n\r\nGET /n HTTP/1.1\r\n\r\n",
        b"P/a|-|hi|+;G/n|-||+;C",
    ),
    (
        b"POST /a HTTP/1.1\r\nContent-Length: 2\r\nTransfer-Encoding: chunked\r\n\r\nhi",
        b"B",
    ),
    (b"PUT /a HTTP/1.1\r\n\r\n", b"B"),
    (b"PUT /a HTTP/1.1\r\n", b"C"),
    (
        b"POST /a HTTP/1.1\r\nContent-Length: 67108865\r\n\r\n",
        b"T",
    ),
    (
        b"POST /a HTTP/1.1\r\nContent-Length: 67108864\r\n\r\n",
        b"C",
    ),
    (b"POST /a HTTP/1.1\r\nContent-Length: 99999999", b"C"),
    (
        b"POST /a HTTP/1.1\r\nContent-Length: 99999999\r\n\r\n",
        b"T",
    ),
    (
        b"POST /a HTTP/1.1\r\nContent-Length: 9999999999999999999\r\n\r\n",
        b"T",
    ),
    (
        b"POST /a HTTP/1.1\r\nContent-Length: 10000000000000000000\r\n\r\n",
        b"B",
    ),
    (
        b"POST /a HTTP/1.1\r\nContent-Length: 0000000000000000002\r\n\r\nhi",
        b"P/a|-|hi|+;C",
    ),
    (
        b"POST /a HTTP/1.1\r\nContent-Length: 00000000000000000002\r\n\r\nhi",
        b"B",
    ),
    (b"POST /a HTTP/1.1\r\nContent-Length: \r\n\r\n", b"B"),
    (b"POST /a HTTP/1.1\r\nContent-Length: +2\r\n\r\nhi", b"B"),
    (
        b"POST /a HTTP/1.1\r\nContent-Length: 2 \r\n\r\nhi",
        b"P/a|-|hi|+;C",
    ),
    (b"POST /a HTTP/1.1\r\nContent-Length: 2a\r\n\r\nhi", b"B"),
    (b"POST /a HTTP/1.1\r\nContent-Length: 2, 2\r\n\r\nhi", b"B"),
    (
        b"POST /a HTTP/1.1\r\nContent-Length: 2\r\nContent-Length: 2\r\n\r\nhi",
        b"B",
    ),
    (
        b"POST /a HTTP/1.1\r\nContent-Length: 2\r\ncontent-length: 3\r\n\r\nhi",
        b"B",
    ),
    (
        b"POST /a HTTP/1.1\r\nCONTENT-LENGTH:2\r\n\r\nhi",
        b"P/a|-|hi|+;C",
    ),
];

/// The same: targets, versions, media texts and codings.
const FIELDS: [(&[u8], &[u8]); 24] = [
    (
        b"POST /a HTTP/1.1\r\nContent-Lengt: 2\r\n\r\nhi",
        b"P/a|-||+;C",
    ),
    (
        b"POST /a HTTP/1.1\r\nContent-Length: 0\r\n\r\nGET /n HTTP/1.1\r\n\r\n",
        b"P/a|-||+;G/n|-||+;C",
    ),
    (b"POST /a HTTP/1.1\r\nContent-Length: 3\r\n\r\nhi", b"C"),
    (
        b"POST /a HTTP/1.1\r\n\r\nGET /n HTTP/1.1\r\n\r\n",
        b"P/a|-||+;G/n|-||+;C",
    ),
    (b"GET /a HTTP/1.1\n\n", b"G/a|-||+;C"),
    (b"\r\n\nGET /a HTTP/1.1\r\n\n", b"G/a|-||+;C"),
    (b"GET /a HTTP/1.0\r\n\r\n", b"G/a|-||.;C"),
    (b"GET /a HTTP/1.2\r\n\r\n", b"B"),
    (b"GET /a HTTP/2.0\r\n\r\n", b"B"),
    (b"GET  /a HTTP/1.1\r\n\r\n", b"B"),
    (b"get /a HTTP/1.1\r\n\r\n", b"B"),
    (b"GET /\xff", b"C"),
    (b"GET /\x7f", b"B"),
    (b"GET /\xff HTTP/1.1\r\n\r\n", b"B"),
    (b"GET /\xc3\xa9 HTTP/1.1\r\n\r\n", b"G/\xc3\xa9|-||+;C"),
    (b"POST /a HT", b"C"),
    (b"POST /a HTX", b"B"),
    (
        b"POST /a HTTP/1.1\r\nContent-Type: text/xml\r\n\r\n",
        b"P/a|text/xml||+;C",
    ),
    (
        b"POST /a HTTP/1.1\r\ncontent-type:\t text/xml; a=b \t\r\n\r\n",
        b"P/a|text/xml; a=b||+;C",
    ),
    (b"POST /a HTTP/1.1\r\nContent-Type:\r\n\r\n", b"P/a|||+;C"),
    (
        b"POST /a HTTP/1.1\r\nContent-Type: a\r\nCONTENT-TYPE: a\r\n\r\n",
        b"B",
    ),
    (
        b"POST /a HTTP/1.1\r\nTransfer-Encoding: CHUNKED\r\n\r\n0\r\n\r\n",
        b"P/a|-||+;C",
    ),
    (
        b"POST /a HTTP/1.1\r\nTransfer-Encoding: gzip\r\n\r\n0\r\n\r\n",
        b"B",
    ),
    (
        b"POST /a HTTP/1.1\r\nTransfer-Encoding: gzip, chunked\r\n\r\n0\r\n\r\n",
        b"B",
    ),
];

/// The same: chunks and trailers.
const CHUNKS: [(&[u8], &[u8]); 24] = [
    (
        b"POST /a HTTP/1.1\r\nTransfer-Encoding: chunked;a=b\r\n\r\n0\r\n\r\n",
        b"B",
    ),
    (b"POST /a HTTP/1.1\r\nTransfer-Encoding:\r\n\r\n", b"B"),
    (
        b"POST /a HTTP/1.1\r\nTransfer-Encoding: chunked\r\nTransfer-Encoding: chunked\r\n\r\n0\r\n\r\n",
        b"B",
    ),
    (
        b"POST /a HTTP/1.1\r\nTransfer-Encoding: chunked\r\n\r\n2;a=b\r\nhi\r\n0;last\r\n\r\n",
        b"P/a|-|hi|+;C",
    ),
    (
        b"POST /a HTTP/1.1\r\nTransfer-Encoding: chunked\r\n\r\n2 \t;x\r\nhi\r\n0\r\n\r\n",
        b"P/a|-|hi|+;C",
    ),
    (
        b"POST /a HTTP/1.1\r\nTransfer-Encoding: chunked\r\n\r\n0000000000000002\r\nhi\r\n0\r\n\r\n",
        b"P/a|-|hi|+;C",
    ),
    (
        b"POST /a HTTP/1.1\r\nTransfer-Encoding: chunked\r\n\r\n00000000000000002\r\nhi\r\n0\r\n\r\n",
        b"B",
    ),
    (
        b"POST /a HTTP/1.1\r\nTransfer-Encoding: chunked\r\n\r\n2\nhi\r\n0\r\n\r\n",
        b"B",
    ),
    (
        b"POST /a HTTP/1.1\r\nTransfer-Encoding: chunked\r\n\r\n2\r\nhi\n0\r\n\r\n",
        b"B",
    ),
    (
        b"POST /a HTTP/1.1\r\nTransfer-Encoding: chunked\r\n\r\n2\r\nhix\r\n0\r\n\r\n",
        b"B",
    ),
    (
        b"POST /a HTTP/1.1\r\nTransfer-Encoding: chunked\r\n\r\n2\r\nhi\rx0\r\n\r\n",
        b"B",
    ),
    (
        b"POST /a HTTP/1.1\r\nTransfer-Encoding: chunked\r\n\r\ng\r\n",
        b"B",
    ),
    (
        b"POST /a HTTP/1.1\r\nTransfer-Encoding: chunked\r\n\r\n\r\n",
        b"B",
    ),
    (
        b"POST /a HTTP/1.1\r\nTransfer-Encoding: chunked\r\n\r\n;a\r\n",
        b"B",
    ),
    (
        b"POST /a HTTP/1.1\r\nTransfer-Encoding: chunked\r\n\r\n2\r\nhi\r\n",
        b"C",
    ),
    (
        b"POST /a HTTP/1.1\r\nTransfer-Encoding: chunked\r\n\r\n2\r\nhi\r",
        b"C",
    ),
    (
        b"POST /a HTTP/1.1\r\nTransfer-Encoding: chunked\r\n\r\n2\r\nhi",
        b"C",
    ),
    (
        b"POST /a HTTP/1.1\r\nTransfer-Encoding: chunked\r\n\r\n2\r\nh",
        b"C",
    ),
    (
        b"POST /a HTTP/1.1\r\nTransfer-Encoding: chunked\r\n\r\n2\r",
        b"C",
    ),
    (
        b"POST /a HTTP/1.1\r\nTransfer-Encoding: chunked\r\n\r\n2",
        b"C",
    ),
    (
        b"POST /a HTTP/1.1\r\nTransfer-Encoding: chunked\r\n\r\n",
        b"C",
    ),
    (
        b"POST /a HTTP/1.1\r\nTransfer-Encoding: chunked\r\n\r\n1\r\na\r\nA\r\n0123456789\r\n0\r\n\r\n",
        b"P/a|-|a0123456789|+;C",
    ),
    (
        b"POST /a HTTP/1.1\r\nTransfer-Encoding: chunked\r\n\r\na\r\n0123456789\r\n000\r\n\r\nGET /n HTTP/1.1\r\n\r\n",
        b"P/a|-|0123456789|+;G/n|-||+;C",
    ),
    (
        b"POST /a HTTP/1.1\r\nTransfer-Encoding: chunked\r\n\r\n0\r\nA: b\r\nC:\r\n\r\nGET /n HTTP/1.1\r\n\r\n",
        b"P/a|-||+;G/n|-||+;C",
    ),
];

/// The same: streams that end early, and connections.
const ENDS: [(&[u8], &[u8]); 22] = [
    (
        b"POST /a HTTP/1.1\r\nTransfer-Encoding: chunked\r\n\r\n0\r\nA: b\n\nGET /n HTTP/1.1\r\n\r\n",
        b"P/a|-||+;G/n|-||+;C",
    ),
    (
        b"POST /a HTTP/1.1\r\nTransfer-Encoding: chunked\r\n\r\n0\r\n\nGET /n HTTP/1.1\r\n\r\n",
        b"P/a|-||+;G/n|-||+;C",
    ),
    (
        b"POST /a HTTP/1.1\r\nTransfer-Encoding: chunked\r\n\r\n0\r\nA b\r\n\r\n",
        b"B",
    ),
    (
        b"POST /a HTTP/1.1\r\nTransfer-Encoding: chunked\r\n\r\n0\r\n A: b\r\n\r\n",
        b"B",
    ),
    (
        b"POST /a HTTP/1.1\r\nTransfer-Encoding: chunked\r\n\r\n0\r\nA: \x01\r\n\r\n",
        b"B",
    ),
    (
        b"POST /a HTTP/1.1\r\nTransfer-Encoding: chunked\r\n\r\n0\r\nContent-Length: x\r\n\r\nGET /n HTTP/1.1\r\n\r\n",
        b"P/a|-||+;G/n|-||+;C",
    ),
    (
        b"POST /a HTTP/1.1\r\nTransfer-Encoding: chunked\r\n\r\n0\r\n",
        b"C",
    ),
    (
        b"POST /a HTTP/1.1\r\nTransfer-Encoding: chunked\r\n\r\n0\r\nA",
        b"C",
    ),
    (
        b"POST /a HTTP/1.1\r\nTransfer-Encoding: chunked\r\n\r\n0\r\nA: b\r",
        b"C",
    ),
    (
        b"POST /a HTTP/1.1\r\nTransfer-Encoding: chunked\r\n\r\n0\r\n\r",
        b"C",
    ),
    (
        b"POST /a HTTP/1.1\r\nTransfer-Encoding: chunked\r\n\r\n4000000",
        b"C",
    ),
    (
        b"POST /a HTTP/1.1\r\nTransfer-Encoding: chunked\r\n\r\n4000001",
        b"T",
    ),
    (
        b"POST /a HTTP/1.1\r\nTransfer-Encoding: chunked\r\n\r\n4000001\r\n",
        b"T",
    ),
    (
        b"POST /a HTTP/1.1\r\nTransfer-Encoding: chunked\r\n\r\n1\r\na\r\n4000000",
        b"T",
    ),
    (
        b"POST /a HTTP/1.1\r\nTransfer-Encoding: chunked\r\n\r\n1\r\na\r\n3ffffff",
        b"C",
    ),
    (
        b"POST /a HTTP/1.1\r\nConnection: close\r\n\r\n",
        b"P/a|-||.;C",
    ),
    (
        b"POST /a HTTP/1.1\r\nconnection: Keep-Alive ,\tCLOSE\r\n\r\n",
        b"P/a|-||.;C",
    ),
    (
        b"POST /a HTTP/1.1\r\nConnection: closed\r\n\r\n",
        b"P/a|-||+;C",
    ),
    (
        b"POST /a HTTP/1.1\r\nConnection: x\r\nConnection: close\r\n\r\n",
        b"P/a|-||.;C",
    ),
    (
        b"POST /a HTTP/1.1\r\nConnection: keep-alive\r\n\r\n",
        b"P/a|-||+;C",
    ),
    (b"POST /a HTTP/1.1\r\nBad Field: x\r\n\r\n", b"B"),
    (b"POST /a HTTP/1.1\r\nA: b\r\n c\r\n\r\n", b"B"),
];

/// Streams, and what is read of each: the responses, each as its status, its media text and its body, and then the
/// refusal.
const RESPONSES: [(&[u8], &[u8]); 25] = [
    (b"", b"C"),
    (b"HTTP/1.1 20", b"C"),
    (
        b"HTTP/1.1 200 OK\r\nContent-Length: 2\r\n\r\nhiHTTP/1.1 200 OK\r\nContent-Length: 0\r\n\r\n",
        b"200|-|hi;200|-|;C",
    ),
    (b"HTTP/1.1 200 OK\r\n\r\nhi", b"200|-|hi;C"),
    (b"HTTP/1.1 200 OK\r\n\r\n", b"200|-|;C"),
    (
        b"HTTP/1.1 200 OK\r\nTransfer-Encoding: chunked\r\n\r\n2\r\nhi\r\n0\r\n\r\n",
        b"200|-|hi;C",
    ),
    (
        b"HTTP/1.1 200 OK\r\nTransfer-Encoding: chunked\r\n\r\n2\r\nhi\r\n0\r\n",
        b"C",
    ),
    (b"HTTP/1.1 200 OK\r\nContent-Length: 3\r\n\r\nhi", b"C"),
    (
        b"HTTP/1.1 200 OK\r\nContent-Length: 2\r\nTransfer-Encoding: chunked\r\n\r\nhi",
        b"B",
    ),
    (
        b"HTTP/1.1 204 No Content\r\n\r\nHTTP/1.1 200 OK\r\nContent-Length: 1\r\n\r\na",
        b"204|-|;200|-|a;C",
    ),
    (
        b"HTTP/1.1 204 No Content\r\nContent-Length: 5\r\n\r\nHTTP/1.1 200 OK\r\nContent-Length: 1\r\n\r\na",
        b"204|-|;200|-|a;C",
    ),
    (
        b"HTTP/1.1 304 Not Modified\r\nContent-Length: 99999999\r\n\r\nHTTP/1.1 200 OK\r\nContent-Length: 1\r\n\r\na",
        b"304|-|;200|-|a;C",
    ),
    (
        b"HTTP/1.1 304 Not Modified\r\nTransfer-Encoding: chunked\r\n\r\nHTTP/1.1 200 OK\r\nContent-Length: 1\r\n\r\na",
        b"304|-|;200|-|a;C",
    ),
    (
        b"HTTP/1.1 304 Not Modified\r\nContent-Length: x\r\n\r\n",
        b"B",
    ),
    (
        b"HTTP/1.1 204 No Content\r\nContent-Length: 1\r\nContent-Length: 1\r\n\r\n",
        b"B",
    ),
    (b"HTTP/1.1 100 Continue\r\n\r\n", b"B"),
    (b"HTTP/1.1 199 x\r\n\r\n", b"B"),
    (b"HTTP/1.1 101 x\r\n", b"C"),
    (b"HTTP/1.1 200\r\nContent-Length: 0\r\n\r\n", b"200|-|;C"),
    (b"HTTP/1.1 999 x\r\nContent-Length: 0\r\n\r\n", b"999|-|;C"),
    (
        b"HTTP/1.0 404 Not Found\nContent-Length: 0\n\n",
        b"404|-|;C",
    ),
    (
        b"HTTP/1.1 200 OK\r\nContent-Type: a/b\r\n\r\nx",
        b"200|a/b|x;C",
    ),
    (
        b"HTTP/1.1 200 OK\r\nContent-Type: a\r\nContent-Type: a\r\n\r\nx",
        b"B",
    ),
    (b"HTTP/1.1 20 OK\r\n\r\n", b"B"),
    (b"HTTP/1.1 2000 OK\r\n\r\n", b"B"),
];

fn refusal_text(refusal: HttpRefusal) -> &'static [u8] {
    match refusal {
        HttpRefusal::Cut => b"C",
        HttpRefusal::Bad => b"B",
        HttpRefusal::TooLong => b"T",
        HttpRefusal::ReadFault => b"F",
        HttpRefusal::NoMemory => b"M",
    }
}

fn add_media_and_body(
    out: &mut Vec<u8>,
    media: &Option<Octets>,
    body: &Octets,
) -> Result<(), AllocError> {
    out.extend_from_slice(b"|")?;
    match media {
        Some(media) => out.extend_from_slice(media.bytes())?,
        None => out.extend_from_slice(b"-")?,
    }
    out.extend_from_slice(b"|")?;
    out.extend_from_slice(body.bytes())
}

fn add_request(out: &mut Vec<u8>, request: &Request, kept: bool) -> Result<(), AllocError> {
    out.extend_from_slice(match request.method {
        Method::Get => b"G",
        Method::Post => b"P",
    })?;
    out.extend_from_slice(request.target.bytes())?;
    add_media_and_body(out, &request.media, &request.body)?;
    out.extend_from_slice(if kept { b"|+;" } else { b"|.;" })
}

fn add_response(out: &mut Vec<u8>, response: &Response) -> Result<(), AllocError> {
    let hundreds = [
        b'0' + (response.status / 100 % 10) as u8,
        b'0' + (response.status / 10 % 10) as u8,
        b'0' + (response.status % 10) as u8,
    ];
    out.extend_from_slice(&hundreds)?;
    add_media_and_body(out, &response.media, &response.body)?;
    out.extend_from_slice(b";")
}

/// What is read of the requests of a source.
pub(crate) fn requests_of(alloc: Global, source: &mut MemorySource) -> Result<Vec<u8>, AllocError> {
    let mut out = Vec::new(alloc);
    let mut intake = Intake::new(alloc);
    for _ in 0..MOST {
        match intake.read_kept(source) {
            Ok((request, kept, rest)) => {
                add_request(&mut out, &request, kept)?;
                intake = rest;
            }
            Err(refusal) => {
                out.extend_from_slice(refusal_text(refusal))?;
                return Ok(out);
            }
        }
    }
    Ok(out)
}

/// What is read of the responses of a source.
pub(crate) fn responses_of(
    alloc: Global,
    source: &mut MemorySource,
) -> Result<Vec<u8>, AllocError> {
    let mut out = Vec::new(alloc);
    let mut intake = Intake::new(alloc);
    for _ in 0..MOST {
        match intake.read_response(source) {
            Ok((response, rest)) => {
                add_response(&mut out, &response)?;
                intake = rest;
            }
            Err(refusal) => {
                out.extend_from_slice(refusal_text(refusal))?;
                return Ok(out);
            }
        }
    }
    Ok(out)
}

// A source of these bytes, of which this many come first.
fn cut_at(alloc: Global, stream: &[u8], first: usize) -> Result<MemorySource, AllocError> {
    let bytes = Vec::from_slice(alloc, stream)?;
    let pieces = Vec::from_slice(alloc, &[first])?;
    Ok(MemorySource::of(bytes, pieces, Vec::new(alloc)))
}

// A source of these bytes, which come one by one.
fn in_bytes(alloc: Global, stream: &[u8]) -> Result<MemorySource, AllocError> {
    let bytes = Vec::from_slice(alloc, stream)?;
    let mut pieces = Vec::new(alloc);
    pieces.resize(stream.len(), 1)?;
    Ok(MemorySource::of(bytes, pieces, Vec::new(alloc)))
}

/// Whether this is read of the stream, cut after each byte in turn and in single bytes.
fn are_read(alloc: Global, stream: &[u8], wanted: &[u8]) -> Result<bool, AllocError> {
    for first in 0..=stream.len() {
        if requests_of(alloc, &mut cut_at(alloc, stream, first)?)?.as_slice() != wanted {
            return Ok(false);
        }
    }
    Ok(requests_of(alloc, &mut in_bytes(alloc, stream)?)?.as_slice() == wanted)
}

fn are_answered(alloc: Global, stream: &[u8], wanted: &[u8]) -> Result<bool, AllocError> {
    for first in 0..=stream.len() {
        if responses_of(alloc, &mut cut_at(alloc, stream, first)?)?.as_slice() != wanted {
            return Ok(false);
        }
    }
    Ok(responses_of(alloc, &mut in_bytes(alloc, stream)?)?.as_slice() == wanted)
}

/// The first row of which something else is read.
fn first_other_request(
    alloc: Global,
    rows: &[(&[u8], &[u8])],
) -> Result<Option<usize>, AllocError> {
    for (row, (stream, wanted)) in rows.iter().enumerate() {
        if !are_read(alloc, stream, wanted)? {
            return Ok(Some(row));
        }
    }
    Ok(None)
}

fn first_other_response(
    alloc: Global,
    rows: &[(&[u8], &[u8])],
) -> Result<Option<usize>, AllocError> {
    for (row, (stream, wanted)) in rows.iter().enumerate() {
        if !are_answered(alloc, stream, wanted)? {
            return Ok(Some(row));
        }
    }
    Ok(None)
}

#[test]
fn heads_and_lengths_are_read_however_they_are_cut(rt: HostRuntime) -> Result<(), Fail> {
    assert_eq!(rt; first_other_request(rt.alloc(), &STARTS)?, None);
    Ok(())
}

#[test]
fn targets_and_media_texts_are_read_however_they_are_cut(rt: HostRuntime) -> Result<(), Fail> {
    assert_eq!(rt; first_other_request(rt.alloc(), &FIELDS)?, None);
    Ok(())
}

#[test]
fn chunks_are_read_however_they_are_cut(rt: HostRuntime) -> Result<(), Fail> {
    assert_eq!(rt; first_other_request(rt.alloc(), &CHUNKS)?, None);
    Ok(())
}

#[test]
fn unended_requests_are_refused_however_they_are_cut(rt: HostRuntime) -> Result<(), Fail> {
    assert_eq!(rt; first_other_request(rt.alloc(), &ENDS)?, None);
    Ok(())
}

#[test]
fn responses_are_read_however_they_are_cut(rt: HostRuntime) -> Result<(), Fail> {
    assert_eq!(rt; first_other_response(rt.alloc(), &RESPONSES)?, None);
    Ok(())
}

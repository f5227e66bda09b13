//! Messages, written into one buffer each.
//!
//!     start line   fields   empty line   body      each line ends in CRLF
ghost use Rattle.std.specs.Prelude.{◌≡◌, ◌≤◌, ◌==◌, ◌++◌, [], None, IsTrue, codes, length, drop, position, IfOk, OnOk};
ghost use Rattle.std.specs.List.{position_or_len};
ghost use Rattle.std.specs.Option.{option_copied};
ghost use Rattle.as4_values.specs.Address.{has_address_form};
ghost use Rattle.as4_http.specs.Written.{line, media_line, fields_and_body, request_line, status_line, is_status, is_fixed, reason, response_text, host, target, method, request_text};

use as4_values::{NoMemory, Octets, Text};
use itoa::Buffer;
use std::alloc::Global;

/// How a response says that its connection is kept.
const KEEP_ALIVE: &[u8] = b"keep-alive";

/// How a message says that its connection closes after it.
const CLOSE: &[u8] = b"close";

/// The request to an address, of any length: GET where it asks for an entry of an inbox or the status of a
/// submission, and POST otherwise.
#[tactic(auto, unfolding(crate::specs::Written::request_text))]
pub fn write_request(
    alloc: Global,
    address: &Text,
    media: Option<&[u8]>,
    body: &[u8],
) -> Result<Octets, NoMemory>
    requires { IsTrue (has_address_form address.now) }
    ensures { IfOk result (λ text. text ≡ request_text address.now (option_copied media.entry) body.now) }
{
    let target = target_of(address.bytes());
    let mut out = Vec::new(alloc);
    add_request_line(&mut out, method_of(target, media, body), target)?;
    add_line(&mut out, b"Host: ", host_of(address.bytes()))?;
    add_fields_and_body(&mut out, media, CLOSE, body)?;
    Ok(Octets::of(out))
}

/// The response with a status, whose connection closes after it.
pub fn write_response(
    alloc: Global,
    status: u16,
    media: Option<&[u8]>,
    body: &[u8],
) -> Result<Octets, NoMemory>
    requires { IsTrue (is_status status) }
    ensures { IfOk result (λ text. text ≡ response_text status (option_copied media.entry) (codes "close") body.now) }
{
    response(alloc, status, media, CLOSE, body)
}

/// The same response, whose connection is kept.
pub fn write_kept(
    alloc: Global,
    status: u16,
    media: Option<&[u8]>,
    body: &[u8],
) -> Result<Octets, NoMemory>
    requires { IsTrue (is_status status) }
    ensures { IfOk result (λ text. text ≡ response_text status (option_copied media.entry) (codes "keep-alive") body.now) }
{
    response(alloc, status, media, KEEP_ALIVE, body)
}

/// The responses that have no media text and no body, and whose connection closes after them. They allocate
/// nothing.
pub fn fixed_response(status: u16) -> &'static [u8]
    requires { IsTrue (is_fixed status) }
    ensures { result.now ≡ response_text status None (codes "close") [] }
{
    if status == 202 {
        return b"HTTP/1.1 202 Accepted\r\nContent-Length: 0\r\nConnection: close\r\n\r\n";
    }
    if status == 400 {
        return b"HTTP/1.1 400 Bad Request\r\nContent-Length: 0\r\nConnection: close\r\n\r\n";
    }
    if status == 413 {
        return b"HTTP/1.1 413 Content Too Large\r\nContent-Length: 0\r\nConnection: close\r\n\r\n";
    }
    b"HTTP/1.1 503 Service Unavailable\r\nContent-Length: 0\r\nConnection: close\r\n\r\n"
}

#[tactic(auto, unfolding(crate::specs::Written::response_text))]
fn response(
    alloc: Global,
    status: u16,
    media: Option<&[u8]>,
    connection: &[u8],
    body: &[u8],
) -> Result<Octets, NoMemory>
    ensures { IfOk result (λ text. text ≡ response_text status (option_copied media.entry) connection.now body.now) }
{
    let mut out = Vec::new(alloc);
    add_status_line(&mut out, status)?;
    add_fields_and_body(&mut out, media, connection, body)?;
    Ok(Octets::of(out))
}

// Adds the fields after the first, the empty line and the body.
#[tactic(auto, unfolding(crate::specs::Written::fields_and_body))]
fn add_fields_and_body(
    out: &mut Vec<u8>,
    media: Option<&[u8]>,
    connection: &[u8],
    body: &[u8],
) -> Result<(), NoMemory>
    ensures { OnOk result (out.new.items ≡ out.old.items ++ fields_and_body (option_copied media.entry) connection.now body.now) }
{
    add_media(out, media)?;
    let mut digits = Buffer::new();
    add_line(
        out,
        b"Content-Length: ",
        digits.format(body.len()).as_bytes(),
    )?;
    add_line(out, b"Connection: ", connection)?;
    add_line(out, b"", b"")?;
    add(out, body)
}

fn add_media(out: &mut Vec<u8>, media: Option<&[u8]>) -> Result<(), NoMemory>
    ensures { OnOk result (out.new.items ≡ out.old.items ++ media_line (option_copied media.entry)) }
{
    match media {
        Some(media) => add_line(out, b"Content-Type: ", media),
        None => Ok(()),
    }
}

fn add_request_line(out: &mut Vec<u8>, method: &[u8], target: &[u8]) -> Result<(), NoMemory>
    ensures { OnOk result (out.new.items ≡ out.old.items ++ request_line method.now target.now) }
{
    add(out, method)?;
    add(out, b" ")?;
    add_line(out, target, b" HTTP/1.1")
}

fn add_status_line(out: &mut Vec<u8>, status: u16) -> Result<(), NoMemory>
    ensures { OnOk result (out.new.items ≡ out.old.items ++ status_line status) }
{
    let mut digits = Buffer::new();
    add(out, b"HTTP/1.1 ")?;
    add(out, digits.format(status).as_bytes())?;
    add_line(out, b" ", reason(status))
}

// Adds a line: this text, that text, and CRLF.
fn add_line(out: &mut Vec<u8>, front: &[u8], text: &[u8]) -> Result<(), NoMemory>
    ensures { OnOk result (out.new.items ≡ out.old.items ++ line (front.now ++ text.now)) }
{
    add(out, front)?;
    add(out, text)?;
    add(out, b"\r\n")
}

fn add(out: &mut Vec<u8>, bytes: &[u8]) -> Result<(), NoMemory>
    ensures { OnOk result (out.new.items ≡ out.old.items ++ bytes.now) }
{
    out.extend_from_slice(bytes)?;
    Ok(())
}

fn reason(status: u16) -> &'static [u8]
    ensures { result.now ≡ reason status }
{
    match status {
        200 => b"OK",
        202 => b"Accepted",
        400 => b"Bad Request",
        404 => b"Not Found",
        409 => b"Conflict",
        410 => b"Gone",
        413 => b"Content Too Large",
        _ => b"Service Unavailable",
    }
}

// The length of the host and the port, which follow `http://`.
#[tactic(auto, using(crate::proofs::WrittenLemmas::position_or_end))]
fn host_len(rest: &[u8]) -> usize
    ensures value { result ≡ position_or_len (λ b. b == 47) rest.now }
    ensures within { result ≤ length rest.now }
{
    host_end(rest).unwrap_or(rest.len())
}

fn host_end(rest: &[u8]) -> Option<usize>
    ensures { result ≡ position (λ b. b == 47) rest.now }
{
    rest.iter().position(|byte| *byte == b'/')
}

// What follows `http://`.
fn behind_scheme(address: &[u8]) -> &[u8]
    ensures { result.now ≡ drop 7 address.now }
{
    &address[address.len().min(7)..]
}

fn host_of(address: &[u8]) -> &[u8]
    ensures { result.now ≡ host address.now }
{
    let rest = behind_scheme(address);
    &rest[..host_len(rest)]
}

fn target_of(address: &[u8]) -> &[u8]
    ensures { result.now ≡ target address.now }
{
    let rest = behind_scheme(address);
    match &rest[host_len(rest)..] {
        [] => b"/",
        target => target,
    }
}

fn method_of(target: &[u8], media: Option<&[u8]>, body: &[u8]) -> &'static [u8]
    ensures { result.now ≡ method target.now (option_copied media.entry) body.now }
{
    let asks = target.starts_with(b"/inbox/") || target.starts_with(b"/status/");
    if media.is_none() && body.is_empty() && asks {
        b"GET"
    } else {
        b"POST"
    }
}

//! The requests of clients, as their text.
ghost use Rattle.std.specs.Prelude.{◌≡◌, ◌++◌, ◌≤◌, ◌==◌, IfOk, OnOk, IsTrue, None, codes, length, drop, position};
ghost use Rattle.std.specs.List.{position_or_len};
ghost use Rattle.std.specs.Option.{option_copied};
ghost use Rattle.as4_http.specs.Written.{host, request_text};
ghost use Rattle.as4_values.specs.Address.{has_address_form};
ghost use Rattle.percent_encoding.specs.Percent.{percent_encode_byte};
ghost use Rattle.clients.specs.Requests.{address_at, confirm_request, escape_of, escaped, fetch_request, is_unreserved, media_sent, numbered_target, submit_request, submit_target};

use as4_http::write_request;
use as4_values::{NoMemory, Octets, Text, has_address_form};
use itoa::Buffer;
use percent_encoding::percent_encode_byte;
use std::alloc::Global;

/// The request that submits a document.
pub(crate) fn submit_request(
    alloc: Global,
    address: &str,
    mode: &[u8],
    conversation: &[u8],
    media: &[u8],
    document: &[u8],
) -> Result<Octets, NoMemory>
    ensures { IfOk result (λ text. text ≡ submit_request address.now mode.now conversation.now media.now document.now) }
{
    let target = submit_target(alloc, mode, conversation)?;
    let request = request_at(alloc, address, target.bytes(), media_sent(media), document);
    drop(target);
    request
}

/// The request for entry n of the inbox.
pub(crate) fn fetch_request(alloc: Global, address: &str, n: u64) -> Result<Octets, NoMemory>
    ensures { IfOk result (λ text. text ≡ fetch_request address.now n) }
{
    numbered_request(alloc, address, b"/inbox/", n)
}

/// The request that confirms entry n of the inbox.
pub(crate) fn confirm_request(alloc: Global, address: &str, n: u64) -> Result<Octets, NoMemory>
    ensures { IfOk result (λ text. text ≡ confirm_request address.now n) }
{
    numbered_request(alloc, address, b"/confirm/", n)
}

fn numbered_request(alloc: Global, address: &str, words: &[u8], n: u64) -> Result<Octets, NoMemory>
    ensures { IfOk result (λ text. text ≡ request_text (address_at address.now (numbered_target words.now n)) None (codes "")) }
{
    let mut digits = Buffer::new();
    let mut target = Vec::from_slice(alloc, words)?;
    target.extend_from_slice(digits.format(n).as_bytes())?;
    request_at(alloc, address, target.as_slice(), None, b"")
}

// The request to a target of the service at this address.
fn request_at(
    alloc: Global,
    address: &str,
    target: &[u8],
    media: Option<&[u8]>,
    body: &[u8],
) -> Result<Octets, NoMemory>
    ensures { IfOk result (λ text. text ≡ request_text (address_at address.now target.now) (option_copied media.entry) body.now) }
{
    let place = address_at(alloc, address, target)?;
    let request = write_request(alloc, &place, media, body);
    drop(place);
    request
}

// The address of a target of the service. There is none if the service's address hasn't the form of one.
#[tactic(auto, unfolding(crate::specs::Requests::address_at))]
fn address_at(alloc: Global, address: &str, target: &[u8]) -> Result<Text, NoMemory>
    ensures at { IfOk result (λ text. text ≡ address_at address.now target.now) }
    ensures form { IfOk result (λ text. IsTrue (has_address_form text)) }
{
    let mut bytes = Vec::from_slice(alloc, b"http://")?;
    bytes.extend_from_slice(host_of(address.as_bytes()))?;
    bytes.extend_from_slice(target)?;
    address_of(alloc, bytes.as_slice())
}

// The address with exactly these bytes.
fn address_of(alloc: Global, bytes: &[u8]) -> Result<Text, NoMemory>
    ensures at { IfOk result (λ text. text ≡ bytes.now) }
    ensures form { IfOk result (λ text. IsTrue (has_address_form text)) }
{
    let Ok(text) = Text::read(alloc, bytes) else {
        return Err(NoMemory);
    };
    if text.bytes() == bytes && has_address_form(text.bytes()) {
        Ok(text)
    } else {
        drop(text);
        Err(NoMemory)
    }
}

// The host and the port of an address, which follow `http://`.
fn host_of(address: &[u8]) -> &[u8]
    ensures { result.now ≡ host address.now }
{
    let rest = &address[address.len().min(7)..];
    &rest[..host_len(rest)]
}

#[tactic(auto, using(byte_forms::proofs::SearchLemmas::position_or_end))]
fn host_len(rest: &[u8]) -> usize
    ensures value { result ≡ position_or_len (λ b. b == 47) rest.now }
    ensures within { result ≤ length rest.now }
{
    host_end(rest).unwrap_or(rest.len())
}

fn host_end(rest: &[u8]) -> Option<usize>
    ensures { result ≡ position (λ b. b == 47) rest.now }
{
    rest.iter().position(|byte| *byte == b'/')
}

// An empty media text isn't sent.
fn media_sent(media: &[u8]) -> Option<&[u8]>
    ensures { option_copied result ≡ media_sent media.now }
{
    match media {
        [] => None,
        _ => Some(media),
    }
}

fn submit_target(alloc: Global, mode: &[u8], conversation: &[u8]) -> Result<Octets, NoMemory>
    ensures { IfOk result (λ target. target ≡ submit_target mode.now conversation.now) }
{
    let mut target = Vec::from_slice(alloc, b"/submit/")?;
    push_escaped(&mut target, mode)?;
    target.push(b'/')?;
    push_escaped(&mut target, conversation)?;
    Ok(Octets::of(target))
}

// The bytes as a piece of a target.
#[tactic(auto, using(crate::proofs::EscapeLemmas::escaped_more, crate::proofs::EscapeLemmas::escaped_none))]
fn push_escaped(out: &mut Vec<u8>, bytes: &[u8]) -> Result<(), NoMemory>
    ensures { OnOk result (out.new.items ≡ out.old.items ++ escaped bytes.now) }
{
    for byte in bytes {
        push_byte(out, *byte)?;
    }
    Ok(())
}

// A byte as it is, or its escape.
fn push_byte(out: &mut Vec<u8>, byte: u8) -> Result<(), NoMemory>
    ensures { OnOk result (out.new.items ≡ out.old.items ++ escape_of byte) }
{
    if is_unreserved(byte) {
        out.push(byte)?;
    } else {
        out.extend_from_slice(percent_encode_byte(byte).as_bytes())?;
    }
    Ok(())
}

fn is_unreserved(byte: u8) -> bool
    ensures { result ≡ is_unreserved byte }
{
    byte.is_ascii_alphanumeric() || matches!(byte, b'-' | b'.' | b'_' | b'~')
}

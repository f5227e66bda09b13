//! Messages that are read, written, and read again.

use crate::cases::{BARE, BARE_MEDIA, BODY, MEDIA};
use crate::lines::changed;
use as4_message::{Wire, read_message, write_message};
use as4_values::{Message, PlainData};
use std::alloc::Global;
use std::test::Fail;

/// The package that is written for a message.
fn written(alloc: Global, message: &Message) -> Option<Wire> {
    write_message(alloc, message).ok()
}

/// The message of the sample package with this change.
fn message_with(alloc: Global, change: &str) -> Option<Message> {
    let body = changed(alloc, BODY, change)?;
    match read_message(alloc, MEDIA.as_bytes(), body.as_slice()) {
        Ok(message) => Some(message),
        Err(refusal) => {
            drop(refusal);
            None
        }
    }
}

/// Whether the written message has this boundary, and is read back.
fn is_written_with(alloc: Global, message: &Message, boundary: &str) -> Option<bool> {
    let wire = written(alloc, message)?;
    let text = str::from_utf8(wire.media.bytes()).ok()?;
    let has_boundary = text.contains(boundary);
    match read_message(alloc, wire.media.bytes(), wire.body.bytes()) {
        Ok(again) => {
            let is_same = message.same(&again);
            drop(again);
            Some(has_boundary && is_same)
        }
        Err(refusal) => {
            drop(refusal);
            Some(false)
        }
    }
}

fn is_read_again(alloc: Global, change: &str, boundary: &str) -> Option<bool> {
    let message = message_with(alloc, change)?;
    let is_so = is_written_with(alloc, &message, boundary);
    drop(message);
    is_so
}

/// Changes of the sample package, and the boundary of each when it is written.
const BOUNDARIES: [(&str, &str); 9] = [
    ("", "boundary=\"as4-0000000000000000\""),
    ("hello=>", "boundary=\"as4-0000000000000000\""),
    (
        "hello=>\r\n--as4-0000000000000000",
        "boundary=\"as4-0000000000000001\"",
    ),
    (
        "hello=>--as4-0000000000000000--as4-0000000000000001",
        "boundary=\"as4-0000000000000002\"",
    ),
    (
        "hello=>--as4-0000000000000001--as4-0000000000000000",
        "boundary=\"as4-0000000000000002\"",
    ),
    (
        "hello=>--as4-0000000000000001",
        "boundary=\"as4-0000000000000000\"",
    ),
    (
        "hello=>--as4-000000000000000--as4-0000000000000000",
        "boundary=\"as4-0000000000000001\"",
    ),
    (
        "hello=>--as4-000000000000000A",
        "boundary=\"as4-0000000000000000\"",
    ),
    (
        "orders=>--as4-0000000000000000",
        "boundary=\"as4-0000000000000001\"",
    ),
];

#[test]
fn the_least_free_boundary_is_taken(rt: HostRuntime) -> Result<(), Fail> {
    let alloc = rt.alloc();
    let first = BOUNDARIES.iter().position(|(change, boundary)| is_read_again(
        alloc, change, boundary,
    ) != Some(true));
    assert_eq!(rt; first, None);
    Ok(())
}

/// The sample package with a payload whose Content-ID is that of the first root.
fn named_as_root(alloc: Global) -> Option<bool> {
    let named = changed(alloc, BODY, "cid:p1@a=>cid:root-0000000000000000@as4")?;
    let text = String::from_utf8(named).ok()?;
    let body = changed(alloc, text.as_str(), "<p1@a>=><root-0000000000000000@as4>")?;
    match read_message(alloc, MEDIA.as_bytes(), body.as_slice()) {
        Ok(message) => {
            let is_so = is_written_with(alloc, &message, "boundary=\"as4-0000000000000001\"");
            drop(message);
            is_so
        }
        Err(refusal) => {
            drop(refusal);
            None
        }
    }
}

#[test]
fn no_payload_is_named_as_the_root(rt: HostRuntime) -> Result<(), Fail> {
    assert_eq!(rt; named_as_root(rt.alloc()), Some(true));
    Ok(())
}

/// The sample envelope in the spelling of another handler: other prefixes, a declaration, indentation, comments,
/// another order, and attributes of its own.
const ANOTHER_SPELLING: &str =
    "<?xml version=\"1.0\" encoding=\"UTF-8\"?>\n<!-- as another handler spells it -->\n<soap:Envelope xmlns:soap=\"http://www.w3.org/2003/05/soap-envelope\" xmlns:wsu=\"urn:wsu\">\n  <soap:Header>\n    <ns2:Messaging xmlns:ns2=\"http://docs.oasis-open.org/ebxml-msg/ebms/v3.0/ns/core/200704/\" soap:mustUnderstand=\"true\" wsu:Id=\"id-1\">\n      <ns2:UserMessage>\n        <ns2:MessageInfo>\n          <ns2:MessageId>m1@a</ns2:MessageId>\n          <ns2:Timestamp>2025-01-02T03:04:05.006Z</ns2:Timestamp>\n        </ns2:MessageInfo>\n        <ns2:CollaborationInfo>\n          <ns2:Action> invoice </ns2:Action>\n          <ns2:Service>orders</ns2:Service>\n          <ns2:ConversationId>c1</ns2:ConversationId>\n        </ns2:CollaborationInfo>\n        <ns2:PartyInfo wsu:Id=\"id-2\">\n          <ns2:From><ns2:PartyId>acme</ns2:PartyId><ns2:Role>seller</ns2:Role></ns2:From>\n          <ns2:To><ns2:PartyId>bo<!-- in two -->&#108;t</ns2:PartyId><ns2:Role>buyer</ns2:Role></ns2:To>\n        </ns2:PartyInfo>\n      </ns2:UserMessage>\n    </ns2:Messaging>\n  </soap:Header>\n  <soap:Body wsu:Id=\"id-3\"/>\n</soap:Envelope>\n";

/// Whether both spellings are read as the same message.
fn is_one_message(alloc: Global) -> Option<bool> {
    let one = read_message(alloc, BARE_MEDIA.as_bytes(), BARE.as_bytes()).ok()?;
    match read_message(alloc, BARE_MEDIA.as_bytes(), ANOTHER_SPELLING.as_bytes()) {
        Ok(other) => {
            let is_one = one.same(&other);
            drop((one, other));
            Some(is_one)
        }
        Err(refusal) => {
            drop(refusal);
            drop(one);
            None
        }
    }
}

#[test]
fn another_spelling_is_the_same_message(rt: HostRuntime) -> Result<(), Fail> {
    assert_eq!(rt; is_one_message(rt.alloc()), Some(true));
    Ok(())
}

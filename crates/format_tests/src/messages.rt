//! What the contracts don't cover: that memory suffices, and the bytes of one message, which were written by hand.

use as4_codes::{receipt, receipt_with_pull};
use as4_message::{MessageRefusal, Wire, read_message, write_message, write_message_file};
use as4_values::{Message, NoMemory, Octets, PlainData, Text, UserHeader};
use std::alloc::Global;
use std::test::Fail;

const MEDIA: &[u8] =
    b"multipart/related; type=\"application/soap+xml\"; boundary=\"as4-0000000000000000\"; start=\"<root-0000000000000000@as4>\"";

/// A message with the content `hello`.
const BODY: &str =
    "--as4-0000000000000000\r\nContent-ID: <root-0000000000000000@as4>\r\nContent-Type: application/soap+xml; charset=UTF-8\r\nContent-Transfer-Encoding: binary\r\n\r\n<S:Envelope xmlns:S=\"http://www.w3.org/2003/05/soap-envelope\" xmlns:eb=\"http://docs.oasis-open.org/ebxml-msg/ebms/v3.0/ns/core/200704/\"><S:Header><eb:Messaging S:mustUnderstand=\"true\"><eb:UserMessage><eb:MessageInfo><eb:Timestamp>2025-01-02T03:04:05.006Z</eb:Timestamp><eb:MessageId>m1@a</eb:MessageId></eb:MessageInfo><eb:PartyInfo><eb:From><eb:PartyId>acme</eb:PartyId><eb:Role>seller</eb:Role></eb:From><eb:To><eb:PartyId>bolt</eb:PartyId><eb:Role>buyer</eb:Role></eb:To></eb:PartyInfo><eb:CollaborationInfo><eb:Service>orders</eb:Service><eb:Action>invoice</eb:Action><eb:ConversationId>c1</eb:ConversationId></eb:CollaborationInfo><eb:PayloadInfo><eb:PartInfo href=\"cid:p1@a\"></eb:PartInfo></eb:PayloadInfo></eb:UserMessage></eb:Messaging></S:Header><S:Body></S:Body></S:Envelope>\r\n--as4-0000000000000000\r\nContent-ID: <p1@a>\r\nContent-Type: text/plain\r\nContent-Transfer-Encoding: binary\r\n\r\nhello\r\n--as4-0000000000000000--\r\n";

/// The body with the first `old` replaced by `new`.
fn changed(alloc: Global, old: &str, new: &str) -> Option<String> {
    let (front, back) = BODY.split_once(old)?;
    format!(in alloc; "{front}{new}{back}").ok()
}

/// The receipt of that message, with the first moment and the nonce 1.
const RECEIPT: &str =
    "Content-Type: application/soap+xml; charset=UTF-8\r\n\r\n<S:Envelope xmlns:S=\"http://www.w3.org/2003/05/soap-envelope\" xmlns:eb=\"http://docs.oasis-open.org/ebxml-msg/ebms/v3.0/ns/core/200704/\"><S:Header><eb:Messaging S:mustUnderstand=\"true\"><eb:SignalMessage><eb:MessageInfo><eb:Timestamp>1970-01-01T00:00:00.000Z</eb:Timestamp><eb:MessageId>s.00000000-0000-0000-0000-000000000001@as4</eb:MessageId><eb:RefToMessageId>m1@a</eb:RefToMessageId></eb:MessageInfo><eb:Receipt><eb:UserMessage><eb:MessageInfo><eb:Timestamp>2025-01-02T03:04:05.006Z</eb:Timestamp><eb:MessageId>m1@a</eb:MessageId></eb:MessageInfo><eb:PartyInfo><eb:From><eb:PartyId>acme</eb:PartyId><eb:Role>seller</eb:Role></eb:From><eb:To><eb:PartyId>bolt</eb:PartyId><eb:Role>buyer</eb:Role></eb:To></eb:PartyInfo><eb:CollaborationInfo><eb:Service>orders</eb:Service><eb:Action>invoice</eb:Action><eb:ConversationId>c1</eb:ConversationId></eb:CollaborationInfo><eb:PayloadInfo><eb:PartInfo href=\"cid:p1@a\"></eb:PartInfo></eb:PayloadInfo></eb:UserMessage></eb:Receipt></eb:SignalMessage></eb:Messaging></S:Header><S:Body></S:Body></S:Envelope>";

/// The same receipt, followed by the pull request of the nonce 0.
const PAIR: &str =
    "Content-Type: application/soap+xml; charset=UTF-8\r\n\r\n<S:Envelope xmlns:S=\"http://www.w3.org/2003/05/soap-envelope\" xmlns:eb=\"http://docs.oasis-open.org/ebxml-msg/ebms/v3.0/ns/core/200704/\"><S:Header><eb:Messaging S:mustUnderstand=\"true\"><eb:SignalMessage><eb:MessageInfo><eb:Timestamp>1970-01-01T00:00:00.000Z</eb:Timestamp><eb:MessageId>s.00000000-0000-0000-0000-000000000001@as4</eb:MessageId><eb:RefToMessageId>m1@a</eb:RefToMessageId></eb:MessageInfo><eb:Receipt><eb:UserMessage><eb:MessageInfo><eb:Timestamp>2025-01-02T03:04:05.006Z</eb:Timestamp><eb:MessageId>m1@a</eb:MessageId></eb:MessageInfo><eb:PartyInfo><eb:From><eb:PartyId>acme</eb:PartyId><eb:Role>seller</eb:Role></eb:From><eb:To><eb:PartyId>bolt</eb:PartyId><eb:Role>buyer</eb:Role></eb:To></eb:PartyInfo><eb:CollaborationInfo><eb:Service>orders</eb:Service><eb:Action>invoice</eb:Action><eb:ConversationId>c1</eb:ConversationId></eb:CollaborationInfo><eb:PayloadInfo><eb:PartInfo href=\"cid:p1@a\"></eb:PartInfo></eb:PayloadInfo></eb:UserMessage></eb:Receipt></eb:SignalMessage><eb:SignalMessage><eb:MessageInfo><eb:Timestamp>1970-01-01T00:00:00.000Z</eb:Timestamp><eb:MessageId>s.00000000-0000-0000-0000-000000000000@as4</eb:MessageId></eb:MessageInfo><eb:PullRequest mpc=\"urn:mpc\"></eb:PullRequest></eb:SignalMessage></eb:Messaging></S:Header><S:Body></S:Body></S:Envelope>";

/// The message that is read.
fn message(alloc: Global, body: &str) -> Option<Message> {
    match read_message(alloc, MEDIA, body.as_bytes()) {
        Ok(message) => Some(message),
        Err(refusal) => {
            drop(refusal);
            None
        }
    }
}

/// The package that is written for the message.
fn rewritten(alloc: Global) -> Option<Wire> {
    let message = message(alloc, BODY)?;
    let wire = write_message(alloc, &message);
    drop(message);
    wire.ok()
}

/// Whether its media text and its body are the original ones.
fn are_rewritten(alloc: Global) -> Option<(bool, bool)> {
    let wire = rewritten(alloc)?;
    let same = (
        wire.media.bytes() == MEDIA,
        wire.body.bytes() == BODY.as_bytes(),
    );
    drop(wire);
    Some(same)
}

#[test]
fn a_message_is_read_and_written_again(rt: HostRuntime) -> Result<(), Fail> {
    assert_eq!(rt; are_rewritten(rt.alloc()), Some((true, true)));
    Ok(())
}

/// The bytes of the message file after the field, its media text and the empty line.
fn body_of(file: &[u8]) -> Option<&[u8]> {
    file.strip_prefix(b"Content-Type: ")?
        .strip_prefix(MEDIA)?
        .strip_prefix(b"\r\n\r\n")
}

/// Whether the message file of the message has its media text and body.
fn is_filed(alloc: Global) -> Option<bool> {
    let message = message(alloc, BODY)?;
    let file = write_message_file(alloc, &message);
    drop(message);
    let file = file.ok()?;
    let same = body_of(file.bytes()) == Some(BODY.as_bytes());
    drop(file);
    Some(same)
}

#[test]
fn a_message_is_written_as_its_file(rt: HostRuntime) {
    assert_eq!(rt; is_filed(rt.alloc()), Some(true));
}

/// The header of the message that is read.
fn header(alloc: Global, body: &str) -> Option<UserHeader> {
    match message(alloc, body)? {
        Message::User { header, payloads } => {
            drop(payloads);
            Some(header)
        }
        other => {
            drop(other);
            None
        }
    }
}

/// The message file.
fn file_of(alloc: Global, message: Option<Message>) -> Option<Octets> {
    let message = message?;
    let file = write_message_file(alloc, &message);
    drop(message);
    file.ok()
}

/// Whether the message file has these bytes.
fn is_file_of(alloc: Global, message: Option<Message>, wanted: &[u8]) -> Option<bool> {
    let file = file_of(alloc, message)?;
    let is_file = file.bytes() == wanted;
    drop(file);
    Some(is_file)
}

/// The receipt of the message, with the first moment and the nonce 1.
fn receipt_message(alloc: Global) -> Option<Message> {
    let header = header(alloc, BODY)?;
    let signal = receipt(alloc, &header, 0, 1);
    drop(header);
    Some(Message::Signal(signal.ok()?))
}

/// That receipt, bundled with the pull request of the nonce 0 for a channel.
fn pair_message(alloc: Global) -> Option<Message> {
    let (header, mpc) = header(alloc, BODY).zip(Text::read(alloc, b"urn:mpc").ok())?;
    let pair = receipt_with_pull(alloc, &header, &mpc, 0, 0);
    drop(header);
    drop(mpc);
    Some(Message::Pair(pair.ok()?))
}

#[test]
fn a_receipt_is_written_as_its_file(rt: HostRuntime) {
    let receipt = receipt_message(rt.alloc());
    assert_eq!(rt;
        is_file_of(rt.alloc(), receipt, RECEIPT.as_bytes()),
        Some(true)
    );
}

#[test]
fn a_pair_is_written_as_its_file(rt: HostRuntime) {
    let pair = pair_message(rt.alloc());
    assert_eq!(rt; is_file_of(rt.alloc(), pair, PAIR.as_bytes()), Some(true));
}

/// Whether a copy succeeds and equals its source.
fn copies(alloc: Global, message: &Message) -> Result<bool, NoMemory> {
    let copy = message.try_clone(alloc)?;
    let is_same = copy.same(message);
    drop(copy);
    Ok(is_same)
}

/// Whether a copy of the message is equal to it.
fn copy_is_same(alloc: Global) -> Option<bool> {
    let message = message(alloc, BODY)?;
    let is_same = copies(alloc, &message);
    drop(message);
    is_same.ok()
}

/// Whether the message is equal to that of another body.
fn is_same(alloc: Global, one: &Message, body: &str) -> Option<bool> {
    let other = message(alloc, body)?;
    let is_same = one.same(&other);
    drop(other);
    Some(is_same)
}

/// The same for the body with this change.
fn is_same_with(alloc: Global, old: &str, new: &str) -> Option<bool> {
    let body = changed(alloc, old, new)?;
    let message = message(alloc, BODY)?;
    let is_same = is_same(alloc, &message, body.as_str());
    drop(message);
    is_same
}

/// Changes of the body that result in another message.
const CHANGES: [(&str, &str); 3] = [("buyer", "seller"), ("c1", "c2"), ("hello", "hallo")];

/// The first change that isn't read as another message.
fn first_same(alloc: Global, changes: &[(&str, &str)]) -> Option<usize> {
    for (at, (old, new)) in changes.iter().enumerate() {
        if is_same_with(alloc, old, new) != Some(false) {
            return Some(at);
        }
    }
    None
}

#[test]
fn a_copy_of_a_message_is_the_same_and_another_message_is_not(rt: HostRuntime) -> Result<(), Fail> {
    assert_eq!(rt; copy_is_same(rt.alloc()), Some(true));
    assert_eq!(rt; first_same(rt.alloc(), &CHANGES), None);
    Ok(())
}

/// Whether the identifier in this spelling is read as this text.
fn is_read_as(alloc: Global, spelled: &str, text: &[u8]) -> Option<bool> {
    let body = changed(alloc, "m1@a", spelled)?;
    let header = header(alloc, body.as_str())?;
    let is_read = header.id.bytes() == text;
    drop(header);
    Some(is_read)
}

/// Spellings of an identifier, and its text.
const SPELLINGS: [(&str, &[u8]); 3] = [
    ("m&amp;1@a", b"m&1@a"),
    ("&quot;m&quot;@a", b"\"m\"@a"),
    ("&amp;amp;", b"&amp;"),
];

/// The first spelling that is read otherwise.
fn first_misread(alloc: Global, spellings: &[(&str, &[u8])]) -> Option<usize> {
    for (at, (spelled, text)) in spellings.iter().enumerate() {
        if is_read_as(alloc, spelled, text) != Some(true) {
            return Some(at);
        }
    }
    None
}

#[test]
fn an_identifier_is_read_without_its_escapes(rt: HostRuntime) -> Result<(), Fail> {
    assert_eq!(rt; first_misread(rt.alloc(), &SPELLINGS), None);
    Ok(())
}

/// The code of a refusal.
fn code_of(refusal: &MessageRefusal) -> Option<u16> {
    match refusal {
        MessageRefusal::Refused(refusal) => Some(refusal.code),
        MessageRefusal::NoMemory => None,
    }
}

/// That code; `None` if the message is read.
fn refusal(alloc: Global, media: &[u8], body: &str) -> Option<u16> {
    match read_message(alloc, media, body.as_bytes()) {
        Ok(message) => {
            drop(message);
            None
        }
        Err(refusal) => {
            let code = code_of(&refusal);
            drop(refusal);
            code
        }
    }
}

/// A media text, a body, and the code of the refusal.
const OTHER_MEDIA: [(&[u8], &str, u16); 4] = [
    (MEDIA, "", 7),
    (b"multipart/related", BODY, 7),
    (b"", BODY, 7),
    (b"", "", 7),
];

/// The first row that isn't refused so.
fn first_other(alloc: Global, rows: &[(&[u8], &str, u16)]) -> Option<usize> {
    for (at, (media, body, code)) in rows.iter().enumerate() {
        if refusal(alloc, media, body) != Some(*code) {
            return Some(at);
        }
    }
    None
}

#[test]
fn no_other_media_text_is_read(rt: HostRuntime) -> Result<(), Fail> {
    assert_eq!(rt; first_other(rt.alloc(), &OTHER_MEDIA), None);
    Ok(())
}

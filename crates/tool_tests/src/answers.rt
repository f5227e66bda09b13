//! The answer to an input.

use crate::ended::{NOTHING_FAILS, WRITE_FAILS, Wanted, ends};
use as4_tool::LIMIT;
use std::alloc::Global;

/// The file of a message with the content `hello`.
const FILE: &str =
    "Content-Type: multipart/related; type=\"application/soap+xml\"; boundary=\"as4-0000000000000000\"; start=\"<root-0000000000000000@as4>\"\r\n\r\n--as4-0000000000000000\r\nContent-ID: <root-0000000000000000@as4>\r\nContent-Type: application/soap+xml; charset=UTF-8\r\nContent-Transfer-Encoding: binary\r\n\r\n<S:Envelope xmlns:S=\"http://www.w3.org/2003/05/soap-envelope\" xmlns:eb=\"http://docs.oasis-open.org/ebxml-msg/ebms/v3.0/ns/core/200704/\"><S:Header><eb:Messaging S:mustUnderstand=\"true\"><eb:UserMessage><eb:MessageInfo><eb:Timestamp>2025-01-02T03:04:05.006Z</eb:Timestamp><eb:MessageId>m1@a</eb:MessageId></eb:MessageInfo><eb:PartyInfo><eb:From><eb:PartyId>acme</eb:PartyId><eb:Role>seller</eb:Role></eb:From><eb:To><eb:PartyId>bolt</eb:PartyId><eb:Role>buyer</eb:Role></eb:To></eb:PartyInfo><eb:CollaborationInfo><eb:Service>orders</eb:Service><eb:Action>invoice</eb:Action><eb:ConversationId>c1</eb:ConversationId></eb:CollaborationInfo><eb:PayloadInfo><eb:PartInfo href=\"cid:p1@a\"></eb:PartInfo></eb:PayloadInfo></eb:UserMessage></eb:Messaging></S:Header><S:Body></S:Body></S:Envelope>\r\n--as4-0000000000000000\r\nContent-ID: <p1@a>\r\nContent-Type: text/plain\r\nContent-Transfer-Encoding: binary\r\n\r\nhello\r\n--as4-0000000000000000--\r\n";

/// The file of its receipt, with the moment 0 and the nonce 1.
const RECEIPT: &str =
    "Content-Type: application/soap+xml; charset=UTF-8\r\n\r\n<S:Envelope xmlns:S=\"http://www.w3.org/2003/05/soap-envelope\" xmlns:eb=\"http://docs.oasis-open.org/ebxml-msg/ebms/v3.0/ns/core/200704/\"><S:Header><eb:Messaging S:mustUnderstand=\"true\"><eb:SignalMessage><eb:MessageInfo><eb:Timestamp>1970-01-01T00:00:00.000Z</eb:Timestamp><eb:MessageId>s.00000000-0000-0000-0000-000000000001@as4</eb:MessageId><eb:RefToMessageId>m1@a</eb:RefToMessageId></eb:MessageInfo><eb:Receipt><eb:UserMessage><eb:MessageInfo><eb:Timestamp>2025-01-02T03:04:05.006Z</eb:Timestamp><eb:MessageId>m1@a</eb:MessageId></eb:MessageInfo><eb:PartyInfo><eb:From><eb:PartyId>acme</eb:PartyId><eb:Role>seller</eb:Role></eb:From><eb:To><eb:PartyId>bolt</eb:PartyId><eb:Role>buyer</eb:Role></eb:To></eb:PartyInfo><eb:CollaborationInfo><eb:Service>orders</eb:Service><eb:Action>invoice</eb:Action><eb:ConversationId>c1</eb:ConversationId></eb:CollaborationInfo><eb:PayloadInfo><eb:PartInfo href=\"cid:p1@a\"></eb:PartInfo></eb:PayloadInfo></eb:UserMessage></eb:Receipt></eb:SignalMessage></eb:Messaging></S:Header><S:Body></S:Body></S:Envelope>";

/// The file of the error signal for an input that is no package, with the moment 0 and the nonce 1.
const ERROR: &str =
    "Content-Type: application/soap+xml; charset=UTF-8\r\n\r\n<S:Envelope xmlns:S=\"http://www.w3.org/2003/05/soap-envelope\" xmlns:eb=\"http://docs.oasis-open.org/ebxml-msg/ebms/v3.0/ns/core/200704/\"><S:Header><eb:Messaging S:mustUnderstand=\"true\"><eb:SignalMessage><eb:MessageInfo><eb:Timestamp>1970-01-01T00:00:00.000Z</eb:Timestamp><eb:MessageId>s.00000000-0000-0000-0000-000000000001@as4</eb:MessageId></eb:MessageInfo><eb:Error errorCode=\"EBMS:0007\" severity=\"failure\" category=\"Unpackaging\" shortDescription=\"MimeInconsistency\"></eb:Error></eb:SignalMessage></eb:Messaging></S:Header><S:Body></S:Body></S:Envelope>";

/// The file of a receipt for the message, with a pull request.
const PAIR: &str =
    "Content-Type: application/soap+xml\r\n\r\n<S:Envelope xmlns:S=\"http://www.w3.org/2003/05/soap-envelope\" xmlns:eb=\"http://docs.oasis-open.org/ebxml-msg/ebms/v3.0/ns/core/200704/\"><S:Header><eb:Messaging S:mustUnderstand=\"true\"><eb:SignalMessage><eb:MessageInfo><eb:Timestamp>2025-01-02T03:04:05.006Z</eb:Timestamp><eb:MessageId>s1@b</eb:MessageId><eb:RefToMessageId>m1@a</eb:RefToMessageId></eb:MessageInfo><eb:Receipt></eb:Receipt></eb:SignalMessage><eb:SignalMessage><eb:MessageInfo><eb:Timestamp>2025-01-02T03:04:05.006Z</eb:Timestamp><eb:MessageId>s2@b</eb:MessageId></eb:MessageInfo><eb:PullRequest mpc=\"urn:ch\"></eb:PullRequest></eb:SignalMessage></eb:Messaging></S:Header><S:Body></S:Body></S:Envelope>";

/// Whether this input is answered so, with the moment 0 and the nonce 1.
fn is_answered(alloc: Global, file: &[u8], wanted: Wanted) -> bool {
    ends(alloc, "answer 0 1", file, NOTHING_FAILS, wanted)
}

/// Whether the run of these words, with an input of this length, ends so.
fn ends_by_length(alloc: Global, line: &str, len: usize, wanted: Wanted) -> bool {
    match vec![in alloc; 0; len] {
        Ok(file) => ends(alloc, line, &file, NOTHING_FAILS, wanted),
        Err(_) => false,
    }
}

#[test]
fn an_input_has_a_longest_length(rt: HostRuntime) {
    let alloc = rt.alloc();
    let too_long: Wanted = (11, b"", b"input too long\n");
    assert!(rt; ends_by_length(alloc, "answer 0 1", LIMIT, (0, ERROR.as_bytes(), b"")));
    assert!(rt; ends_by_length(alloc, "answer 0 1", LIMIT + 1, too_long));
    assert!(rt; ends_by_length(alloc, "check", LIMIT + 1, too_long));
}

#[test]
fn a_pair_has_no_answer(rt: HostRuntime) {
    assert!(rt;
        is_answered(
            rt.alloc(),
            PAIR.as_bytes(),
            (7, b"", b"not a user message\n")
        )
    );
}

#[test]
fn a_message_is_answered_by_its_receipt(rt: HostRuntime) {
    assert!(rt; is_answered(rt.alloc(), FILE.as_bytes(), (0, RECEIPT.as_bytes(), b"")));
}

/// Whether the message without its last byte is answered with the error.
fn is_cut_short(alloc: Global) -> bool {
    match FILE.as_bytes().split_last() {
        Some((_, file)) => is_answered(alloc, file, (0, ERROR.as_bytes(), b"")),
        None => false,
    }
}

#[test]
fn a_message_without_its_last_byte_is_answered_by_an_error(rt: HostRuntime) {
    assert!(rt; is_cut_short(rt.alloc()));
}

/// The inputs of a check, its statuses and its check lines.
const CHECKS: [(&str, u8, &str); 5] = [
    (FILE, 0, "user m1@a\n"),
    (RECEIPT, 0, "receipt m1@a\n"),
    (ERROR, 0, "errors 1\n"),
    (PAIR, 0, "pair m1@a urn:ch\n"),
    ("", 1, "refused EBMS:0007\n"),
];

/// The first of these inputs with another check line.
fn first_other_line(alloc: Global, rows: &[(&str, u8, &str)]) -> Option<usize> {
    for (at, (file, status, line)) in rows.iter().enumerate() {
        let wanted = (*status, line.as_bytes(), b"".as_slice());
        if !ends(alloc, "check", file.as_bytes(), NOTHING_FAILS, wanted) {
            return Some(at);
        }
    }
    None
}

#[test]
fn a_message_is_told_in_a_line(rt: HostRuntime) {
    assert_eq!(rt; first_other_line(rt.alloc(), &CHECKS), None);
}

const WITHOUT_MEDIA: [&str; 6] = [
    "",
    "Content-Type: ",
    "Content-Type: \r\n\r\n",
    "Content-Type: \r\n\r\nbody",
    "content-type: text/xml\r\n\r\n",
    "Content-Type: text/xml\r\n",
];

/// The first of these inputs that isn't answered with the error.
fn first_without_error(alloc: Global, files: &[&str]) -> Option<usize> {
    for (at, file) in files.iter().enumerate() {
        if !is_answered(alloc, file.as_bytes(), (0, ERROR.as_bytes(), b"")) {
            return Some(at);
        }
    }
    None
}

#[test]
fn an_input_without_a_media_text_is_answered_by_an_error(rt: HostRuntime) {
    assert_eq!(rt; first_without_error(rt.alloc(), &WITHOUT_MEDIA), None);
}

#[test]
fn an_answer_that_fails_is_told(rt: HostRuntime) {
    let wanted = (4, b"".as_slice(), b"write fault\n".as_slice());
    assert!(rt;
        ends(
            rt.alloc(),
            "answer 0 1",
            FILE.as_bytes(),
            WRITE_FAILS,
            wanted
        )
    );
}

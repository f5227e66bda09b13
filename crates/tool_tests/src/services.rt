//! The commands of a handler's own programs, over hosts in memory.

use crate::ended::{
    Failing, NOTHING_FAILS, READ_FAILS, WRITE_FAILS, Wanted, end_over, host_of, words_of,
};
use as4_host::MemoryHost;
use as4_tool::LIMIT;
use std::alloc::Global;

/// A response with a user message that has the content `hello`.
const MESSAGE: &[u8] =
    b"HTTP/1.1 200 OK\r\nContent-Type: multipart/related; type=\"application/soap+xml\"; boundary=\"as4-0000000000000000\"; start=\"<root-0000000000000000@as4>\"\r\nContent-Length: 1080\r\nConnection: close\r\n\r\n--as4-0000000000000000\r\nContent-ID: <root-0000000000000000@as4>\r\nContent-Type: application/soap+xml; charset=UTF-8\r\nContent-Transfer-Encoding: binary\r\n\r\n<S:Envelope xmlns:S=\"http://www.w3.org/2003/05/soap-envelope\" xmlns:eb=\"http://docs.oasis-open.org/ebxml-msg/ebms/v3.0/ns/core/200704/\"><S:Header><eb:Messaging S:mustUnderstand=\"true\"><eb:UserMessage><eb:MessageInfo><eb:Timestamp>2025-01-02T03:04:05.006Z</eb:Timestamp><eb:MessageId>m1@a</eb:MessageId></eb:MessageInfo><eb:PartyInfo><eb:From><eb:PartyId>acme</eb:PartyId><eb:Role>seller</eb:Role></eb:From><eb:To><eb:PartyId>bolt</eb:PartyId><eb:Role>buyer</eb:Role></eb:To></eb:PartyInfo><eb:CollaborationInfo><eb:Service>orders</eb:Service><eb:Action>invoice</eb:Action><eb:ConversationId>c1</eb:ConversationId></eb:CollaborationInfo><eb:PayloadInfo><eb:PartInfo href=\"cid:p1@a\"></eb:PartInfo></eb:PayloadInfo></eb:UserMessage></eb:Messaging></S:Header><S:Body></S:Body></S:Envelope>\r\n--as4-0000000000000000\r\nContent-ID: <p1@a>\r\nContent-Type: text/plain\r\nContent-Transfer-Encoding: binary\r\n\r\nhello\r\n--as4-0000000000000000--\r\n";

/// Its message file.
const MESSAGE_FILE: &[u8] =
    b"Content-Type: multipart/related; type=\"application/soap+xml\"; boundary=\"as4-0000000000000000\"; start=\"<root-0000000000000000@as4>\"\r\n\r\n--as4-0000000000000000\r\nContent-ID: <root-0000000000000000@as4>\r\nContent-Type: application/soap+xml; charset=UTF-8\r\nContent-Transfer-Encoding: binary\r\n\r\n<S:Envelope xmlns:S=\"http://www.w3.org/2003/05/soap-envelope\" xmlns:eb=\"http://docs.oasis-open.org/ebxml-msg/ebms/v3.0/ns/core/200704/\"><S:Header><eb:Messaging S:mustUnderstand=\"true\"><eb:UserMessage><eb:MessageInfo><eb:Timestamp>2025-01-02T03:04:05.006Z</eb:Timestamp><eb:MessageId>m1@a</eb:MessageId></eb:MessageInfo><eb:PartyInfo><eb:From><eb:PartyId>acme</eb:PartyId><eb:Role>seller</eb:Role></eb:From><eb:To><eb:PartyId>bolt</eb:PartyId><eb:Role>buyer</eb:Role></eb:To></eb:PartyInfo><eb:CollaborationInfo><eb:Service>orders</eb:Service><eb:Action>invoice</eb:Action><eb:ConversationId>c1</eb:ConversationId></eb:CollaborationInfo><eb:PayloadInfo><eb:PartInfo href=\"cid:p1@a\"></eb:PartInfo></eb:PayloadInfo></eb:UserMessage></eb:Messaging></S:Header><S:Body></S:Body></S:Envelope>\r\n--as4-0000000000000000\r\nContent-ID: <p1@a>\r\nContent-Type: text/plain\r\nContent-Transfer-Encoding: binary\r\n\r\nhello\r\n--as4-0000000000000000--\r\n";

const CONFIRMED: &[u8] =
    b"HTTP/1.1 200 OK\r\nContent-Type: text/plain\r\nContent-Length: 12\r\nConnection: close\r\n\r\nconfirmed 0\n";

const NO_ENTRY: &[u8] =
    b"HTTP/1.1 404 Not Found\r\nContent-Type: text/plain\r\nContent-Length: 9\r\nConnection: close\r\n\r\nno entry\n";

const GONE: &[u8] =
    b"HTTP/1.1 410 Gone\r\nContent-Type: text/plain\r\nContent-Length: 5\r\nConnection: close\r\n\r\ngone\n";

const UNAVAILABLE: &[u8] =
    b"HTTP/1.1 503 Service Unavailable\r\nContent-Length: 0\r\nConnection: close\r\n\r\n";

const SUBMITTED: &[u8] =
    b"HTTP/1.1 200 OK\r\nContent-Type: text/plain\r\nContent-Length: 45\r\nConnection: close\r\n\r\n0 0.00000000-0000-0000-0000-000000000001@as4\n";

const NO_MODE: &[u8] =
    b"HTTP/1.1 404 Not Found\r\nContent-Type: text/plain\r\nContent-Length: 8\r\nConnection: close\r\n\r\nno mode\n";

const NO_RESPONSE: &[u8] = b"SSH-2.0-x\r\n\r\n";

const SUBMIT: &str = "submit http://h:1/ m c text/plain";

const COLLECT: &str = "collect http://h:1/ 0 2 F";

/// The words, the answers of the handler, the calls that fail, and the end.
struct Row {
    line: &'static str,
    answers: &'static [&'static [u8]],
    failing: Failing,
    wanted: Wanted<'static>,
}

const ROWS: [Row; 15] = [
    Row {
        line: SUBMIT,
        answers: &[SUBMITTED],
        failing: NOTHING_FAILS,
        wanted: (0, b"0 0.00000000-0000-0000-0000-000000000001@as4\n", b""),
    },
    Row {
        line: SUBMIT,
        answers: &[NO_MODE],
        failing: NOTHING_FAILS,
        wanted: (1, b"no mode\n", b""),
    },
    Row {
        line: SUBMIT,
        answers: &[SUBMITTED],
        failing: READ_FAILS,
        wanted: (3, b"", b"read fault\n"),
    },
    Row {
        line: SUBMIT,
        answers: &[SUBMITTED],
        failing: WRITE_FAILS,
        wanted: (4, b"", b"write fault\n"),
    },
    Row {
        line: SUBMIT,
        answers: &[NO_MODE],
        failing: WRITE_FAILS,
        wanted: (4, b"", b"write fault\n"),
    },
    Row {
        line: SUBMIT,
        answers: &[NO_RESPONSE],
        failing: NOTHING_FAILS,
        wanted: (12, b"", b"bad response\n"),
    },
    Row {
        line: SUBMIT,
        answers: &[],
        failing: NOTHING_FAILS,
        wanted: (12, b"", b"bad response\n"),
    },
    Row {
        line: COLLECT,
        answers: &[MESSAGE, CONFIRMED, NO_ENTRY],
        failing: NOTHING_FAILS,
        wanted: (0, b"0 collected\n", b""),
    },
    Row {
        line: COLLECT,
        answers: &[GONE, MESSAGE, CONFIRMED],
        failing: NOTHING_FAILS,
        wanted: (0, b"0 gone\n1 collected\n", b""),
    },
    Row {
        line: COLLECT,
        answers: &[MESSAGE, CONFIRMED, UNAVAILABLE],
        failing: NOTHING_FAILS,
        wanted: (1, b"0 collected\n", b""),
    },
    Row {
        line: COLLECT,
        answers: &[MESSAGE, CONFIRMED],
        failing: WRITE_FAILS,
        wanted: (4, b"", b"write fault\n"),
    },
    Row {
        line: COLLECT,
        answers: &[MESSAGE, CONFIRMED],
        failing: NOTHING_FAILS,
        wanted: (12, b"0 collected\n", b"bad response\n"),
    },
    Row {
        line: COLLECT,
        answers: &[MESSAGE, CONFIRMED, NO_ENTRY],
        failing: READ_FAILS,
        wanted: (0, b"0 collected\n", b""),
    },
    Row {
        line: "collect http://h:1/ 0 0 F",
        answers: &[],
        failing: NOTHING_FAILS,
        wanted: (0, b"", b""),
    },
    Row {
        line: "handler m j http://h:1/ http://h:2/",
        answers: &[],
        failing: NOTHING_FAILS,
        wanted: (64, b"", b"bad words\n"),
    },
];

/// Whether the run of this line's words over a host, with the input `hello`, ends so.
fn ends_over(
    alloc: Global,
    line: &str,
    failing: Failing,
    host: &mut MemoryHost,
    wanted: Wanted,
) -> bool {
    match words_of(alloc, line) {
        Ok(words) => end_over(alloc, &words, b"hello", failing, host, wanted),
        Err(_) => false,
    }
}

/// The first row with another end.
fn first_other(alloc: Global, rows: &[Row]) -> Option<usize> {
    for (at, row) in rows.iter().enumerate() {
        let ends = match host_of(alloc, row.answers) {
            Some(mut host) => ends_over(alloc, row.line, row.failing, &mut host, row.wanted),
            None => false,
        };
        if !ends {
            return Some(at);
        }
    }
    None
}

#[test]
fn submissions_and_collections_end_by_their_causes(rt: HostRuntime) {
    assert_eq!(rt; first_other(rt.alloc(), &ROWS), None);
}

/// Whether a collection writes the file of the first entry.
fn is_collected(alloc: Global) -> bool {
    let Some(mut host) = host_of(alloc, &[MESSAGE, CONFIRMED, NO_ENTRY]) else {
        return false;
    };
    let wanted: Wanted = (0, b"0 collected\n", b"");
    let ends = ends_over(alloc, COLLECT, NOTHING_FAILS, &mut host, wanted);
    let kept = match host.file("F/0.as4") {
        Some(file) => file.bytes() == MESSAGE_FILE,
        None => false,
    };
    ends && kept && host.file("F/1.as4").is_none()
}

#[test]
fn a_collection_writes_message_files(rt: HostRuntime) {
    assert!(rt; is_collected(rt.alloc()));
}

/// Whether a host whose first call fails is told as a host fault.
fn is_a_host_fault(alloc: Global) -> Option<bool> {
    let mut host = host_of(alloc, &[MESSAGE, CONFIRMED])?;
    host.fail_at(vec![in alloc; 1].ok()?);
    let wanted: Wanted = (9, b"", b"host fault\n");
    Some(ends_over(alloc, COLLECT, NOTHING_FAILS, &mut host, wanted))
}

#[test]
fn a_file_that_is_not_written_is_a_host_fault(rt: HostRuntime) {
    assert_eq!(rt; is_a_host_fault(rt.alloc()), Some(true));
}

/// Whether a document of this length is too long.
fn is_too_long(alloc: Global, len: usize) -> Option<bool> {
    let words = words_of(alloc, SUBMIT).ok()?;
    let document = vec![in alloc; 0; len].ok()?;
    let mut host = host_of(alloc, &[SUBMITTED])?;
    let wanted: Wanted = (11, b"", b"input too long\n");
    Some(end_over(alloc, &words, &document, NOTHING_FAILS, &mut host, wanted))
}

#[test]
fn a_document_has_a_longest_length(rt: HostRuntime) {
    assert_eq!(rt; is_too_long(rt.alloc(), LIMIT), Some(false));
    assert_eq!(rt; is_too_long(rt.alloc(), LIMIT + 1), Some(true));
}

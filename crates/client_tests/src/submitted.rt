//! Submissions, and what they leave.

use crate::failing_host::{Failing, NOTHING, has_sent, host_of};
use crate::samples::Sample;
use as4_values::Octets;
use clients::{SubmitEnd, submit};
use std::alloc::Global;

/// How a submission ended, without its text.
#[derive(Clone, Copy, Debug, PartialEq, Eq)]
enum EndKind {
    Accepted,
    Refused(u16),
    BadResponse,
    LinkFault,
    WriteFault,
    ReadFault,
    NoMemory,
}

/// The answer; what fails; how the submission ends and with which text; the requests that were sent; and the host's counts
/// of faults, reads and writes.
struct Row {
    answers: &'static [Sample],
    failing: Failing,
    end: EndKind,
    text: &'static [u8],
    sent: &'static [Sample],
    counts: (u64, u64, u64),
}

const ROWS: [Row; 10] = [
    Row {
        answers: &[Sample::Submitted],
        failing: NOTHING,
        end: EndKind::Accepted,
        text: b"0 0.00000000-0000-0000-0000-000000000001@as4\n",
        sent: &[Sample::Submit],
        counts: (0, 0, 0),
    },
    Row {
        answers: &[Sample::NoMode],
        failing: NOTHING,
        end: EndKind::Refused(404),
        text: b"no mode\n",
        sent: &[Sample::Submit],
        counts: (0, 0, 0),
    },
    Row {
        answers: &[Sample::Unavailable],
        failing: NOTHING,
        end: EndKind::Refused(503),
        text: b"",
        sent: &[Sample::Submit],
        counts: (0, 0, 0),
    },
    Row {
        answers: &[],
        failing: NOTHING,
        end: EndKind::BadResponse,
        text: b"",
        sent: &[Sample::Submit],
        counts: (0, 0, 0),
    },
    Row {
        answers: &[Sample::Cut],
        failing: NOTHING,
        end: EndKind::BadResponse,
        text: b"",
        sent: &[Sample::Submit],
        counts: (0, 0, 0),
    },
    Row {
        answers: &[Sample::NoResponse],
        failing: NOTHING,
        end: EndKind::BadResponse,
        text: b"",
        sent: &[Sample::Submit],
        counts: (0, 0, 0),
    },
    // The response came whole by the first read, so no second one is made.
    Row {
        answers: &[Sample::Submitted],
        failing: Failing { read: 2, ..NOTHING },
        end: EndKind::Accepted,
        text: b"0 0.00000000-0000-0000-0000-000000000001@as4\n",
        sent: &[Sample::Submit],
        counts: (0, 0, 0),
    },
    Row {
        answers: &[Sample::Submitted],
        failing: Failing { open: 1, ..NOTHING },
        end: EndKind::LinkFault,
        text: b"",
        sent: &[],
        counts: (1, 0, 0),
    },
    Row {
        answers: &[Sample::Submitted],
        failing: Failing { read: 1, ..NOTHING },
        end: EndKind::ReadFault,
        text: b"",
        sent: &[Sample::Submit],
        counts: (0, 1, 0),
    },
    Row {
        answers: &[Sample::Submitted],
        failing: Failing {
            write: 1,
            ..NOTHING
        },
        end: EndKind::WriteFault,
        text: b"",
        sent: &[Sample::Nothing],
        counts: (0, 0, 1),
    },
];

// The kind of an end, and whether it has this text.
fn kind_of(end: SubmitEnd, text: &[u8]) -> (EndKind, bool) {
    match end {
        SubmitEnd::Accepted(body) => (EndKind::Accepted, is_text(body, text)),
        SubmitEnd::Refused { status, text: body } => {
            (EndKind::Refused(status), is_text(body, text))
        }
        SubmitEnd::BadResponse => (EndKind::BadResponse, text.is_empty()),
        SubmitEnd::LinkFault => (EndKind::LinkFault, text.is_empty()),
        SubmitEnd::WriteFault => (EndKind::WriteFault, text.is_empty()),
        SubmitEnd::ReadFault => (EndKind::ReadFault, text.is_empty()),
        SubmitEnd::NoMemory => (EndKind::NoMemory, text.is_empty()),
    }
}

fn is_text(body: Octets, text: &[u8]) -> bool {
    let is_same = body.bytes() == text;
    drop(body);
    is_same
}

// Whether `hello`, submitted so, ends and leaves what it should.
fn is_right(alloc: Global, row: &Row) -> Option<bool> {
    let mut host = host_of(alloc, row.answers, row.failing)?;
    let end = submit(
        alloc,
        &mut host,
        "http://h:1/",
        b"m",
        b"c",
        b"text/plain",
        b"hello",
    );
    let (kind, has_text) = kind_of(end, row.text);
    let are_counted = host.host.counts() == row.counts;
    let was_sent = has_sent(host, b"http://h:1/", row.sent);
    Some(kind == row.end && has_text && are_counted && was_sent)
}

// The first row that leaves something else.
fn first_wrong(alloc: Global) -> Option<usize> {
    for (at, row) in ROWS.iter().enumerate() {
        if is_right(alloc, row) != Some(true) {
            return Some(at);
        }
    }
    None
}

#[test]
fn submissions_leave_what_they_should(rt: HostRuntime) {
    assert_eq!(rt; first_wrong(rt.alloc()), None);
}

// Whether a mode is sent with its escapes, and an empty media text isn't sent.
fn are_escaped(alloc: Global) -> Option<bool> {
    let mut host = host_of(alloc, &[Sample::Submitted], NOTHING)?;
    let end = submit(
        alloc,
        &mut host,
        "http://h:1",
        b"a/b \xc3\xbc-._~9",
        b"",
        b"",
        b"",
    );
    drop(end);
    Some(has_sent(host, b"http://h:1", &[Sample::SubmitEscaped]))
}

#[test]
fn a_mode_is_sent_with_escapes(rt: HostRuntime) {
    assert_eq!(rt; are_escaped(rt.alloc()), Some(true));
}

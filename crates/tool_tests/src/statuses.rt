//! The number of each status, and its line.

use crate::ended::{Failing, NOTHING_FAILS, READ_FAILS, TELL_FAILS, WRITE_FAILS, ends, sink};
use as4_tool::Status;
use std::alloc::Global;

/// The message file of a pull request.
const PULL: &str =
    "Content-Type: application/soap+xml\r\n\r\n<S:Envelope xmlns:S=\"http://www.w3.org/2003/05/soap-envelope\" xmlns:eb=\"http://docs.oasis-open.org/ebxml-msg/ebms/v3.0/ns/core/200704/\"><S:Header><eb:Messaging S:mustUnderstand=\"true\"><eb:SignalMessage><eb:MessageInfo><eb:Timestamp>2025-01-02T03:04:05.006Z</eb:Timestamp><eb:MessageId>s2@b</eb:MessageId></eb:MessageInfo><eb:PullRequest mpc=\"urn:ch\"></eb:PullRequest></eb:SignalMessage></eb:Messaging></S:Header><S:Body></S:Body></S:Envelope>";

/// Words, the calls that fail, and the status and the line at the end.
const FAULTS: [(&str, Failing, u8, &str); 11] = [
    ("answer 0 1", READ_FAILS, 3, "read fault\n"),
    ("check", READ_FAILS, 3, "read fault\n"),
    ("drill", READ_FAILS, 3, "read fault\n"),
    ("check", WRITE_FAILS, 4, "write fault\n"),
    ("--help", WRITE_FAILS, 4, "write fault\n"),
    ("--version", WRITE_FAILS, 4, "write fault\n"),
    ("drill --generate 0 0", WRITE_FAILS, 4, "write fault\n"),
    ("drill", NOTHING_FAILS, 2, "line 1\n"),
    ("answer 0 1", NOTHING_FAILS, 7, "not a user message\n"),
    ("answer 0 1", TELL_FAILS, 7, ""),
    ("answer 0", TELL_FAILS, 64, ""),
];

/// The first row with another end, or with any output.
fn first_other_fault(alloc: Global, rows: &[(&str, Failing, u8, &str)]) -> Option<usize> {
    for (at, (line, failing, status, told)) in rows.iter().enumerate() {
        let wanted = (*status, b"".as_slice(), told.as_bytes());
        if !ends(alloc, line, PULL.as_bytes(), *failing, wanted) {
            return Some(at);
        }
    }
    None
}

#[test]
fn each_fault_has_its_status(rt: HostRuntime) {
    assert_eq!(rt; first_other_fault(rt.alloc(), &FAULTS), None);
}

/// Whether the status has this number, and sends just this to a sink whose given write fails.
fn is_told(alloc: Global, status: Status, failing: u64, code: u8, told: &str) -> bool {
    let Ok(mut errors) = sink(alloc, failing) else {
        return false;
    };
    status.tell(&mut errors);
    status.code() == code && errors.bytes() == told.as_bytes()
}

const STATUSES: [(Status, u8, &str); 15] = [
    (Status::Done, 0, ""),
    (Status::Refused, 1, ""),
    (
        Status::WrongLine {
            number: 18_446_744_073_709_551_615,
        },
        2,
        "line 18446744073709551615\n",
    ),
    (Status::WrongLine { number: 1 }, 2, "line 1\n"),
    (Status::ReadFault, 3, "read fault\n"),
    (Status::WriteFault, 4, "write fault\n"),
    (Status::NoMemory, 5, "no memory\n"),
    (Status::TooManyEvents, 6, "more than 100000 events\n"),
    (Status::NotUser, 7, "not a user message\n"),
    (Status::ModesRefused, 8, "modes refused\n"),
    (Status::HostFault, 9, "host fault\n"),
    (
        Status::NotJournal { at: 1_073_741_824 },
        10,
        "not a journal at 1073741824\n",
    ),
    (Status::TooLong, 11, "input too long\n"),
    (Status::BadResponse, 12, "bad response\n"),
    (Status::BadWords, 64, "bad words\n"),
];

/// The first of these statuses with another number or another line.
fn first_other_status(alloc: Global, rows: &[(Status, u8, &str)]) -> Option<usize> {
    for (at, (status, code, told)) in rows.iter().enumerate() {
        if !is_told(alloc, *status, 0, *code, told) {
            return Some(at);
        }
    }
    None
}

#[test]
fn each_status_has_its_number_and_line(rt: HostRuntime) {
    assert_eq!(rt; first_other_status(rt.alloc(), &STATUSES), None);
}

/// The number of the write that fails, and what was sent of the line for a wrong script line.
const FRONTS: [(u64, &str); 4] = [(1, ""), (2, "line "), (3, "line 12"), (4, "line 12\n")];

/// The first row with another text.
fn first_other_front(alloc: Global, rows: &[(u64, &str)]) -> Option<usize> {
    let status = Status::WrongLine { number: 12 };
    for (at, (failing, told)) in rows.iter().enumerate() {
        if !is_told(alloc, status, *failing, 2, told) {
            return Some(at);
        }
    }
    None
}

#[test]
fn a_line_is_told_up_to_a_fault(rt: HostRuntime) {
    assert_eq!(rt; first_other_front(rt.alloc(), &FRONTS), None);
}

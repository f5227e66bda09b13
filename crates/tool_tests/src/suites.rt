//! The conformance suite, and drills that are drawn.

use crate::ended::{NOTHING_FAILS, begins_over, count_over, ends, host_of, words_of};
use std::alloc::Global;

/// The bytes and the lines that the run of this line's words writes, if it ends with success.
fn written(alloc: Global, line: &str) -> Option<usize> {
    let mut host = host_of(alloc, &[])?;
    let words = words_of(alloc, line).ok()?;
    count_over(alloc, &words, &mut host)
}

/// One of the 580 lines has a line end of its channel's name.
#[test]
fn a_suite_writes_a_line_for_each_message(rt: HostRuntime) {
    assert_eq!(rt; written(rt.alloc(), "suite"), Some(581));
}

#[test]
fn a_suite_is_verified_row_by_row(rt: HostRuntime) {
    assert_eq!(rt; written(rt.alloc(), "suite --verify"), Some(840));
}

/// Whether the output of the run of this line's words, with this input, begins so.
fn begins(alloc: Global, line: &str, input: &[u8], front: &[u8]) -> Option<bool> {
    let mut host = host_of(alloc, &[])?;
    let words = words_of(alloc, line).ok()?;
    Some(begins_over(alloc, &words, input, &mut host, (0, front, b"")))
}

/// The first row of the listed messages.
const LISTED: &[u8] = b"media-of-an-envelope 20 373 7\napplication/soap+xml<s:Envelope ";

#[test]
fn a_suite_is_listed(rt: HostRuntime) {
    assert_eq!(rt; begins(rt.alloc(), "suite --list", b"", LISTED), Some(true));
}

#[test]
fn a_drill_is_drawn(rt: HostRuntime) {
    let script = b"mode m push 3 1000\nsubmit a m none\n";
    assert_eq!(rt;
        begins(rt.alloc(), "drill --draw", script, b"<svg "),
        Some(true)
    );
}

#[test]
fn a_script_with_a_wrong_line_is_not_drawn(rt: HostRuntime) {
    let script = b"take a\nhello\n";
    let wanted = (2, b"".as_slice(), b"line 2\n".as_slice());
    assert!(rt; ends(rt.alloc(), "drill --draw", script, NOTHING_FAILS, wanted));
}

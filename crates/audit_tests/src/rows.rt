//! Leaves that were typed by hand.
use crate::said::{Said, found_of, said_of};
use std::alloc::Global;

/// A tick to 1,000.
const TICK_1000: [u8; 29] = *b"AS4JNL2\n\x01\0\0\0\0\0\0\0\x0b\0\x01\x02\0\0\0\0\0\0\x03\xe8\0";

/// A tick to 1,000, and a second one to the same moment.
const TICK_TWICE: [u8; 49] =
    *b"AS4JNL2\n\x01\0\0\0\0\0\0\0\x0b\0\x01\x02\0\0\0\0\0\0\x03\xe8\x01\0\0\0\0\0\0\0\x0b\0\x01\x02\0\0\0\0\0\0\x03\xe8\0";

/// A tick to 1,000, in version 1.
const OLD_TICK: [u8; 25] = *b"AS4JNL1\n\x01\0\0\0\x0b\0\x01\x02\0\0\0\0\0\0\x03\xe8\0";

/// A try of the first submission, of which there is none.
const TRIED: [u8; 29] = *b"AS4JNL2\n\x01\0\0\0\0\0\0\0\x0b\0\x01\x03\0\0\0\0\0\0\0\0\0";

/// A body that is none of effects.
const NO_BODY: [u8; 20] = *b"AS4JNL2\n\x01\0\0\0\0\0\0\0\x02\0\0\0";

/// A tick to 1,000, and then the first bytes of a record.
const CUT_SHORT: [u8; 31] =
    *b"AS4JNL2\n\x01\0\0\0\0\0\0\0\x0b\0\x01\x02\0\0\0\0\0\0\x03\xe8\x01\0\0";

/// All of these, and no bytes.
const ALL: &[&[u8]] = &[
    &TICK_1000,
    &TICK_TWICE,
    &OLD_TICK,
    &TRIED,
    &NO_BODY,
    &CUT_SHORT,
    b"7777777777",
    b"",
];

/// The number of leaves of which `check` finds what `audit` says.
fn agreed(alloc: Global, leaves: &[&[u8]]) -> usize {
    let mut count: usize = 0;
    for leaf in leaves {
        let said = said_of(alloc, leaf);
        if said.is_some() && said == found_of(alloc, leaf) {
            count = count.saturating_add(1);
        }
    }
    count
}

#[test]
fn check_finds_what_audit_says(rt: HostRuntime) {
    assert!(rt; agreed(rt.alloc(), ALL) == 8);
}

#[test]
fn a_tick_is_made(rt: HostRuntime) {
    assert!(rt; said_of(rt.alloc(), &TICK_1000) == Some(Said::Yes(0, 1)));
}

#[test]
fn a_tick_is_made_in_an_old_leaf(rt: HostRuntime) {
    assert!(rt; said_of(rt.alloc(), &OLD_TICK) == Some(Said::Yes(0, 1)));
}

#[test]
fn a_second_tick_to_the_same_moment_is_not(rt: HostRuntime) {
    assert!(rt; said_of(rt.alloc(), &TICK_TWICE) == Some(Said::No(1)));
}

#[test]
fn a_try_of_no_submission_is_not(rt: HostRuntime) {
    assert!(rt; said_of(rt.alloc(), &TRIED) == Some(Said::No(0)));
}

#[test]
fn a_body_of_no_effects_is_not(rt: HostRuntime) {
    assert!(rt; said_of(rt.alloc(), &NO_BODY) == Some(Said::No(0)));
}

#[test]
fn ten_bytes_of_no_journal_are_refused(rt: HostRuntime) {
    assert!(rt; said_of(rt.alloc(), b"7777777777") == Some(Said::NotJournal(0)));
}

#[test]
fn a_record_that_is_cut_short_is_refused(rt: HostRuntime) {
    assert!(rt; said_of(rt.alloc(), &CUT_SHORT) == Some(Said::NotJournal(28)));
}

#[test]
fn an_empty_leaf_has_no_events(rt: HostRuntime) {
    assert!(rt; said_of(rt.alloc(), b"") == Some(Said::Yes(0, 0)));
}

//! The host and the port of an address, and the time that a stream has left.
use host_adapters::{place_of, time_left};
use std::time::Duration;

/// An address, its host and its port.
static PLACES: [(&str, Option<(&str, u16)>); 12] = [
    ("http://h/", Some(("h", 80))),
    ("http://h", Some(("h", 80))),
    (
        "http://as4.example:8080/in?a:b",
        Some(("as4.example", 8080)),
    ),
    ("http://127.0.0.1:65535", Some(("127.0.0.1", 65_535))),
    ("http://[::1]:8080/", Some(("::1", 8080))),
    ("http://[::1]/", Some(("::1", 80))),
    ("[::1]", Some(("::1", 80))),
    ("h:1", Some(("h", 1))),
    ("h:0", Some(("h", 0))),
    ("h:65536", None),
    ("h:", None),
    ("h:x", None),
];

fn first_other_place() -> Option<usize> {
    PLACES
        .iter()
        .position(|(address, place)| place_of(address) != *place)
}

#[test]
fn an_address_has_a_host_and_a_port(rt: HostRuntime) {
    assert_eq!(rt; first_other_place(), None);
}

/// Milliseconds that a stream took, the bytes that moved, and the milliseconds that it has left.
static TIMES: [(u64, u64, u64); 8] = [
    (0, 0, 60_000),
    (59_999, 0, 1),
    (60_000, 16_383, 0),
    (60_000, 16_384, 1_000),
    (61_000, 16_384, 0),
    (10_000, 1 << 24, 60_000),
    (1_083_000, 1 << 24, 1_000),
    (1_084_000, 1 << 24, 0),
];

fn first_other_time() -> Option<usize> {
    TIMES.iter().position(|(spent, moved, left)| {
        time_left(Duration::from_millis(*spent), *moved) != Duration::from_millis(*left)
    })
}

#[test]
fn a_stream_has_time_left(rt: HostRuntime) {
    assert_eq!(rt; first_other_time(), None);
}

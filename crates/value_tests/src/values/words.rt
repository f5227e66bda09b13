//! How identifiers and codes are read.
use super::letters;
use as4_values::{Code, IdRefusal, MessageId};
use std::alloc::Global;

/// How bytes are read.
#[derive(Clone, Copy)]
enum Kind {
    Id,
    Code,
}

/// Whether the bytes are refused as this kind at this place, or are read if there is none.
fn is_refused_at(alloc: Global, kind: Kind, bytes: &[u8], place: Option<usize>) -> bool {
    let refusal = match kind {
        Kind::Id => MessageId::read(alloc, bytes).err(),
        Kind::Code => Code::read(alloc, bytes).err(),
    };
    match (refusal, place) {
        (None, None) => true,
        (Some(IdRefusal::BadId { at }), Some(place)) => at == place,
        _ => false,
    }
}

/// Bytes, and the place where they are refused.
type Row = (&'static [u8], Option<usize>);

/// The first row whose bytes aren't refused at its place.
fn first_other(alloc: Global, kind: Kind, rows: &[Row]) -> Option<usize> {
    for (row, (bytes, place)) in rows.iter().enumerate() {
        if !is_refused_at(alloc, kind, bytes, *place) {
            return Some(row);
        }
    }
    None
}

/// Bytes, the number of letters and further bytes, and the place where they are refused.
type LongRow = (&'static [u8], usize, &'static [u8], Option<usize>);

/// Whether the bytes of the row are refused at its place.
fn is_long_refused(alloc: Global, kind: Kind, row: &LongRow) -> bool {
    let (front, count, back, place) = row;
    match letters(alloc, front, *count, back) {
        Ok(bytes) => is_refused_at(alloc, kind, bytes.as_slice(), *place),
        Err(_) => false,
    }
}

/// The first such row whose bytes aren't refused at its place.
fn first_other_long(alloc: Global, kind: Kind, rows: &[LongRow]) -> Option<usize> {
    for (at, row) in rows.iter().enumerate() {
        if !is_long_refused(alloc, kind, row) {
            return Some(at);
        }
    }
    None
}

/// The first byte that by itself is of the kind but not among these, or conversely.
fn first_other_byte(alloc: Global, kind: Kind, allowed: &[u8]) -> Option<u8> {
    for byte in 0..=255 {
        let place = if allowed.contains(&byte) {
            None
        } else {
            Some(0)
        };
        if !is_refused_at(alloc, kind, &[byte], place) {
            return Some(byte);
        }
    }
    None
}

const IDS: [Row; 30] = [
    (b"m1@a", None),
    (b"!", None),
    (b"~", None),
    (b"a.b-c_d+e/f=g?h{i}j|k", None),
    (b"\"q\"@[1]", None),
    (b"&amp;", None),
    (b"%20", None),
    (b"a\\b", None),
    (b"", Some(0)),
    (b" ", Some(0)),
    (b"a b", Some(1)),
    (b" a", Some(0)),
    (b"a ", Some(1)),
    (b"a\tb", Some(1)),
    (b"a\n", Some(1)),
    (b"a\r\n", Some(1)),
    (b"\x00", Some(0)),
    (b"a\x1f", Some(1)),
    (b"a\x7f", Some(1)),
    (b"a\x80", Some(1)),
    (b"a\xff", Some(1)),
    (b"<", Some(0)),
    (b">", Some(0)),
    (b"<m1@a>", Some(0)),
    (b"m1@a>", Some(4)),
    (b"m<1", Some(1)),
    (b"\xc3\xa9", Some(0)),
    (b"ab\xe2\x82\xac", Some(2)),
    (b"\xef\xbf\xbd", Some(0)),
    (b"a>b<c d", Some(1)),
];

#[test]
fn an_identifier_stops_at_its_first_wrong_byte(rt: HostRuntime) {
    let other = first_other(rt.alloc(), Kind::Id, &IDS);
    assert_eq!(rt; other, None);
}

const LONG_IDS: [LongRow; 15] = [
    (b"", 1, b"", None),
    (b"", 254, b"", None),
    (b"", 255, b"", None),
    (b"", 256, b"", Some(255)),
    (b"", 280, b" ", Some(255)),
    (b"", 255, b" ", Some(255)),
    (b"", 254, b" ", Some(254)),
    (b"", 254, b"<", Some(254)),
    (b"", 255, b"<", Some(255)),
    (b"", 254, b">a", Some(254)),
    (b"<", 300, b"", Some(0)),
    (b" ", 254, b"", Some(0)),
    (b"", 3, b"<", Some(3)),
    (b"", 254, b"~", None),
    (b"", 65536, b"", Some(255)),
];

#[test]
fn an_identifier_stops_at_its_limit(rt: HostRuntime) {
    let other = first_other_long(rt.alloc(), Kind::Id, &LONG_IDS);
    assert_eq!(rt; other, None);
}

/// The bytes of identifiers.
const ID_BYTES: &[u8] =
    b"!\"#$%&'()*+,-./0123456789:;=?@ABCDEFGHIJKLMNOPQRSTUVWXYZ[\\]^_`abcdefghijklmnopqrstuvwxyz{|}~";

#[test]
fn an_identifier_of_each_byte_alone(rt: HostRuntime) {
    assert_eq!(rt; first_other_byte(rt.alloc(), Kind::Id, ID_BYTES), None);
}

const CODES: [Row; 27] = [
    (b"EBMS:0006", None),
    (b"!", None),
    (b"~", None),
    (b"<", None),
    (b">", None),
    (b"<x>", None),
    (b"a&b\"c'", None),
    (b"%5C\\", None),
    (b"", Some(0)),
    (b" ", Some(0)),
    (b"EBMS 0006", Some(4)),
    (b" x", Some(0)),
    (b"x ", Some(1)),
    (b"x\t", Some(1)),
    (b"\nx", Some(0)),
    (b"x\r", Some(1)),
    (b"\x00", Some(0)),
    (b"x\x1f", Some(1)),
    (b"x\x7f", Some(1)),
    (b"x\x80", Some(1)),
    (b"x\xff", Some(1)),
    (b"\x0b", Some(0)),
    (b"\xc3\xa9", Some(0)),
    (b"xy\xe2\x82\xac", Some(2)),
    (b"\xf0\x9f\x98\x80", Some(0)),
    (b"EBMS:0006\n", Some(9)),
    (b"a b c", Some(1)),
];

#[test]
fn a_code_stops_at_its_first_wrong_byte(rt: HostRuntime) {
    let other = first_other(rt.alloc(), Kind::Code, &CODES);
    assert_eq!(rt; other, None);
}

const LONG_CODES: [LongRow; 15] = [
    (b"", 1, b"", None),
    (b"", 63, b"", None),
    (b"", 64, b"", None),
    (b"", 65, b"", Some(64)),
    (b"", 80, b" ", Some(64)),
    (b"", 64, b" ", Some(64)),
    (b"", 63, b" ", Some(63)),
    (b"", 63, b"<", None),
    (b"", 64, b"\x80", Some(64)),
    (b"", 62, b"  ", Some(62)),
    (b" ", 63, b"", Some(0)),
    (b" ", 80, b"", Some(0)),
    (b"", 63, b"~", None),
    (b"", 255, b"", Some(64)),
    (b"", 65536, b"", Some(64)),
];

#[test]
fn a_code_stops_at_its_limit(rt: HostRuntime) {
    let other = first_other_long(rt.alloc(), Kind::Code, &LONG_CODES);
    assert_eq!(rt; other, None);
}

/// The bytes of codes.
const CODE_BYTES: &[u8] =
    b"!\"#$%&'()*+,-./0123456789:;<=>?@ABCDEFGHIJKLMNOPQRSTUVWXYZ[\\]^_`abcdefghijklmnopqrstuvwxyz{|}~";

#[test]
fn a_code_of_each_byte_alone(rt: HostRuntime) {
    assert_eq!(rt; first_other_byte(rt.alloc(), Kind::Code, CODE_BYTES), None);
}

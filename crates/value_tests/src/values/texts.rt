//! How texts are read.
use super::letters;
use as4_values::{Text, TextRefusal};
use std::alloc::Global;

/// Whether the bytes are refused as a text at this place, or are read if there is none.
fn is_refused_at(alloc: Global, bytes: &[u8], place: Option<usize>) -> bool {
    match (Text::read(alloc, bytes).err(), place) {
        (None, None) => true,
        (Some(TextRefusal::BadText { at }), Some(place)) => at == place,
        _ => false,
    }
}

/// The first row whose bytes aren't refused at its place.
fn first_other(alloc: Global, rows: &[(&[u8], usize)]) -> Option<usize> {
    for (row, (bytes, at)) in rows.iter().enumerate() {
        if !is_refused_at(alloc, bytes, Some(*at)) {
            return Some(row);
        }
    }
    None
}

/// Whether these bytes are read as this text.
fn is_read_as(alloc: Global, bytes: &[u8], text: &[u8]) -> Option<bool> {
    let read = Text::read(alloc, bytes).ok()?;
    let is_same = read.bytes() == text;
    drop(read);
    Some(is_same)
}

/// Bytes, and the text between their blanks.
const TEXTS: [(&[u8], &[u8]); 28] = [
    (b"x", b"x"),
    (b" x ", b"x"),
    (b" x", b"x"),
    (b"x ", b"x"),
    (b"\tx", b"x"),
    (b"x\t", b"x"),
    (b"\nx", b"x"),
    (b"x\n", b"x"),
    (b"\rx", b"x"),
    (b"x\r", b"x"),
    (b"\r\n\t x y \t\n\r", b"x y"),
    (b"x\ty", b"x\ty"),
    (b"x\r\ny", b"x\r\ny"),
    (b"a<b&c\"d'", b"a<b&c\"d'"),
    (b"\x7f", b"\x7f"),
    (b"\xc2\x80", b"\xc2\x80"),
    (b"\xdf\xbf", b"\xdf\xbf"),
    (b"\xe0\xa0\x80", b"\xe0\xa0\x80"),
    (b"\xed\x9f\xbf", b"\xed\x9f\xbf"),
    (b"\xee\x80\x80", b"\xee\x80\x80"),
    (b"\xef\xbf\xbd", b"\xef\xbf\xbd"),
    (b"\xf0\x90\x80\x80", b"\xf0\x90\x80\x80"),
    (b"\xf0\x9f\xbf\xbe", b"\xf0\x9f\xbf\xbe"),
    (b"\xf4\x8f\xbf\xbf", b"\xf4\x8f\xbf\xbf"),
    (b" \xef\xbf\xbd ", b"\xef\xbf\xbd"),
    (b"\xc2\xa0x\xc2\xa0", b"\xc2\xa0x\xc2\xa0"),
    (b"\xe2\x80\x83x", b"\xe2\x80\x83x"),
    (b"\xc2\x85x\xe2\x80\xa8", b"\xc2\x85x\xe2\x80\xa8"),
];

/// The first row with another text.
fn first_other_text(alloc: Global) -> Option<usize> {
    for (row, (bytes, text)) in TEXTS.iter().enumerate() {
        if is_read_as(alloc, bytes, text) != Some(true) {
            return Some(row);
        }
    }
    None
}

#[test]
fn what_stands_between_blanks_is_read(rt: HostRuntime) {
    assert_eq!(rt; first_other_text(rt.alloc()), None);
}

/// Bytes, and the place of the first character that a text may not contain.
const FORBIDDEN: [(&[u8], usize); 20] = [
    (b"", 0),
    (b" ", 1),
    (b"  ", 2),
    (b"\t\n\r ", 4),
    (b"\x00", 0),
    (b"a\x00", 1),
    (b"\x08x", 0),
    (b"x\x0b", 1),
    (b" \x0c ", 1),
    (b"\x0e", 0),
    (b"x y\x1f", 3),
    (b"\xef\xbf\xbe", 0),
    (b"\xef\xbf\xbf", 0),
    (b"ab\xef\xbf\xbe", 2),
    (b"\xef\xbf\xbd\xef\xbf\xbf", 3),
    (b"a\x00\xff", 1),
    (b"a\xff\x00", 1),
    (b"  \xff", 2),
    (b"\xc3\xa9\x01", 2),
    (b"x \x00", 2),
];

#[test]
fn a_character_that_xml_forbids_is_named(rt: HostRuntime) {
    let other = first_other(rt.alloc(), &FORBIDDEN);
    assert_eq!(rt; other, None);
}

/// Bytes, and the first place that isn't UTF-8.
const BROKEN: [(&[u8], usize); 31] = [
    (b"\x80", 0),
    (b"a\xbf", 1),
    (b"\xc3\xa9\x80", 2),
    (b"\xc0\x80", 0),
    (b"\xc1\xbf", 0),
    (b"\xe0\x80\x80", 0),
    (b"\xe0\x9f\xbf", 0),
    (b"\xf0\x80\x80\x80", 0),
    (b"\xf0\x8f\xbf\xbf", 0),
    (b"\xed\xa0\x80", 0),
    (b"\xed\xbf\xbf", 0),
    (b"a\xed\xa0\x80", 1),
    (b"\xf4\x90\x80\x80", 0),
    (b"\xf5\x80\x80\x80", 0),
    (b"\xfe", 0),
    (b"\xff", 0),
    (b"\xf0\x9f\x98\x80\xff", 4),
    (b"\xc3", 0),
    (b"a\xc3", 1),
    (b"\xe2", 0),
    (b"\xe2\x82", 0),
    (b"a\xe2\x82", 1),
    (b"\xf0", 0),
    (b"\xf0\x90", 0),
    (b"\xf0\x90\x80", 0),
    (b"\xc3(", 0),
    (b"\xe2(\xa1", 0),
    (b"\xe2\x82(", 0),
    (b"\xf0(\x8c\xbc", 0),
    (b"\xf0\x90(\x80", 0),
    (b"\xf0\x90\x80(", 0),
];

#[test]
fn a_broken_sequence_is_named_by_its_first_byte(rt: HostRuntime) {
    let other = first_other(rt.alloc(), &BROKEN);
    assert_eq!(rt; other, None);
}

/// The bytes that are a text by themselves.
const ALLOWED: &[u8] =
    b"!\"#$%&'()*+,-./0123456789:;<=>?@ABCDEFGHIJKLMNOPQRSTUVWXYZ[\\]^_`abcdefghijklmnopqrstuvwxyz{|}~\x7f";

/// The first byte that by itself isn't refused at its place.
fn first_other_byte(alloc: Global) -> Option<u8> {
    for byte in 0..=255 {
        let place = if ALLOWED.contains(&byte) {
            None
        } else if b" \t\n\r".contains(&byte) {
            Some(1)
        } else {
            Some(0)
        };
        if !is_refused_at(alloc, &[byte], place) {
            return Some(byte);
        }
    }
    None
}

#[test]
fn each_byte_alone(rt: HostRuntime) {
    assert_eq!(rt; first_other_byte(rt.alloc()), None);
}

/// Bytes, the number of letters and further bytes, and the place where they are refused.
type LongRow = (&'static [u8], usize, &'static [u8], Option<usize>);

const LONG: [LongRow; 7] = [
    (b"", 65_536, b"", None),
    (b"", 65_537, b"", Some(65_536)),
    (b" \t", 65_536, b"\n ", None),
    (b" \t", 65_537, b"\n ", Some(65_538)),
    (b"", 65_537, b"\x00", Some(65_537)),
    (b"", 65_535, b"\xc3\xa9", Some(65_536)),
    (b"", 65_535, b"\xc3", Some(65_535)),
];

/// Whether the bytes of the row are refused at its place.
fn is_long_refused(alloc: Global, row: &LongRow) -> bool {
    let (front, count, back, place) = row;
    match letters(alloc, front, *count, back) {
        Ok(bytes) => is_refused_at(alloc, bytes.as_slice(), *place),
        Err(_) => false,
    }
}

/// The first such row whose bytes aren't refused at its place.
fn first_other_long(alloc: Global) -> Option<usize> {
    for (at, row) in LONG.iter().enumerate() {
        if !is_long_refused(alloc, row) {
            return Some(at);
        }
    }
    None
}

#[test]
fn a_text_has_at_most_65536_bytes(rt: HostRuntime) {
    assert_eq!(rt; first_other_long(rt.alloc()), None);
}

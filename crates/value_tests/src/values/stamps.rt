//! How stamps are written and read.
use as4_values::{MAX_MOMENT, StampRefusal, is_moment_stamp, read_stamp, stamp_text};
use std::alloc::Global;

/// A moment's stamp, and one with an offset.
const IN_UTC: &[u8] = b"2025-01-02T03:04:05.006Z";

const AHEAD: &[u8] = b"2025-01-02T03:04:05+06:07";

/// Whether the bytes are refused as a stamp at this place, or are read if there is none.
fn is_refused_at(alloc: Global, bytes: &[u8], place: Option<usize>) -> bool {
    match (read_stamp(alloc, bytes).err(), place) {
        (None, None) => true,
        (Some(StampRefusal::BadStamp { at }), Some(place)) => at == place,
        _ => false,
    }
}

/// The first row whose bytes aren't refused at its place.
fn first_other(alloc: Global, rows: &[(&[u8], usize)]) -> Option<usize> {
    for (row, (bytes, at)) in rows.iter().enumerate() {
        if !is_refused_at(alloc, bytes, Some(*at)) {
            return Some(row);
        }
    }
    None
}

/// Whether the moment has this stamp.
fn has_stamp(alloc: Global, ms: u64, text: &[u8]) -> Option<bool> {
    if MAX_MOMENT < ms {
        return None;
    }
    let stamp = stamp_text(alloc, ms).ok()?;
    let is_same = stamp.bytes() == text;
    drop(stamp);
    Some(is_same)
}

/// Moments and their stamps.
const MOMENTS: [(u64, &[u8]); 5] = [
    (0, b"1970-01-01T00:00:00.000Z"),
    (951_827_696_789, b"2000-02-29T12:34:56.789Z"),
    (1_735_787_045_006, b"2025-01-02T03:04:05.006Z"),
    (1_735_787_045_007, b"2025-01-02T03:04:05.007Z"),
    (253_402_300_799_999, b"9999-12-31T23:59:59.999Z"),
];

/// The first moment that has another stamp.
fn first_other_moment(alloc: Global) -> Option<u64> {
    for (ms, text) in MOMENTS {
        if has_stamp(alloc, ms, text) != Some(true) {
            return Some(ms);
        }
    }
    None
}

#[test]
fn a_moment_has_its_stamp(rt: HostRuntime) {
    assert_eq!(rt; first_other_moment(rt.alloc()), None);
}

/// Whether the bytes are read as a stamp that keeps them.
fn is_kept(alloc: Global, bytes: &[u8]) -> Option<bool> {
    let stamp = read_stamp(alloc, bytes).ok()?;
    let is_same = stamp.bytes() == bytes;
    drop(stamp);
    Some(is_same)
}

const STAMPS: [&[u8]; 37] = [
    b"2024-02-29T00:00:00",
    b"1900-01-01T00:00:00",
    b"0001-01-01T00:00:00",
    b"9999-12-31T23:59:59",
    b"1969-12-31T23:59:59Z",
    b"2000-02-29T00:00:00",
    b"2023-02-28T00:00:00",
    b"2025-01-31T00:00:00",
    b"2025-02-28T00:00:00",
    b"2025-03-31T00:00:00",
    b"2025-04-30T00:00:00",
    b"2025-05-31T00:00:00",
    b"2025-06-30T00:00:00",
    b"2025-07-31T00:00:00",
    b"2025-08-31T00:00:00",
    b"2025-09-30T00:00:00",
    b"2025-10-31T00:00:00",
    b"2025-11-30T00:00:00",
    b"2025-12-31T00:00:00",
    b"2025-01-02T23:00:00",
    b"2025-01-02T00:59:00",
    b"2025-01-02T00:00:59",
    b"2025-01-02T03:04:05.0",
    b"2025-01-02T03:04:05.9",
    b"2025-01-02T03:04:05.12",
    b"2025-01-02T03:04:05.123456789",
    b"2025-01-02T03:04:05.000000000Z",
    b"2025-01-02T03:04:05.006Z",
    b"2025-01-02T03:04:05Z",
    b"2025-01-02T03:04:05+00:00",
    b"2025-01-02T03:04:05-00:00",
    b"2025-01-02T03:04:05+14:00",
    b"2025-01-02T03:04:05-14:00",
    b"2025-01-02T03:04:05+13:59",
    b"2025-01-02T03:04:05-13:59",
    b"2025-01-02T03:04:05.5+05:30",
    b"2025-01-02T03:04:05.123456789-14:00",
];

/// The first row that isn't kept.
fn first_lost(alloc: Global) -> Option<usize> {
    for (row, bytes) in STAMPS.iter().enumerate() {
        if is_kept(alloc, bytes) != Some(true) {
            return Some(row);
        }
    }
    None
}

#[test]
fn a_stamp_is_read_as_it_stands(rt: HostRuntime) {
    assert_eq!(rt; first_lost(rt.alloc()), None);
}

/// Stamps with a field out of range, and the place of the first such field.
const WRONG_FIELDS: [(&[u8], usize); 35] = [
    (b"0000-01-01T00:00:00", 0),
    (b"0000-13-01T00:00:00", 0),
    (b"0000-00-00T24:60:60Z", 0),
    (b"2025-00-02T03:04:05", 5),
    (b"2025-13-02T03:04:05", 5),
    (b"2025-99-99T03:04:05", 5),
    (b"2025-00-00T24:00:00", 5),
    (b"2025-01-00T03:04:05", 8),
    (b"2025-01-32T00:00:00", 8),
    (b"2025-02-29T00:00:00", 8),
    (b"2025-02-30T00:00:00", 8),
    (b"2023-02-29T00:00:00", 8),
    (b"1900-02-29T00:00:00", 8),
    (b"2100-02-29T00:00:00", 8),
    (b"2000-02-30T00:00:00", 8),
    (b"2024-02-30T00:00:00", 8),
    (b"2025-03-32T00:00:00", 8),
    (b"2025-04-31T00:00:00", 8),
    (b"2025-05-32T00:00:00", 8),
    (b"2025-06-31T00:00:00", 8),
    (b"2025-07-32T00:00:00", 8),
    (b"2025-08-32T00:00:00", 8),
    (b"2025-09-31T00:00:00", 8),
    (b"2025-10-32T00:00:00", 8),
    (b"2025-11-31T00:00:00", 8),
    (b"2025-12-32T00:00:00", 8),
    (b"2025-12-99T00:00:00", 8),
    (b"2025-02-29T00:00:00Z", 8),
    (b"2025-01-02T24:00:00", 11),
    (b"2025-01-02T99:00:00", 11),
    (b"2025-01-02T24:60:60", 11),
    (b"2025-01-02T03:60:05", 14),
    (b"2025-01-02T03:60:60", 14),
    (b"2025-01-02T03:04:60", 17),
    (b"2025-01-02T23:59:60Z", 17),
];

#[test]
fn the_first_field_out_of_range_is_named(rt: HostRuntime) {
    let other = first_other(rt.alloc(), &WRONG_FIELDS);
    assert_eq!(rt; other, None);
}

/// Stamps with an offset out of range, and its place.
const WRONG_OFFSETS: [(&[u8], usize); 12] = [
    (b"2025-01-01T00:00:00+14:30", 23),
    (b"2025-01-01T00:00:00+14:01", 23),
    (b"2025-01-01T00:00:00-14:01", 23),
    (b"2025-01-01T00:00:00+15:00", 20),
    (b"2025-01-01T00:00:00-15:00", 20),
    (b"2025-01-01T00:00:00+99:99", 20),
    (b"2025-01-01T00:00:00+00:60", 23),
    (b"2025-01-01T00:00:00-00:60", 23),
    (b"2025-01-01T00:00:00+14:60", 23),
    (b"2025-01-01T00:00:00.5+15:00", 22),
    (b"2025-01-01T00:00:00.123456789+14:01", 33),
    (b"2025-01-01T00:00:60+15:00", 17),
];

#[test]
fn an_offset_is_at_most_fourteen_hours(rt: HostRuntime) {
    let other = first_other(rt.alloc(), &WRONG_OFFSETS);
    assert_eq!(rt; other, None);
}

/// Malformed stamps, and the first place that fits no form.
const WRONG_FORMS: [(&[u8], usize); 38] = [
    (b"", 0),
    (b" 2025-01-01T00:00:00", 0),
    (b"2025-01-01T00:00:00 ", 19),
    (b"x", 0),
    (b"2025", 4),
    (b"2025-01-01", 10),
    (b"2025-01-01T00:00", 16),
    (b"2025-01-01T00:00Z", 16),
    (b"2025-1-01T00:00:00", 6),
    (b"-2025-01-01T00:00:00", 0),
    (b"+2025-01-01T00:00:00", 0),
    (b"12025-01-01T00:00:00", 4),
    (b"20250101T000000Z", 4),
    (b"2025-01-01 00:00:00", 10),
    (b"2025-01-01t00:00:00", 10),
    (b"2025-01-01T00:00:00z", 19),
    (b"2025-01-01T00:00:00,5", 19),
    (b"2025-01-01T00:00:00.", 20),
    (b"2025-01-01T00:00:00.Z", 20),
    (b"2025-01-01T00:00:00.+00:00", 20),
    (b"2025-01-01T00:00:00..5", 20),
    (b"2025-01-01T00:00:00.1234567890", 29),
    (b"2025-01-01T00:00:00.1234567890Z", 29),
    (b"2025-01-01T00:00:00.5x", 21),
    (b"2025-01-01T00:00:00.5.5", 21),
    (b"2025-01-01T00:00:00ZZ", 20),
    (b"2025-01-01T00:00:00Z+00:00", 20),
    (b"2025-01-01T00:00:00+0:00", 21),
    (b"2025-01-01T00:00:00+0000", 22),
    (b"2025-01-01T00:00:00+00", 22),
    (b"2025-01-01T00:00:00+00:0", 24),
    (b"2025-01-01T00:00:00+00:000", 25),
    (b"2025-01-01T00:00:00+00:00Z", 25),
    (b"2025-01-01T00:00:00GMT", 19),
    (b"2025-01-01T00:00:000", 19),
    (b"2025-13-01T00:00:00x", 19),
    (b"9999-99-99T99:99:99.x", 20),
    (b"2025-01-01T00:00:00+99:9x", 24),
];

#[test]
fn the_first_byte_that_fits_no_form_is_named(rt: HostRuntime) {
    let other = first_other(rt.alloc(), &WRONG_FORMS);
    assert_eq!(rt; other, None);
}

/// Whether the stamp with an `x` at this place is refused for it.
fn is_refused_with_x(alloc: Global, stamp: &[u8], at: usize) -> bool {
    let Ok(mut bytes) = Vec::from_slice(alloc, stamp) else {
        return false;
    };
    if let Some(byte) = bytes.get_mut(at) {
        *byte = b'x';
    }
    is_refused_at(alloc, bytes.as_slice(), Some(at))
}

/// The first place of the stamp where an `x` isn't refused.
fn first_free(alloc: Global, stamp: &[u8]) -> Option<usize> {
    for at in 0..stamp.len() {
        if !is_refused_with_x(alloc, stamp, at) {
            return Some(at);
        }
    }
    None
}

#[test]
fn each_byte_of_a_stamp_counts(rt: HostRuntime) {
    let free = (
        first_free(rt.alloc(), IN_UTC),
        first_free(rt.alloc(), AHEAD),
    );
    assert_eq!(rt; free, (None, None));
}

/// The first length at which a prefix of the stamp is a stamp without being among these lengths, or conversely.
fn first_other_end(alloc: Global, stamp: &[u8], ends: &[usize]) -> Option<usize> {
    for end in 0..=stamp.len() {
        let place = if ends.contains(&end) { None } else { Some(end) };
        if !is_refused_at(alloc, &stamp[..end], place) {
            return Some(end);
        }
    }
    None
}

#[test]
fn a_stamp_that_is_cut_ends_too_soon(rt: HostRuntime) {
    let in_utc = first_other_end(rt.alloc(), IN_UTC, &[19, 21, 22, 23, 24]);
    let ahead = first_other_end(rt.alloc(), AHEAD, &[19, 25]);
    assert_eq!(rt; (in_utc, ahead), (None, None));
}

/// Whether a stamp with this byte as its zone is refused at this place, or is read if there is none.
fn is_zone_refused_at(alloc: Global, zone: u8, place: Option<usize>) -> bool {
    let Ok(mut bytes) = Vec::from_slice(alloc, b"2025-01-02T03:04:05") else {
        return false;
    };
    bytes.push(zone).is_ok() && is_refused_at(alloc, bytes.as_slice(), place)
}

/// The first byte that as a zone isn't refused at its place.
fn first_other_zone(alloc: Global) -> Option<u8> {
    for byte in 0..=255 {
        let place = match byte {
            b'Z' => None,
            b'.' | b'+' | b'-' => Some(20),
            _ => Some(19),
        };
        if !is_zone_refused_at(alloc, byte, place) {
            return Some(byte);
        }
    }
    None
}

#[test]
fn each_byte_at_the_zone(rt: HostRuntime) {
    assert_eq!(rt; first_other_zone(rt.alloc()), None);
}

/// Stamps and other bytes, and whether they have the form of a moment.
const FORMS: [(&[u8], bool); 10] = [
    (b"1970-01-01T00:00:00.000Z", true),
    (b"9999-12-31T23:59:59.999Z", true),
    (b"2024-02-29T12:34:56.789Z", true),
    (b"1969-12-31T23:59:59.999Z", false),
    (b"2025-02-29T00:00:00.000Z", false),
    (b"2025-01-02T24:00:00.000Z", false),
    (b"2025-01-02T03:04:05.006", false),
    (b"2025-01-02T03:04:05.06Z", false),
    (b"2025-01-02T03:04:05.0006Z", false),
    (b"2025-01-02T03:04:05.006ZZ", false),
];

/// The first row with another result.
fn first_other_form() -> Option<usize> {
    for (row, (text, is)) in FORMS.iter().enumerate() {
        if is_moment_stamp(text) != *is {
            return Some(row);
        }
    }
    None
}

#[test]
fn a_moment_is_told_by_its_form(rt: HostRuntime) {
    assert_eq!(rt; first_other_form(), None);
}

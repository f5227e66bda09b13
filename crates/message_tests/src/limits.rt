//! Messages at each limit and one past it, each prefix of a package, and each byte of a boundary.

use crate::cases::{BARE, BARE_MEDIA, BODY, MEDIA};
use crate::lines::{changed, is_told};
use std::alloc::Global;
use std::test::Fail;

const FOUND: &str = "user m1@a";

const NO_PACKAGE: &str = "refused EBMS:0007";

const NO_ENVELOPE: &str = "refused EBMS:0009";

/// Whether the prefix of this length has the right check line: it is a package only if it includes the last delimiter,
/// with or without its CRLF.
fn is_beginning_told(alloc: Global, len: usize) -> Option<bool> {
    let (front, _) = BODY.as_bytes().split_at_checked(len)?;
    let is_whole = len == BODY.len() || len + 2 == BODY.len();
    let wanted = if is_whole { FOUND } else { NO_PACKAGE };
    is_told(alloc, MEDIA.as_bytes(), front, wanted)
}

#[test]
fn each_beginning_of_a_package_is_refused(rt: HostRuntime) -> Result<(), Fail> {
    let alloc = rt.alloc();
    let first = (0..BODY.len() + 1).position(|len| is_beginning_told(alloc, len) != Some(true));
    assert_eq!(rt; first, None);
    Ok(())
}

/// The body with this boundary.
fn body_with(alloc: Global, boundary: &str) -> Option<Vec<u8>> {
    let mut body = Vec::new(alloc);
    for (at, piece) in BODY.split("--b").enumerate() {
        if at > 0 {
            body.extend_from_slice(b"--").ok()?;
            body.extend_from_slice(boundary.as_bytes()).ok()?;
        }
        body.extend_from_slice(piece.as_bytes()).ok()?;
    }
    Some(body)
}

fn is_boundary_told(alloc: Global, boundary: &str, is_one: bool) -> Option<bool> {
    let media = format!(in alloc; "multipart/related; boundary=\"{boundary}\"").ok()?;
    let body = body_with(alloc, boundary)?;
    let wanted = if is_one { FOUND } else { NO_PACKAGE };
    is_told(alloc, media.as_bytes(), body.as_slice(), wanted)
}

/// Boundaries, and whether each is one (RFC 2046, section 5.1.1).
const BOUNDARIES: [(&str, bool); 16] = [
    ("b", true),
    ("a b", true),
    (" b", true),
    ("0123456789", true),
    ("ABCXYZabcxyz", true),
    ("'()+_,-./:=?", true),
    ("--", true),
    (
        "1234567890123456789012345678901234567890123456789012345678901234567890",
        true,
    ),
    (
        "12345678901234567890123456789012345678901234567890123456789012345678901",
        false,
    ),
    ("", false),
    ("b ", false),
    (" ", false),
    ("b*", false),
    ("b&", false),
    ("b\t", false),
    ("b\u{e9}", false),
];

#[test]
fn a_boundary_has_its_characters(rt: HostRuntime) -> Result<(), Fail> {
    let alloc = rt.alloc();
    let first = BOUNDARIES.iter().position(|(boundary, is_one)| is_boundary_told(
        alloc, boundary, *is_one,
    ) != Some(true));
    assert_eq!(rt; first, None);
    Ok(())
}

/// This many copies of a text.
fn repeated(alloc: Global, text: &str, count: usize) -> Option<String> {
    let mut out = String::new(alloc);
    for _ in 0..count {
        out.push_str(text).ok()?;
    }
    Some(out)
}

/// Whether a package with this change has this check line.
fn is_change_told(alloc: Global, old: &str, new: &str, wanted: &str) -> Option<bool> {
    let change = format!(in alloc; "{old}=>{new}").ok()?;
    let body = changed(alloc, BODY, change.as_str())?;
    is_told(alloc, MEDIA.as_bytes(), body.as_slice(), wanted)
}

/// Whether a part with this many further fields has this check line.
fn are_fields_told(alloc: Global, count: usize, wanted: &str) -> Option<bool> {
    let fields = repeated(alloc, "X: y\r\n", count)?;
    let part = format!(in alloc; "Content-Type: text/plain\r\n{fields}").ok()?;
    is_change_told(alloc, "Content-Type: text/plain\r\n", part.as_str(), wanted)
}

#[test]
fn a_part_has_64_fields(rt: HostRuntime) -> Result<(), Fail> {
    assert_eq!(rt; are_fields_told(rt.alloc(), 61, FOUND), Some(true));
    assert_eq!(rt; are_fields_told(rt.alloc(), 62, NO_PACKAGE), Some(true));
    Ok(())
}

fn is_media_told(alloc: Global, len: usize, wanted: &str) -> Option<bool> {
    let media = repeated(alloc, "x", len)?;
    is_change_told(alloc, "text/plain", media.as_str(), wanted)
}

#[test]
fn a_media_text_has_1024_bytes(rt: HostRuntime) -> Result<(), Fail> {
    assert_eq!(rt; is_media_told(rt.alloc(), 1_024, FOUND), Some(true));
    assert_eq!(rt; is_media_told(rt.alloc(), 1_025, NO_PACKAGE), Some(true));
    Ok(())
}

/// Whether a part that is named by an identifier of this length has this check line.
fn is_id_told(alloc: Global, len: usize, wanted: &str) -> Option<bool> {
    let id = repeated(alloc, "x", len)?;
    let change = format!(in alloc; "cid:p1@a=>cid:{id}").ok()?;
    let named = changed(alloc, BODY, change.as_str())?;
    let text = String::from_utf8(named).ok()?;
    let change = format!(in alloc; "<p1@a>=><{id}>").ok()?;
    let body = changed(alloc, text.as_str(), change.as_str())?;
    is_told(alloc, MEDIA.as_bytes(), body.as_slice(), wanted)
}

#[test]
fn an_identifier_has_255_bytes(rt: HostRuntime) -> Result<(), Fail> {
    assert_eq!(rt; is_id_told(rt.alloc(), 255, FOUND), Some(true));
    assert_eq!(rt; is_id_told(rt.alloc(), 256, NO_PACKAGE), Some(true));
    Ok(())
}

/// Part infos and parts with the numbers from 2 to `end` - 1.
fn more_parts(alloc: Global, end: usize) -> Option<(String, String)> {
    let mut infos = String::new(alloc);
    let mut parts = String::new(alloc);
    for number in 2..end {
        let info = format!(in alloc; "</eb:PartInfo><eb:PartInfo href=\"cid:p{number}@a\">").ok()?;
        let part = format!(in alloc; "\r\n--b\r\nContent-ID: <p{number}@a>\r\n\r\n").ok()?;
        infos.push_str(info.as_str()).ok()?;
        parts.push_str(part.as_str()).ok()?;
    }
    Some((infos, parts))
}

/// A package with this many parts, each of which except the root has a part info.
pub fn many_parts(alloc: Global, count: usize) -> Option<Vec<u8>> {
    let (infos, parts) = more_parts(alloc, count)?;
    let change = format!(in alloc; "\"cid:p1@a\">=>\"cid:p1@a\">{infos}").ok()?;
    let named = changed(alloc, BODY, change.as_str())?;
    let text = String::from_utf8(named).ok()?;
    let change = format!(in alloc; "hello=>hello{parts}").ok()?;
    changed(alloc, text.as_str(), change.as_str())
}

/// Whether such a package has this check line.
fn are_parts_told(alloc: Global, count: usize, wanted: &str) -> Option<bool> {
    let body = many_parts(alloc, count)?;
    is_told(alloc, MEDIA.as_bytes(), body.as_slice(), wanted)
}

#[test]
fn a_package_has_256_parts(rt: HostRuntime) -> Result<(), Fail> {
    assert_eq!(rt; are_parts_told(rt.alloc(), 256, FOUND), Some(true));
    assert_eq!(rt; are_parts_told(rt.alloc(), 257, NO_PACKAGE), Some(true));
    Ok(())
}

/// Whether a bare envelope of this length has this check line.
fn is_envelope_told(alloc: Global, len: usize, wanted: &str) -> Option<bool> {
    let blanks = repeated(alloc, " ", len.saturating_sub(BARE.len()))?;
    let body = format!(in alloc; "{BARE}{blanks}").ok()?;
    is_told(alloc, BARE_MEDIA.as_bytes(), body.as_bytes(), wanted)
}

#[test]
fn an_envelope_has_262144_bytes(rt: HostRuntime) -> Result<(), Fail> {
    assert_eq!(rt; is_envelope_told(rt.alloc(), 262_144, FOUND), Some(true));
    assert_eq!(rt;
        is_envelope_told(rt.alloc(), 262_145, NO_ENVELOPE),
        Some(true)
    );
    Ok(())
}

/// Whether an envelope with this many elements nested in its body has this check line.
fn is_depth_told(alloc: Global, depth: usize, wanted: &str) -> Option<bool> {
    let (starts, ends) = (
        repeated(alloc, "<x>", depth)?,
        repeated(alloc, "</x>", depth)?,
    );
    let change = format!(in alloc; "<S:Body>=><S:Body>{starts}{ends}").ok()?;
    let body = changed(alloc, BARE, change.as_str())?;
    is_told(alloc, BARE_MEDIA.as_bytes(), body.as_slice(), wanted)
}

#[test]
fn an_envelope_has_32_levels(rt: HostRuntime) -> Result<(), Fail> {
    assert_eq!(rt; is_depth_told(rt.alloc(), 30, FOUND), Some(true));
    assert_eq!(rt; is_depth_told(rt.alloc(), 31, NO_ENVELOPE), Some(true));
    Ok(())
}

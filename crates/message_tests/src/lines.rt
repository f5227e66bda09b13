//! The check line of each case.

use crate::cases::{
    BARE, BARE_CASES, BARE_MEDIA, BODY, CUT_CASES, Case, FIELD_CASES, MEDIA, MEDIA_CASES,
    REFERENCE_CASES, ROOT_CASES,
};
use as4_message::check_line;
use std::alloc::Global;
use std::test::Fail;

/// The text with this change; `None` if the text doesn't contain the old part.
pub fn changed(alloc: Global, text: &str, change: &str) -> Option<Vec<u8>> {
    if change.is_empty() {
        return Vec::from_slice(alloc, text.as_bytes()).ok();
    }
    let (old, new) = change.split_once("=>")?;
    let (front, back) = text.split_once(old)?;
    let mut bytes = Vec::from_slice(alloc, front.as_bytes()).ok()?;
    bytes.extend_from_slice(new.as_bytes()).ok()?;
    bytes.extend_from_slice(back.as_bytes()).ok()?;
    Some(bytes)
}

/// Whether the media text and the body have this check line.
pub fn is_told(alloc: Global, media: &[u8], body: &[u8], wanted: &str) -> Option<bool> {
    let line = check_line(alloc, media, body).ok()?;
    let (words, end) = line.text.bytes().split_at_checked(wanted.len())?;
    Some(
        words == wanted.as_bytes()
            && end == b"\n".as_slice()
            && line.refused == wanted.starts_with("refused"),
    )
}

fn is_right(alloc: Global, media: &str, body: &str, case: &Case) -> Option<bool> {
    let media = changed(alloc, media, case.0)?;
    let body = changed(alloc, body, case.1)?;
    is_told(alloc, media.as_slice(), body.as_slice(), case.2)
}

/// The index of the first case with another line.
fn first_wrong(alloc: Global, media: &str, body: &str, cases: &[Case]) -> Option<usize> {
    cases
        .iter()
        .position(|case| is_right(alloc, media, body, case) != Some(true))
}

#[test]
fn media_texts_are_read(rt: HostRuntime) -> Result<(), Fail> {
    assert_eq!(rt; first_wrong(rt.alloc(), MEDIA, BODY, &MEDIA_CASES), None);
    Ok(())
}

#[test]
fn bodies_are_cut(rt: HostRuntime) -> Result<(), Fail> {
    assert_eq!(rt; first_wrong(rt.alloc(), MEDIA, BODY, &CUT_CASES), None);
    Ok(())
}

#[test]
fn fields_are_read(rt: HostRuntime) -> Result<(), Fail> {
    assert_eq!(rt; first_wrong(rt.alloc(), MEDIA, BODY, &FIELD_CASES), None);
    Ok(())
}

#[test]
fn roots_are_read(rt: HostRuntime) -> Result<(), Fail> {
    assert_eq!(rt; first_wrong(rt.alloc(), MEDIA, BODY, &ROOT_CASES), None);
    Ok(())
}

#[test]
fn references_are_paired(rt: HostRuntime) -> Result<(), Fail> {
    assert_eq!(rt;
        first_wrong(rt.alloc(), MEDIA, BODY, &REFERENCE_CASES),
        None
    );
    Ok(())
}

#[test]
fn bare_envelopes_are_read(rt: HostRuntime) -> Result<(), Fail> {
    assert_eq!(rt;
        first_wrong(rt.alloc(), BARE_MEDIA, BARE, &BARE_CASES),
        None
    );
    Ok(())
}

//! The limits of length and depth.

use crate::shown::shown;
use as4_values::NoMemory;
use std::alloc::Global;
use std::test::Fail;
use tree_reader::MAX_BYTES;

/// This many start tags, then the middle, then this many end tags.
fn nested(alloc: Global, times: usize, middle: &[u8]) -> Result<Vec<u8>, NoMemory> {
    let mut out = Vec::new(alloc);
    for _ in 0..times {
        out.extend_from_slice(b"<a>")?;
    }
    out.extend_from_slice(middle)?;
    for _ in 0..times {
        out.extend_from_slice(b"</a>")?;
    }
    Ok(out)
}

/// Whether the text shown for such a document begins so.
fn nested_shows(
    alloc: Global,
    times: usize,
    middle: &[u8],
    wanted: &[u8],
) -> Result<bool, NoMemory> {
    let document = nested(alloc, times, middle)?;
    let text = shown(alloc, document.as_slice());
    drop(document);
    Ok(text?.starts_with(wanted))
}

/// The number of open elements, their content, and the beginning of the text shown.
const DEPTHS: [(usize, &[u8], &[u8]); 9] = [
    (32, b"", b"{}a("),
    (32, b"x<!--y-->", b"{}a("),
    (31, b"<b/><b></b>", b"{}a("),
    (32, b"<a/>", b"TooDeep 96"),
    (32, b"<a b='1'></a>", b"TooDeep 96"),
    (32, b"x<a>", b"TooDeep 97"),
    (32, b"<p:a/>", b"Markup 96"),
    (32, b"<a 1='1'/>", b"Markup 96"),
    (33, b"", b"TooDeep 96"),
];

/// The index of the first row with another text.
fn first_wrong(alloc: Global, cases: &[(usize, &[u8], &[u8])]) -> Result<Option<usize>, NoMemory> {
    for (number, (times, middle, wanted)) in cases.iter().enumerate() {
        if !nested_shows(alloc, *times, middle, wanted)? {
            return Ok(Some(number));
        }
    }
    Ok(None)
}

#[test]
fn there_are_32_levels(rt: HostRuntime) -> Result<(), Fail> {
    assert_eq!(rt; first_wrong(rt.alloc(), &DEPTHS), Ok(None));
    Ok(())
}

/// An element followed by blanks, of this length in all.
fn padded(alloc: Global, len: usize) -> Result<Vec<u8>, NoMemory> {
    let mut out = Vec::with_capacity(alloc, len)?;
    out.extend_from_slice(b"<a/>")?;
    for _ in 4..len {
        out.push(b' ')?;
    }
    Ok(out)
}

fn padded_shows(alloc: Global, len: usize, wanted: &[u8]) -> Result<bool, NoMemory> {
    let document = padded(alloc, len)?;
    let text = shown(alloc, document.as_slice());
    drop(document);
    Ok(text?.as_slice() == wanted)
}

#[test]
fn there_are_262144_bytes(rt: HostRuntime) -> Result<(), Fail> {
    assert_eq!(rt; padded_shows(rt.alloc(), MAX_BYTES, b"{}a"), Ok(true));
    assert_eq!(rt;
        padded_shows(rt.alloc(), MAX_BYTES + 1, b"TooLong"),
        Ok(true)
    );
    Ok(())
}

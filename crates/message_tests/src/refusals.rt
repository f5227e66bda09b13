//! The refusal of a package, and the part that it names.

use crate::cases::{BODY, MEDIA};
use crate::limits::many_parts;
use crate::lines::changed;
use mime_package::{MimeRefusal, read_parts};
use std::alloc::Global;
use std::test::Fail;

/// The refusal; `None` if the package is read.
fn refusal_of(alloc: Global, media: &[u8], body: &[u8]) -> Option<MimeRefusal> {
    match read_parts(alloc, media, body) {
        Ok(package) => {
            drop(package);
            None
        }
        Err(refusal) => Some(refusal),
    }
}

/// The change of the media text, the change of the body, and the refusal.
type Row = (&'static str, &'static str, MimeRefusal);

const ROWS: [Row; 15] = [
    ("multipart=>text", "", MimeRefusal::BadType),
    (
        "; boundary=b=>; boundary=b; boundary=b",
        "",
        MimeRefusal::BadType,
    ),
    ("; boundary=b=>", "", MimeRefusal::NoBoundary),
    ("; boundary=b=>; boundary=*", "", MimeRefusal::NoBoundary),
    ("; boundary=b=>; boundary=c", "", MimeRefusal::NoBoundary),
    (
        "",
        "Content-ID: <r@a>=>abc",
        MimeRefusal::BadPart { index: 0 },
    ),
    (
        "",
        "Content-ID: <p1@a>=>abc",
        MimeRefusal::BadPart { index: 1 },
    ),
    ("", "--b--\r\n=>", MimeRefusal::BadPart { index: 1 }),
    ("", "--b--\r\n=>--b\r\n", MimeRefusal::BadPart { index: 2 }),
    (
        "",
        "--b--\r\n=>--b\r\nabc\r\n--b--",
        MimeRefusal::BadPart { index: 2 },
    ),
    ("<r@a>=>x@a", "", MimeRefusal::NoRoot),
    ("", "application=>text", MimeRefusal::NoRoot),
    (
        "",
        "Encoding: binary=>Encoding: base64",
        MimeRefusal::Encoding { index: 1 },
    ),
    (
        "",
        "Content-ID: <r@a>=>Content-ID: <r@a>\r\nContent-Transfer-Encoding: x",
        MimeRefusal::Encoding { index: 0 },
    ),
    (
        "<r@a>=>x@a",
        "Encoding: binary=>Encoding: base64",
        MimeRefusal::NoRoot,
    ),
];

fn is_right(alloc: Global, row: &Row) -> Option<bool> {
    let media = changed(alloc, MEDIA, row.0)?;
    let body = changed(alloc, BODY, row.1)?;
    Some(refusal_of(alloc, media.as_slice(), body.as_slice()) == Some(row.2))
}

#[test]
fn each_refusal_has_its_name_and_part(rt: HostRuntime) -> Result<(), Fail> {
    let alloc = rt.alloc();
    let first = ROWS
        .iter()
        .position(|row| is_right(alloc, row) != Some(true));
    assert_eq!(rt; first, None);
    Ok(())
}

/// The refusal of a package with 257 parts.
fn too_many(alloc: Global) -> Option<MimeRefusal> {
    let body = many_parts(alloc, 257)?;
    refusal_of(alloc, MEDIA.as_bytes(), body.as_slice())
}

#[test]
fn part_256_is_one_too_many(rt: HostRuntime) -> Result<(), Fail> {
    assert_eq!(rt;
        too_many(rt.alloc()),
        Some(MimeRefusal::BadPart { index: 256 })
    );
    Ok(())
}

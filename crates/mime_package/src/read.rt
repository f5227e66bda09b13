//! Reads a package from its media text and its body (RFC 2387; RFC 2046, section 5.1), or reports why they are none.

ghost use Rattle.std.specs.Prelude.{◌≡◌, ◌<◌, Ok, codes, length, map, option_map};
ghost use Rattle.mime_fields.specs.Lent.{parameter_of, type_of, part_value};
ghost use Rattle.mime_package.specs.Answers.{Answers};
ghost use Rattle.mime_package.specs.Lent.{package_value};
ghost use Rattle.mime_package.specs.Reading.{package_of, packaged, parameter, related, typed};
ghost use Rattle.mime_package.specs.Steps.{package_at};
ghost use Rattle.mime_package.specs.declared.read.MimeRefusal.TheVariants.{NoMemory};

use crate::package::Package;
use crate::parameters::{boundary_of, is_envelope};
use crate::parts::parts_of;
use crate::root::checked_root;
use mime_fields::{MediaType, Parameter, Part, read_media_type};
use std::alloc::{AllocError, AllocFailed, Global};

/// Why a media text and a body are not a package.
#[derive(Clone, Copy, Debug, PartialEq, Eq)]
pub enum MimeRefusal {
    /// The media text is malformed, has a parameter twice, or is neither that of an envelope in a supported character
    /// set nor that of a package.
    BadType,
    /// The media text names no valid boundary, or the body has no delimiter.
    NoBoundary,
    /// The part of this index, from 0, has no delimiter at its end, is malformed, or is one too many.
    BadPart { index: usize },
    /// The media text names no part as the root, or several, or the root's media text isn't that of an envelope.
    NoRoot,
    /// The content of the part of this index is encoded for transfer (RFC 2045, section 6).
    Encoding { index: usize },
    /// Memory ran out.
    NoMemory,
}

impl From<as4_values::NoMemory> for MimeRefusal {
    ghost from_gives = { λ _ e. e ≡ NoMemory };

    fn from(_error: as4_values::NoMemory) -> MimeRefusal {
        MimeRefusal::NoMemory
    }
}

impl From<AllocError> for MimeRefusal {
    ghost from_gives = { λ _ e. e ≡ NoMemory };

    fn from(_error: AllocError) -> MimeRefusal {
        MimeRefusal::NoMemory
    }
}

impl<T: Drop> From<AllocFailed<T>> for MimeRefusal {
    ghost from_gives = { λ _ e. e ≡ NoMemory };

    fn from(_error: AllocFailed<T>) -> MimeRefusal {
        MimeRefusal::NoMemory
    }
}

/// Reads a package: its media text names the boundary that cuts the body into parts, and the root. A bare envelope is a
/// package without other parts. Contents aren't copied.
#[tactic(auto, unfolding(crate::specs::Reading::package_of))]
pub fn read_parts<'a>(
    alloc: Global,
    media: &[u8],
    body: &'a [u8],
) -> Result<Package<'a>, MimeRefusal>
    ensures { Answers package_value result (package_of media.now body.now) }
{
    let Some(media) = read_media_type(alloc, media)? else {
        return Err(MimeRefusal::BadType);
    };
    let package = typed(alloc, &media, body);
    drop(media);
    package
}

// The package of this media type.
fn typed<'a>(
    alloc: Global,
    media: &MediaType<'_>,
    body: &'a [u8],
) -> Result<Package<'a>, MimeRefusal>
    ensures { Answers package_value result (typed body.now (type_of media.now)) }
{
    if !media.names_differ(alloc)? {
        return Err(MimeRefusal::BadType);
    }
    if is_envelope(alloc, media)? {
        return Ok(Package {
            root: body,
            parts: Vec::new(alloc),
        });
    }
    if !media.is(b"multipart", b"related") {
        return Err(MimeRefusal::BadType);
    }
    related(alloc, media.parameters.as_slice(), body)
}

// The package of a media type with these parameters.
#[tactic(auto, unfolding(crate::specs::Reading::related))]
fn related<'a>(
    alloc: Global,
    parameters: &[Parameter<'_>],
    body: &'a [u8],
) -> Result<Package<'a>, MimeRefusal>
    ensures { Answers package_value result (related (map parameter_of parameters.now) body.now) }
{
    let Some(boundary) = boundary_of(alloc, parameters)? else {
        return Err(MimeRefusal::NoBoundary);
    };
    let parts = parts_of(alloc, boundary.as_slice(), body);
    drop(boundary);
    rooted(alloc, parameters, parts?)
}

// The package of these parts.
fn rooted<'a>(
    alloc: Global,
    parameters: &[Parameter<'_>],
    parts: Vec<Part<'a>>,
) -> Result<Package<'a>, MimeRefusal>
    ensures { Answers package_value result
        (packaged (parameter (codes "start") (map parameter_of parameters.now)) (Ok (map part_value parts.entry.items))) }
{
    match checked_root(alloc, parameters, parts.as_slice()) {
        Ok(at) => Ok(package_at(at, parts)),
        Err(refusal) => {
            drop(parts);
            Err(refusal)
        }
    }
}

// The package whose root is at this index.
fn package_at<'a>(at: usize, mut parts: Vec<Part<'a>>) -> Package<'a>
    requires { at < length parts.items }
    ensures { package_value result ≡ package_at at (map part_value parts.entry.items) }
{
    let root = parts.remove(at);
    let content = root.content;
    drop(root);
    Package {
        root: content,
        parts,
    }
}

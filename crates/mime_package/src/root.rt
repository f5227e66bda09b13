//! The root of a package (RFC 2387, section 3.2).

ghost use Rattle.std.specs.Prelude.{◌≡◌, ◌<◌, Ok, IfOk, IfSome, codes, length, map, not, option_map, position};
ghost use Rattle.std.specs.List.{list_any};
ghost use Rattle.mime_fields.specs.Lent.{parameter_of, part_value};
ghost use Rattle.mime_package.specs.Answers.{Answers};
ghost use Rattle.mime_package.specs.Reading.{has_id, is_root, only_one, packaged, parameter, root_of, with_root};
ghost use Rattle.mime_package.specs.Steps.{is_id, package_at, taken_at};

use crate::parameters::{is_envelope, meant};
use crate::read::MimeRefusal;
use as4_values::NoMemory;
use mime_fields::{Parameter, Part, read_media_type, without_brackets};
use std::alloc::Global;

/// The index of the root, which must hold an envelope; no content may be encoded.
pub fn checked_root(
    alloc: Global,
    parameters: &[Parameter<'_>],
    parts: &[Part<'_>],
) -> Result<usize, MimeRefusal>
    ensures root { Answers (λ at. package_at at (map part_value parts.now)) result
        (packaged (parameter (codes "start") (map parameter_of parameters.now)) (Ok (map part_value parts.now))) }
    ensures within { IfOk result (λ at. at < length parts.now) }
{
    let place = named_place(alloc, parameters, parts)?;
    checked_place(alloc, place, parts)
}

// The index of the root that the parameters name.
fn named_place(
    alloc: Global,
    parameters: &[Parameter<'_>],
    parts: &[Part<'_>],
) -> Result<Option<usize>, NoMemory>
    ensures place { IfOk result (λ place.
        root_of (parameter (codes "start") (map parameter_of parameters.now)) (map part_value parts.now)
        ≡ taken_at place (map part_value parts.now)) }
    ensures within { IfOk result (λ place. IfSome place (λ at. at < length parts.now)) }
{
    match meant(alloc, b"start", parameters)? {
        None => Ok(root_place(None, parts)),
        Some(start) => {
            let place = root_place(Some(start.as_slice()), parts);
            drop(start);
            Ok(place)
        }
    }
}

// The index, if a root is there and no content is encoded.
fn checked_place(
    alloc: Global,
    place: Option<usize>,
    parts: &[Part<'_>],
) -> Result<usize, MimeRefusal>
    requires { IfSome place (λ at. at < length parts.now) }
    ensures root { Answers (λ at. package_at at (map part_value parts.now)) result
        (with_root (map part_value parts.now) (taken_at place (map part_value parts.now))) }
    ensures within { IfOk result (λ at. at < length parts.now) }
{
    let Some(at) = place else {
        return Err(MimeRefusal::NoRoot);
    };
    if !is_root(alloc, &parts[at])? {
        return Err(MimeRefusal::NoRoot);
    }
    match encoded_at(parts) {
        None => Ok(at),
        Some(index) => Err(MimeRefusal::Encoding { index }),
    }
}

// The index of the root: the only part with the Content-ID `start`, or the first part if there is no `start`.
#[tactic(auto, using(crate::proofs::RootLemmas::first_root), unfolding(crate::specs::Reading::root_of))]
fn root_place(start: Option<&[u8]>, parts: &[Part<'_>]) -> Option<usize>
    ensures place { root_of (option_map (λ id. id.now) start.entry) (map part_value parts.now)
        ≡ taken_at result (map part_value parts.now) }
    ensures within { IfSome result (λ at. at < length parts.now) }
{
    match start {
        Some(start) => only_place(without_brackets(start), parts),
        None => { if parts.is_empty() { None } else { Some(0) } }
    }
}

// Whether the part holds an envelope.
fn is_root(alloc: Global, part: &Part<'_>) -> Result<bool, NoMemory>
    ensures { IfOk result (λ is. is ≡ is_root (part_value part.now)) }
{
    let Some(media) = read_media_type(alloc, part.media.bytes())? else {
        return Ok(false);
    };
    let is = is_envelope(alloc, &media);
    drop(media);
    is
}

// The index of the first part whose content is encoded for transfer (RFC 2045, section 6).
fn encoded_at(parts: &[Part<'_>]) -> Option<usize>
    ensures { result ≡ position (λ p. not p.identity) parts.now }
{
    parts.iter().position(|part| !part.identity)
}

// The index of the only part with this Content-ID.
#[tactic(auto, using(crate::proofs::RootLemmas::none_has_id))]
fn only_place(id: &[u8], parts: &[Part<'_>]) -> Option<usize>
    ensures place { only_one (has_id id.now) (map part_value parts.now) ≡ taken_at result (map part_value parts.now) }
    ensures within { IfSome result (λ at. at < length parts.now) }
{
    let at = first_place(id, parts)?;
    let (_, others) = parts.split_at(at + 1);
    if has_any(id, others) { None } else { Some(at) }
}

fn first_place(id: &[u8], parts: &[Part<'_>]) -> Option<usize>
    ensures place { result ≡ position (λ p. is_id id.now p.id) parts.now }
    ensures within { IfSome result (λ at. at < length parts.now) }
{
    parts.iter().position(|part| has_id(id, part))
}

fn has_any(id: &[u8], parts: &[Part<'_>]) -> bool
    ensures { result ≡ list_any (λ p. is_id id.now p.id) parts.now }
{
    parts.iter().any(|part| has_id(id, part))
}

fn has_id(id: &[u8], part: &Part<'_>) -> bool
    ensures { result ≡ is_id id.now part.now.id }
{
    match &part.id {
        None => false,
        Some(own) => own.bytes() == id,
    }
}

//! The parts of a package that a header refers to (ebMS 3.0 Core, section 5.2.2.13; RFC 2392).
ghost use Rattle.std.specs.Prelude.{◌≡◌, Ok, Err, true, IfOk, Some, map, option_map, option_and_then};
ghost use Rattle.std.specs.List.{list_any};
ghost use Rattle.std.specs.Result.{result_map_both};
ghost use Rattle.as4_values.specs.Pairing.{cid_in, named_by, are_paired};
ghost use Rattle.mime_fields.specs.Lent.{part_value};
ghost use Rattle.as4_message.specs.Attached.{is_inside, is_outside, attached, all_attached, paired, attach, attached_value};

use crate::attachment::Attachment;
use crate::error_codes::{EXTERNAL, INCONSISTENT, NOT_SUPPORTED};
use as4_values::{NoMemory, Octets, PartInfo, PlainData, all_differ, are_among, cid_in};
use mime_fields::Part;
use std::alloc::Global;

/// The parts that the part infos refer to, or the code of the error that refuses them.
pub(crate) fn attach<'a>(
    alloc: Global,
    infos: &[PartInfo],
    parts: &[Part<'a>],
) -> Result<Result<Vec<Attachment<'a>>, u16>, NoMemory>
    ensures parts { IfOk result (λ found. result_map_both (λ list. map attached_value list.items) (λ code. code) found
        ≡ attach infos.now (map part_value parts.now)) }
    ensures inside { list_any is_inside infos.now ≡ true → result ≡ Ok (Err NOT_SUPPORTED) }
{
    if any_inside(infos) {
        return Ok(Err(NOT_SUPPORTED));
    }
    match names_of(alloc, infos)? {
        Some(names) => attach_named(alloc, names.as_slice(), parts),
        None => Ok(Err(EXTERNAL)),
    }
}

/// The parts, each of which has one of these names; else `INCONSISTENT`.
fn attach_named<'a>(
    alloc: Global,
    names: &[Octets],
    parts: &[Part<'a>],
) -> Result<Result<Vec<Attachment<'a>>, u16>, NoMemory>
    ensures { IfOk result (λ found. result_map_both (λ list. map attached_value list.items) (λ code. code) found
        ≡ paired (Some names.now) (all_attached (map part_value parts.now))) }
{
    let Some(parts) = all_attached(alloc, parts)? else {
        return Ok(Err(INCONSISTENT));
    };
    if are_paired(names, parts.as_slice()) {
        return Ok(Ok(parts));
    }
    drop(parts);
    Ok(Err(INCONSISTENT))
}

fn any_inside(infos: &[PartInfo]) -> bool
    ensures { result ≡ list_any is_inside infos.now }
{
    infos.iter().any(|info| is_inside(info))
}

/// Whether the part info has no reference, or refers to something in the envelope itself.
fn is_inside(info: &PartInfo) -> bool
    ensures { result ≡ is_inside info.now }
{
    match &info.href {
        None => true,
        Some(href) => href.bytes().starts_with(b"#"),
    }
}

/// The Content-IDs that the part infos name, or `None` if one refers to something outside of the package.
#[tactic(auto, unfolding(as4_values::specs::Pairing::named_by))]
fn names_of(alloc: Global, infos: &[PartInfo]) -> Result<Option<Vec<Octets>>, NoMemory>
    ensures { IfOk result (λ names. option_map (λ list. list.items) names ≡ named_by infos.now) }
{
    let mut names = Vec::new(alloc);
    for info in infos {
        let Some(name) = name_of(alloc, info)? else {
            return Ok(None);
        };
        names.push(name)?;
    }
    Ok(Some(names))
}

fn name_of(alloc: Global, info: &PartInfo) -> Result<Option<Octets>, NoMemory>
    ensures { IfOk result (λ name. name ≡ option_and_then cid_in info.now.href) }
{
    match &info.href {
        None => Ok(None),
        Some(href) => cid_in(alloc, href.bytes()),
    }
}

/// All parts, or `None` if one has no Content-ID.
#[tactic(auto, unfolding(crate::specs::Attached::all_attached))]
fn all_attached<'a>(
    alloc: Global,
    parts: &[Part<'a>],
) -> Result<Option<Vec<Attachment<'a>>>, NoMemory>
    ensures { IfOk result (λ found. option_map (λ list. map attached_value list.items) found ≡ all_attached (map part_value parts.now)) }
{
    let mut found = Vec::with_capacity(alloc, parts.len())?;
    for part in parts {
        let Some(attachment) = attached(alloc, part)? else {
            return Ok(None);
        };
        found.push(attachment)?;
    }
    Ok(Some(found))
}

fn attached<'a>(alloc: Global, part: &Part<'a>) -> Result<Option<Attachment<'a>>, NoMemory>
    ensures { IfOk result (λ found. option_map attached_value found ≡ attached (part_value part.now)) }
{
    let Some(id) = &part.id else {
        return Ok(None);
    };
    Ok(Some(Attachment {
        cid: id.try_clone(alloc)?,
        media: part.media.try_clone(alloc)?,
        content: part.content,
    }))
}

/// Whether each Content-ID is named once, and is that of exactly one part.
fn are_paired(names: &[Octets], parts: &[Attachment<'_>]) -> bool
    ensures { result ≡ are_paired (Some names.now) (map (λ part. part.cid) parts.now) }
{
    let named_once = all_differ(names);
    let apart = all_differ(parts);
    let there = are_among(names, parts);
    let named = are_among(parts, names);
    named_once && (apart && (there && named))
}

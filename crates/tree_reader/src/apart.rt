//! Whether names are distinct, in less than quadratic time.

ghost use Rattle.std.specs.Prelude.{◌≡◌, IfOk, map};
ghost use Rattle.std.specs.List.{list_any};
ghost use Rattle.as4_envelope.specs.Writable.{same_name, names_differ};
ghost use Rattle.xml_items.specs.Raw.{written_of};
ghost use Rattle.tree_reader.specs.Apart.{differ, same_parts, parts_of};
ghost use Rattle.tree_reader.specs.Scopes.{same_written, written_differ};

use as4_envelope::Attribute;
use std::alloc::{AllocError, Global};
use xml_items::RawAttribute;

/// Up to this many names are compared in pairs; more are sorted.
const FEW: usize = 16;

/// Whether no two attributes have the same written name.
pub(crate) fn written_differ(
    alloc: Global,
    attributes: &[RawAttribute<'_>],
) -> Result<bool, AllocError>
    ensures { IfOk result (λ differ. differ ≡ written_differ (map written_of attributes.now)) }
{
    if attributes.len() <= FEW {
        return Ok(few_written_differ(attributes));
    }
    let mut names = Vec::with_capacity(alloc, attributes.len())?;
    for attribute in attributes {
        names.push((attribute.name, b"".as_slice()))?;
    }
    Ok(all_differ(names.as_mut_slice()))
}

/// Whether no two attributes have the same expanded name. Most tags have fewer than two attributes.
#[inline(always)]
pub(crate) fn names_differ(alloc: Global, attributes: &[Attribute]) -> Result<bool, AllocError>
    ensures { IfOk result (λ differ. differ ≡ names_differ attributes.now) }
{
    match attributes {
        [] | [_] => Ok(true),
        [_, _, ..] => several_names_differ(alloc, attributes),
    }
}

/// The same for any number. A separate function keeps the inlined code of `names_differ` small.
#[inline(never)]
fn several_names_differ(alloc: Global, attributes: &[Attribute]) -> Result<bool, AllocError>
    ensures { IfOk result (λ differ. differ ≡ names_differ attributes.now) }
{
    if attributes.len() <= FEW {
        return Ok(few_names_differ(attributes));
    }
    let mut names = Vec::with_capacity(alloc, attributes.len())?;
    for attribute in attributes {
        names.push((attribute.space.bytes(), attribute.local.bytes()))?;
    }
    Ok(all_differ(names.as_mut_slice()))
}

/// Whether the names are distinct. Sorts them.
fn all_differ(names: &mut [(&[u8], &[u8])]) -> bool
    ensures { result ≡ differ same_parts (map parts_of names.old) }
{
    names.sort_unstable();
    for at in 1..names.len() {
        let (one, other) = (names[at - 1], names[at]);
        if one.0 == other.0 && one.1 == other.1 {
            return false;
        }
    }
    true
}

fn few_written_differ(attributes: &[RawAttribute<'_>]) -> bool
    ensures { result ≡ written_differ (map written_of attributes.now) }
{
    for (at, attribute) in attributes.iter().enumerate() {
        if is_written(&attributes[at + 1..], *attribute) {
            return false;
        }
    }
    true
}

/// Whether one of the attributes has the same written name as this one.
fn is_written(attributes: &[RawAttribute<'_>], like: RawAttribute<'_>) -> bool
    ensures { result ≡ list_any (same_written (written_of like.entry)) (map written_of attributes.now) }
{
    for attribute in attributes {
        if like.name == attribute.name {
            return true;
        }
    }
    false
}

fn few_names_differ(attributes: &[Attribute]) -> bool
    ensures { result ≡ names_differ attributes.now }
{
    for (at, attribute) in attributes.iter().enumerate() {
        if is_named(&attributes[at + 1..], attribute) {
            return false;
        }
    }
    true
}

/// Whether one of the attributes has the same expanded name as this one.
fn is_named(attributes: &[Attribute], like: &Attribute) -> bool
    ensures { result ≡ list_any (same_name like.now) attributes.now }
{
    attributes.iter().any(|other| {
        like.space.bytes() == other.space.bytes() && like.local.bytes() == other.local.bytes()
    })
}

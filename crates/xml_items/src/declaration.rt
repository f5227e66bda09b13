//! The XML declaration (XML 1.0, sections 2.8, 2.9 and 4.3.3).
ghost use Rattle.std.specs.Prelude.{◌≡◌, [], IfOk, map};
ghost use Rattle.std.specs.Option.{option_map};
ghost use Rattle.xml_items.specs.Classes.{says, is_version, is_encoding, is_standalone, declares};
ghost use Rattle.xml_items.specs.Cutting.{declaration_at};
ghost use Rattle.xml_items.specs.Raw.{written_of, item_of};

use crate::attributes::attributes_at;
use crate::item::{RawAttribute, RawItem};
use as4_values::NoMemory;
use byte_forms::{Blank, skip, strip_prefix};

/// An XML declaration, given the bytes after its `<?`, and the rest. Its parts are cut like attributes.
#[tactic(auto, unfolding(crate::specs::Cutting::declaration_at))]
pub fn declaration_at<'a>(
    bytes: &'a [u8],
    parts: &mut Vec<RawAttribute<'a>>,
) -> Result<Option<(RawItem<'a>, &'a [u8])>, NoMemory>
    requires { parts.old.items ≡ [] }
    ensures { IfOk result (λ found.
        option_map (λ x. (item_of x.0 parts.new.items, x.1.now)) found ≡ declaration_at bytes.now) }
{
    let Some(rest) = strip_prefix(b"xml", bytes) else {
        return Ok(None);
    };
    let rest = attributes_at(rest, parts)?;
    let Some(rest) = strip_prefix(b"?>", skip(Blank, rest)) else {
        return Ok(None);
    };
    if !declares(parts.as_slice()) {
        return Ok(None);
    }
    Ok(Some((RawItem::Declaration, rest)))
}

// Whether these are the parts of a declaration, in their order.
#[tactic(auto, unfolding(crate::specs::Classes::declares))]
fn declares(parts: &[RawAttribute<'_>]) -> bool
    ensures { result ≡ declares (map written_of parts.now) }
{
    match parts {
        [version] => is_version(version),
        [version, part] => is_version(version) && (is_encoding(part) || is_standalone(part)),
        [version, encoding, standalone] => {
            is_version(version) && is_encoding(encoding) && is_standalone(standalone)
        }
        [] | [_, _, _, _, ..] => false,
    }
}

#[tactic(auto, unfolding(crate::specs::Classes::is_version))]
fn is_version(part: &RawAttribute<'_>) -> bool
    ensures { result ≡ is_version (written_of part.now) }
{
    says(part, b"version", b"1.0")
}

#[tactic(auto, unfolding(crate::specs::Classes::is_encoding))]
fn is_encoding(part: &RawAttribute<'_>) -> bool
    ensures { result ≡ is_encoding (written_of part.now) }
{
    part.name == b"encoding".as_slice() && part.value.eq_ignore_ascii_case(b"utf-8")
}

#[tactic(auto, unfolding(crate::specs::Classes::is_standalone))]
fn is_standalone(part: &RawAttribute<'_>) -> bool
    ensures { result ≡ is_standalone (written_of part.now) }
{
    says(part, b"standalone", b"yes") || says(part, b"standalone", b"no")
}

fn says(part: &RawAttribute<'_>, name: &[u8], value: &[u8]) -> bool
    ensures { result ≡ says name.now value.now (written_of part.now) }
{
    part.name == name && part.value == value
}

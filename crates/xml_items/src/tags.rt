//! Start tags and end tags (XML 1.0, section 3.1).
ghost use Rattle.std.specs.Prelude.{◌≡◌, [], IfOk};
ghost use Rattle.std.specs.Option.{option_map};
ghost use Rattle.xml_items.specs.Cutting.{tag_end_at, start_at, finish_at};
ghost use Rattle.xml_items.specs.Raw.{item_of};

use crate::attributes::attributes_at;
use crate::item::{RawAttribute, RawItem};
use crate::runs::NameByte;
use as4_values::NoMemory;
use byte_forms::{Blank, run_at, skip, strip_prefix};

/// A start tag, given the bytes after its `<`, and the rest.
#[tactic(auto, unfolding(crate::specs::Cutting::start_at))]
pub fn start_at<'a>(
    bytes: &'a [u8],
    attributes: &mut Vec<RawAttribute<'a>>,
) -> Result<Option<(RawItem<'a>, &'a [u8])>, NoMemory>
    requires { attributes.old.items ≡ [] }
    ensures { IfOk result (λ found.
        option_map (λ x. (item_of x.0 attributes.new.items, x.1.now)) found ≡ start_at bytes.now) }
{
    let Some((name, rest)) = run_at(NameByte, bytes) else {
        return Ok(None);
    };
    let rest = attributes_at(rest, attributes)?;
    let Some((closed, rest)) = tag_end_at(skip(Blank, rest)) else {
        return Ok(None);
    };
    Ok(Some((RawItem::Start { name, closed }, rest)))
}

/// An end tag, given the bytes after its `</`, and the rest.
#[tactic(auto, unfolding(crate::specs::Cutting::finish_at))]
pub fn finish_at(bytes: &[u8]) -> Option<(RawItem<'_>, &[u8])>
    ensures { option_map (λ x. (item_of x.0 [], x.1.now)) result ≡ finish_at bytes.now }
{
    let (name, rest) = run_at(NameByte, bytes)?;
    let rest = strip_prefix(b">", skip(Blank, rest))?;
    Some((RawItem::End { name }, rest))
}

// The end of a start tag: whether it is closed, and the rest.
#[tactic(auto, unfolding(crate::specs::Cutting::tag_end_at))]
fn tag_end_at(bytes: &[u8]) -> Option<(bool, &[u8])>
    ensures { option_map (λ x. (x.0, x.1.now)) result ≡ tag_end_at bytes.now }
{
    match strip_prefix(b"/>", bytes) {
        Some(rest) => Some((true, rest)),
        None => {
            let rest = strip_prefix(b">", bytes)?;
            Some((false, rest))
        }
    }
}

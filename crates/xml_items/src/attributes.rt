//! Attributes, one after another (XML 1.0, sections 2.3 and 3.1).
ghost use Rattle.std.specs.Prelude.{◌≡◌, [], IfOk, map};
ghost use Rattle.std.specs.Option.{option_map};
ghost use Rattle.xml_items.specs.Classes.{is_quote};
ghost use Rattle.xml_items.specs.Cutting.{value_in, value_at, attribute_at, attributes_at};
ghost use Rattle.xml_items.specs.Raw.{written_of};

use crate::item::RawAttribute;
use crate::runs::{NameByte, split_value};
use as4_values::NoMemory;
use byte_forms::{Blank, run_at, skip, strip_prefix};

/// The leading attributes, each after blanks, and the rest.
#[tactic(auto, using(crate::proofs::AttributeLemmas::all_of))]
pub fn attributes_at<'a>(
    bytes: &'a [u8],
    attributes: &mut Vec<RawAttribute<'a>>,
) -> Result<&'a [u8], NoMemory>
    requires { attributes.old.items ≡ [] }
    ensures { IfOk result (λ rest. (map written_of attributes.new.items, rest.now) ≡ attributes_at bytes.now) }
{
    let mut rest = bytes;
    'attributes: while let Some((attribute, after)) = attribute_at(rest) {
        attributes.push(attribute)?;
        rest = after;
    }
    Ok(rest)
}

// An attribute after blanks, and the rest.
#[tactic(auto, unfolding(crate::specs::Cutting::attribute_at))]
fn attribute_at(bytes: &[u8]) -> Option<(RawAttribute<'_>, &[u8])>
    ensures { option_map (λ x. (written_of x.0, x.1.now)) result ≡ attribute_at bytes.now }
{
    let (_, rest) = run_at(Blank, bytes)?;
    let (name, rest) = run_at(NameByte, rest)?;
    let rest = strip_prefix(b"=", skip(Blank, rest))?;
    let (value, rest) = value_at(skip(Blank, rest))?;
    Some((RawAttribute { name, value }, rest))
}

// A value between its quotes, and the rest.
#[tactic(auto, unfolding(crate::specs::Cutting::value_at))]
fn value_at(bytes: &[u8]) -> Option<(&[u8], &[u8])>
    ensures { option_map (λ x. (x.0.now, x.1.now)) result ≡ value_at bytes.now }
{
    match bytes {
        [] => None,
        [quote, rest @ ..] => {
            if !is_quote(*quote) {
                return None;
            }
            value_in(*quote, rest)
        }
    }
}

// A value after its first quote, and the bytes after the second.
#[tactic(auto, unfolding(crate::specs::Cutting::value_in))]
fn value_in(quote: u8, bytes: &[u8]) -> Option<(&[u8], &[u8])>
    ensures { option_map (λ x. (x.0.now, x.1.now)) result ≡ value_in quote bytes.now }
{
    let (value, rest) = split_value(quote, bytes);
    let rest = strip_prefix(&[quote], rest)?;
    Some((value, rest))
}

fn is_quote(byte: u8) -> bool
    ensures { result ≡ is_quote byte }
{
    matches!(byte, b'"' | b'\'')
}

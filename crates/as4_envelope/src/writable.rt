//! Which trees can be written.

ghost use Rattle.std.specs.Prelude.{◌≡◌};
ghost use Rattle.std.specs.List.{list_all, list_any};
ghost use Rattle.as4_envelope.specs.Writable.{has_prefix, is_attribute, same_name, names_differ, is_sound, fits, is_writable};
ghost use Rattle.as4_envelope.specs.declared.tree.Element.TheViews.{out-Element};
ghost use Rattle.as4_values.specs.Texts.{is_xml};

use crate::bytes::TreeBytes;
use crate::tree::{Attribute, Element};
use crate::write::{EBMS, SOAP};
use as4_values::first_not_xml;

/// The maximum depth of a tree; its outermost element has depth 1.
pub const MAX_DEPTH: usize = 32;

const _: () = prove!(MAX_DEPTH == 32);

/// Whether a tree can be written: its names are in the namespaces of SOAP and ebMS (those of attributes also in
/// none), no two attributes of an element have one name, texts and values hold characters of XML, and it is at
/// most 32 levels deep.
pub fn is_writable(tree: &Element) -> bool
    ensures { result ≡ is_writable tree.now }
{
    fits(tree, MAX_DEPTH)
}

/// Whether the element and its descendants can be written in this many levels.
#[cycle(levels)]
#[tactic(auto, using(crate::proofs::WritableLemmas::fits_out, std::proofs::lemmas::Bool::Decides::nat_tests))]
fn fits(element: &Element, levels: usize) -> bool
    ensures { result ≡ fits element.now levels }
{
    if levels == 0 {
        return false;
    }
    is_sound(element) && all_fit(element.children.items(), levels - 1)
}

#[cycle(levels)]
fn all_fit(children: &[Element], levels: usize) -> bool
    ensures { result ≡ list_all (λ child. fits child levels) children.now }
{
    for child in children {
        if !fits(child, levels) {
            return false;
        }
    }
    true
}

/// Whether the element itself can be written, apart from its children.
fn is_sound(element: &Element) -> bool
    ensures { result ≡ is_sound (out-Element element.now) }
{
    has_prefix(&element.space)
        && is_xml(element.text.bytes())
        && all_attributes(element.attributes.items())
        && names_differ(element.attributes.items())
}

fn all_attributes(attributes: &[Attribute]) -> bool
    ensures { result ≡ list_all is_attribute attributes.now }
{
    attributes.iter().all(is_attribute)
}

#[tactic(auto, unfolding(crate::specs::Writable::is_attribute))]
fn is_attribute(attribute: &Attribute) -> bool
    ensures { result ≡ is_attribute attribute.now }
{
    (attribute.space.bytes().is_empty() || has_prefix(&attribute.space))
        && is_xml(attribute.value.bytes())
}

#[tactic(auto, unfolding(crate::specs::Writable::has_prefix))]
fn has_prefix(space: &TreeBytes) -> bool
    ensures { result ≡ has_prefix space.now }
{
    space.bytes() == SOAP || space.bytes() == EBMS
}

fn names_differ(attributes: &[Attribute]) -> bool
    ensures { result ≡ names_differ attributes.now }
{
    for (at, attribute) in attributes.iter().enumerate() {
        if is_named(&attributes[at + 1..], attribute) {
            return false;
        }
    }
    true
}

/// Whether one of the attributes has the same name as this one.
fn is_named(attributes: &[Attribute], like: &Attribute) -> bool
    ensures { result ≡ list_any (same_name like.now) attributes.now }
{
    attributes.iter().any(|other| same_name(like, other))
}

fn same_name(one: &Attribute, other: &Attribute) -> bool
    ensures { result ≡ same_name one.now other.now }
{
    one.space.bytes() == other.space.bytes() && one.local.bytes() == other.local.bytes()
}

/// Whether the bytes are characters of XML in UTF-8.
fn is_xml(bytes: &[u8]) -> bool
    ensures { result ≡ is_xml bytes.now }
{
    first_not_xml(bytes).is_none()
}

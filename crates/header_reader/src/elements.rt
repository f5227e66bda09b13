//! The content of an element: its attributes and its children, by their names.

ghost use Rattle.std.specs.Prelude.{◌≡◌, Option, option_map, bytes_eq, unwrap_or, []};
ghost use Rattle.std.specs.List.{list_any};
ghost use Rattle.std.specs.Option.{option_copied};
ghost use Rattle.as4_envelope.specs.declared.tree.Element.{Element as ElementValue};
ghost use Rattle.header_reader.specs.Elements.{children_of, is_plain, attribute_of, optional_attribute, attribute, is_ebms, is_named, named, may_stand, holds_only, at_most_one, child, optional_child, each, children, leaf};
ghost use Rattle.header_reader.specs.Gives.{Gives};
ghost use Rattle.header_reader.specs.Names.{element_name};

use crate::names::{AttributeName, ElementName};
use crate::refusal::HeaderRefusal;
use crate::values::{Value, read_optional};
use as4_envelope::{Attribute, EBMS, Element};
use as4_values::Seq;
use std::alloc::Global;

/// A value that is read from an element.
pub trait Readable: Drop {
    ghost meaning: { ElementValue → Option Self };

    fn read(alloc: Global, element: &Element) -> Result<Self, HeaderRefusal>
        ensures { Gives result (meaning element.now) };
}

/// Whether the attribute is in no namespace and has this name.
fn is_plain(attribute: &Attribute, name: AttributeName) -> bool
    ensures { result ≡ is_plain name attribute.now }
{
    attribute.space.bytes().is_empty() && attribute.local.bytes() == name.text()
}

/// The value of the attribute of this name that is in no namespace.
#[tactic(auto, unfolding(crate::specs::Elements::attribute_of))]
pub fn attribute_of<'a>(element: &'a Element, name: AttributeName) -> Option<&'a [u8]>
    ensures { option_copied result ≡ attribute_of name element.now }
{
    match element
        .attributes
        .items()
        .iter()
        .find(|attribute| is_plain(attribute, name))
    {
        Some(attribute) => Some(attribute.value.bytes()),
        None => None,
    }
}

/// Reads an optional attribute; only blanks count as no value.
#[tactic(auto, unfolding(crate::specs::Elements::optional_attribute))]
pub fn optional_attribute<T: Value>(
    alloc: Global,
    element: &Element,
    name: AttributeName,
) -> Result<Option<T>, HeaderRefusal>
    ensures { Gives result (optional_attribute T.value_of name element.now) }
{
    match attribute_of(element, name) {
        Some(bytes) => read_optional(alloc, bytes),
        None => Ok(None),
    }
}

/// Reads a required attribute.
#[tactic(auto, unfolding(crate::specs::Elements::attribute))]
pub fn attribute<T: Value>(
    alloc: Global,
    element: &Element,
    name: AttributeName,
) -> Result<T, HeaderRefusal>
    ensures { Gives result (attribute T.value_of name element.now) }
{
    match attribute_of(element, name) {
        Some(bytes) => T::read_value(alloc, bytes),
        None => Err(HeaderRefusal::Invalid),
    }
}

fn is_ebms(element: &Element) -> bool
    ensures { result ≡ is_ebms element.now }
{
    element.space.bytes() == EBMS
}

/// Whether the element is of ebMS and has this name.
#[tactic(auto, unfolding(crate::specs::Elements::is_named))]
pub fn is_named(element: &Element, name: ElementName) -> bool
    ensures { result ≡ is_named name element.now }
{
    is_ebms(element) && element.local.bytes() == name.text()
}

/// Whether each child of ebMS has one of these names.
#[tactic(auto, unfolding(crate::specs::Elements::holds_only))]
pub fn holds_only(element: &Element, names: &[ElementName]) -> bool
    ensures { result ≡ holds_only names.now element.now }
{
    element
        .children
        .items()
        .iter()
        .all(|child| may_stand(child, names))
}

/// Whether the child is outside of ebMS, or has one of these names.
#[tactic(auto, unfolding(crate::specs::Elements::may_stand))]
fn may_stand(child: &Element, names: &[ElementName]) -> bool
    ensures { result ≡ may_stand names.now child.now }
{
    !is_ebms(child) || is_among(child.local.bytes(), names)
}

fn is_among(local: &[u8], names: &[ElementName]) -> bool
    ensures { result ≡ list_any (λ name. bytes_eq local.now (element_name name)) names.now }
{
    names.iter().any(|name| local == name.text())
}

/// The child of ebMS with this name, if there is one; `None` if there are two.
pub fn at_most_one<'a>(element: &'a Element, name: ElementName) -> Option<Option<&'a Element>>
    ensures { option_map (option_map (λ child. child.now)) result ≡ at_most_one (named name (children_of element.now)) }
{
    let mut found = None;
    for child in element.children.items() {
        if is_named(child, name) {
            if found.is_some() {
                return None;
            }
            found = Some(child);
        }
    }
    Some(found)
}

/// Reads the one child of this name.
#[tactic(auto, unfolding(crate::specs::Elements::child))]
pub fn child<T: Readable>(
    alloc: Global,
    element: &Element,
    name: ElementName,
) -> Result<T, HeaderRefusal>
    ensures { Gives result (child T.meaning name element.now) }
{
    match at_most_one(element, name) {
        Some(Some(child)) => T::read(alloc, child),
        Some(None) => Err(HeaderRefusal::Invalid),
        None => Err(HeaderRefusal::Invalid),
    }
}

/// Reads the child of this name, if there is one.
#[tactic(auto, unfolding(crate::specs::Elements::optional_child))]
pub fn optional_child<T: Readable>(
    alloc: Global,
    element: &Element,
    name: ElementName,
) -> Result<Option<T>, HeaderRefusal>
    ensures { Gives result (optional_child T.meaning name element.now) }
{
    match at_most_one(element, name) {
        Some(Some(child)) => Ok(Some(T::read(alloc, child)?)),
        Some(None) => Ok(None),
        None => Err(HeaderRefusal::Invalid),
    }
}

/// Reads all children of this name, in their order.
#[tactic(auto, unfolding(crate::specs::Elements::children))]
pub fn children<T: Readable>(
    alloc: Global,
    element: &Element,
    name: ElementName,
) -> Result<Seq<T>, HeaderRefusal>
    ensures { Gives result (children T.meaning name element.now) }
{
    let mut items = Vec::new(alloc);
    for child in element.children.items() {
        if is_named(child, name) {
            items.push(T::read(alloc, child)?)?;
        }
    }
    Ok(Seq::of(items))
}

/// Reads an element without children of ebMS, by its text.
#[tactic(auto, unfolding(crate::specs::Elements::leaf))]
pub fn leaf<T: Value>(alloc: Global, element: &Element) -> Result<T, HeaderRefusal>
    ensures { Gives result (leaf T.value_of element.now) }
{
    if !holds_only(element, &[]) {
        return Err(HeaderRefusal::Invalid);
    }
    T::read_value(alloc, element.text.bytes())
}

/// The list, or an empty one.
pub fn or_empty<T: Drop>(alloc: Global, list: Option<Seq<T>>) -> Seq<T>
    ensures { result ≡ unwrap_or list [] }
{
    match list {
        Some(list) => list,
        None => Seq::of(Vec::new(alloc)),
    }
}

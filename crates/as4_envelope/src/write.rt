//! Appends trees to a buffer.

ghost use Rattle.std.specs.Prelude.{◌≡◌, ◌++◌, IfOk, OnOk, [], IsTrue};
ghost use Rattle.std.specs.List.{flat_map};
ghost use Rattle.as4_envelope.specs.Tree.{prefix_of, attribute_text, start_text, end_text, declarations, element_text, child_text, tree_text};
ghost use Rattle.as4_envelope.specs.Writable.{is_writable};

use crate::bytes::TreeBytes;
use crate::markup::{push_attribute, push_escaped, push_tag_end, push_tag_start, push_value};
use crate::tree::{Attribute, Element};
use as4_values::{NoMemory, Octets};
use std::alloc::Global;

/// The namespace of SOAP 1.2.
pub const SOAP: &[u8] = b"http://www.w3.org/2003/05/soap-envelope";

/// The namespace of ebMS 3.0.
pub const EBMS: &[u8] = b"http://docs.oasis-open.org/ebxml-msg/ebms/v3.0/ns/core/200704/";

/// The single text of a tree, in UTF-8. The outermost element declares the prefixes `S` and `eb`, whatever its name is.
pub fn write_tree(alloc: Global, tree: &Element) -> Result<Octets, NoMemory>
    requires { IsTrue (is_writable tree.now) }
    ensures { IfOk result (λ text. text ≡ tree_text tree.now) }
{
    let mut declared = Vec::with_capacity(alloc, 256)?;
    push_declarations(&mut declared)?;
    let mut out = Vec::with_capacity(alloc, 1024)?;
    push_element(&mut out, tree, declared.as_slice())?;
    Ok(Octets::of(out))
}

fn push_declarations(out: &mut Vec<u8>) -> Result<(), NoMemory>
    ensures { OnOk result (out.new.items ≡ out.old.items ++ declarations) }
{
    push_attribute(out, b"xmlns:S", SOAP)?;
    push_attribute(out, b"xmlns:eb", EBMS)?;
    Ok(())
}

/// An element, with these declarations before its attributes.
#[cycle(tree)]
fn push_element(out: &mut Vec<u8>, element: &Element, declared: &[u8]) -> Result<(), NoMemory>
    ensures { OnOk result (out.new.items ≡ out.old.items ++ element_text element.now declared.now) }
{
    push_start(out, element, declared)?;
    push_escaped(out, element.text.bytes())?;
    push_children(out, element.children.items())?;
    push_end(out, element)?;
    Ok(())
}

#[cycle(tree)]
#[tactic(auto, unfolding(crate::specs::Tree::child_text))]
fn push_children(out: &mut Vec<u8>, children: &[Element]) -> Result<(), NoMemory>
    ensures { OnOk result (out.new.items ≡ out.old.items ++ flat_map child_text children.now) }
{
    for child in children {
        push_element(out, child, b"")?;
    }
    Ok(())
}

/// The start tag.
#[tactic(auto, unfolding(crate::specs::Markup::tag_start))]
fn push_start(out: &mut Vec<u8>, element: &Element, declared: &[u8]) -> Result<(), NoMemory>
    ensures { OnOk result (out.new.items ≡ out.old.items ++ start_text element.now declared.now) }
{
    push_tag_start(out, prefix_of(&element.space))?;
    out.extend_from_slice(element.local.bytes())?;
    out.extend_from_slice(declared)?;
    push_attributes(out, element.attributes.items())?;
    push_tag_end(out)
}

/// The end tag.
#[tactic(auto, unfolding(crate::specs::Markup::end_tag, crate::specs::Markup::tag_end))]
fn push_end(out: &mut Vec<u8>, element: &Element) -> Result<(), NoMemory>
    ensures { OnOk result (out.new.items ≡ out.old.items ++ end_text element.now) }
{
    out.extend_from_slice(b"</")?;
    out.extend_from_slice(prefix_of(&element.space))?;
    out.extend_from_slice(element.local.bytes())?;
    push_tag_end(out)
}

fn push_attributes(out: &mut Vec<u8>, attributes: &[Attribute]) -> Result<(), NoMemory>
    ensures { OnOk result (out.new.items ≡ out.old.items ++ flat_map attribute_text attributes.now) }
{
    for attribute in attributes {
        push_attribute_of(out, attribute)?;
    }
    Ok(())
}

#[tactic(auto, unfolding(crate::specs::Markup::attribute))]
fn push_attribute_of(out: &mut Vec<u8>, attribute: &Attribute) -> Result<(), NoMemory>
    ensures { OnOk result (out.new.items ≡ out.old.items ++ attribute_text attribute.now) }
{
    out.push(b' ')?;
    out.extend_from_slice(prefix_of(&attribute.space))?;
    out.extend_from_slice(attribute.local.bytes())?;
    push_value(out, attribute.value.bytes())
}

/// The prefix of a name in this namespace, with its colon.
#[tactic(auto, unfolding(crate::specs::Tree::prefix_of))]
fn prefix_of(space: &TreeBytes) -> &'static [u8]
    ensures { result.now ≡ prefix_of space.now }
{
    if space.bytes() == SOAP {
        b"S:"
    } else if space.bytes() == EBMS {
        b"eb:"
    } else {
        b""
    }
}

//! Trees from short texts: elements with a start and an end tag, attributes in double quotes after one space each, and
//! an element's text directly after its start tag. The prefix `S` means SOAP, `eb` ebMS, and every other one itself.

use as4_envelope::{Attribute, Attributes, EBMS, Element, SOAP, TreeBytes};
use as4_values::Seq;
use std::alloc::Global;

fn octets(alloc: Global, bytes: &[u8]) -> Option<TreeBytes> {
    TreeBytes::copied(alloc, bytes).ok()
}

/// The namespace and the local name.
fn expanded(name: &str) -> (&[u8], &str) {
    match name.split_once(':') {
        Some(("S", local)) => (SOAP, local),
        Some(("eb", local)) => (EBMS, local),
        Some((prefix, local)) => (prefix.as_bytes(), local),
        None => (b"", name),
    }
}

fn attribute(alloc: Global, name: &str, value: &str) -> Option<Attribute> {
    let (space, local) = expanded(name);
    let names = octets(alloc, space).zip(octets(alloc, local.as_bytes()));
    let ((space, local), value) = names.zip(octets(alloc, value.as_bytes()))?;
    Some(Attribute {
        space,
        local,
        value,
    })
}

/// The attributes of a start tag, from the bytes after its name.
fn attributes(alloc: Global, tag: &str) -> Option<Vec<Attribute>> {
    let mut list = Vec::new(alloc);
    let mut rest = tag;
    for _ in 0..tag.len() {
        let Some((name, behind)) = rest.split_once("=\"") else {
            return Some(list);
        };
        let Some((value, behind)) = behind.split_once('"') else {
            drop(list);
            return None;
        };
        let Some(attribute) = attribute(alloc, name.trim(), value) else {
            drop(list);
            return None;
        };
        if list.push(attribute).is_err() {
            drop(list);
            return None;
        }
        rest = behind;
    }
    Some(list)
}

/// The element of a start tag, with its text.
fn element(alloc: Global, tag: &str, text: &str) -> Option<Element> {
    let (name, behind) = tag.split_once(' ').unwrap_or((tag, ""));
    let (space, local) = expanded(name);
    let names = octets(alloc, space).zip(octets(alloc, local.as_bytes()));
    let held = attributes(alloc, behind).zip(octets(alloc, text.as_bytes()));
    let ((space, local), (attributes, text)) = names.zip(held)?;
    Some(Element {
        space,
        local,
        attributes: Attributes::of(attributes),
        text,
        children: Seq::of(Vec::new(alloc)),
    })
}

/// The parent, with one more child.
fn with_child(parent: Element, child: Element) -> Option<Element> {
    let Element {
        space,
        local,
        attributes,
        text,
        children,
    } = parent;
    let mut children = children.into_vec();
    if children.push(child).is_err() {
        drop((space, local, attributes));
        drop((text, children));
        return None;
    }
    Some(Element {
        space,
        local,
        attributes,
        text,
        children: Seq::of(children),
    })
}

/// The tree of a text.
pub fn tree_of(alloc: Global, text: &str) -> Option<Element> {
    let mut open: Vec<Element> = Vec::new(alloc);
    let mut rest = text;
    for _ in 0..text.len() {
        let (_, behind) = rest.split_once('<')?;
        let (tag, behind) = behind.split_once('>')?;
        rest = behind;
        if tag.starts_with('/') {
            let done = open.pop()?;
            match open.pop() {
                Some(parent) => open.push(with_child(parent, done)?).ok()?,
                None => return Some(done),
            }
        } else {
            let (text, _) = behind.split_once('<')?;
            open.push(element(alloc, tag, text)?).ok()?;
        }
    }
    None
}

//! Trees and refusals as lines of text.

use as4_envelope::{Attribute, Element};
use as4_values::NoMemory;
use std::alloc::Global;
use tree_reader::{TreeRefusal, read_tree};

/// The tree of a document, or the refusal. An element is `{space}local`, then `[{space}local=value]` for each
/// attribute, the text in quotes if there is one, and the children in brackets if there are any.
pub fn shown(alloc: Global, bytes: &[u8]) -> Result<Vec<u8>, NoMemory> {
    match read_tree(alloc, bytes) {
        Ok(tree) => {
            let text = tree_text(alloc, &tree);
            drop(tree);
            text
        }
        Err(refusal) => refusal_text(alloc, refusal),
    }
}

fn tree_text(alloc: Global, tree: &Element) -> Result<Vec<u8>, NoMemory> {
    let mut out = Vec::new(alloc);
    push_element(&mut out, tree)?;
    Ok(out)
}

fn refusal_text(alloc: Global, refusal: TreeRefusal) -> Result<Vec<u8>, NoMemory> {
    let text = match refusal {
        TreeRefusal::TooLong => format!(in alloc; "TooLong")?,
        TreeRefusal::Markup { at } => format!(in alloc; "Markup {at}")?,
        TreeRefusal::TooDeep { at } => format!(in alloc; "TooDeep {at}")?,
        TreeRefusal::NoMemory => return Err(NoMemory),
    };
    Ok(text.into_bytes())
}

#[cycle(shown)]
fn push_element(out: &mut Vec<u8>, element: &Element) -> Result<(), NoMemory> {
    push_name(out, element.space.bytes(), element.local.bytes())?;
    push_attributes(out, element.attributes.items())?;
    if !element.text.bytes().is_empty() {
        out.push(b'"')?;
        out.extend_from_slice(element.text.bytes())?;
        out.push(b'"')?;
    }
    push_children(out, element.children.items())
}

#[cycle(shown)]
fn push_children(out: &mut Vec<u8>, children: &[Element]) -> Result<(), NoMemory> {
    for child in children {
        out.push(b'(')?;
        push_element(out, child)?;
        out.push(b')')?;
    }
    Ok(())
}

fn push_attributes(out: &mut Vec<u8>, attributes: &[Attribute]) -> Result<(), NoMemory> {
    for attribute in attributes {
        out.push(b'[')?;
        push_name(out, attribute.space.bytes(), attribute.local.bytes())?;
        out.push(b'=')?;
        out.extend_from_slice(attribute.value.bytes())?;
        out.push(b']')?;
    }
    Ok(())
}

fn push_name(out: &mut Vec<u8>, space: &[u8], local: &[u8]) -> Result<(), NoMemory> {
    out.push(b'{')?;
    out.extend_from_slice(space)?;
    out.push(b'}')?;
    out.extend_from_slice(local)?;
    Ok(())
}

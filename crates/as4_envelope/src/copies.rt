//! Copies of trees, and their comparison.

ghost use Rattle.std.specs.Prelude.{◌≡◌, ◌↔◌, IfOk, IsTrue};
ghost use Rattle.as4_envelope.specs.declared.tree.Element.TheViews.{out-Element};

use crate::tree::{Attribute, Element};
use as4_values::{NoMemory, PlainData, Seq};
use std::alloc::Global;

impl PlainData for Attribute {
    fn try_clone(&self, alloc: Global) -> Result<Attribute, NoMemory> {
        Ok(Attribute {
            space: self.space.try_clone(alloc)?,
            local: self.local.try_clone(alloc)?,
            value: self.value.try_clone(alloc)?,
        })
    }

    fn same(&self, other: &Attribute) -> bool {
        self.space.same(&other.space)
            && self.local.same(&other.local)
            && self.value.same(&other.value)
    }
}

impl PlainData for Element {
    fn try_clone(&self, alloc: Global) -> Result<Element, NoMemory> {
        copy_of(alloc, self)
    }

    fn same(&self, other: &Element) -> bool {
        is_same(self, other)
    }
}

#[cycle(copies)]
fn copy_of(alloc: Global, element: &Element) -> Result<Element, NoMemory>
    ensures { IfOk result (λ copy. copy ≡ element.now) }
{
    Ok(Element {
        space: element.space.try_clone(alloc)?,
        local: element.local.try_clone(alloc)?,
        attributes: element.attributes.try_clone(alloc)?,
        text: element.text.try_clone(alloc)?,
        children: copies_of(alloc, element.children.items())?,
    })
}

#[cycle(copies)]
fn copies_of(alloc: Global, elements: &[Element]) -> Result<Seq<Element>, NoMemory>
    ensures { IfOk result (λ copies. copies ≡ elements.now) }
{
    let mut copies = Vec::with_capacity(alloc, elements.len())?;
    for element in elements {
        copies.push(copy_of(alloc, element)?)?;
    }
    Ok(Seq::of(copies))
}

/// Whether the two are equal apart from their children.
fn is_same_alone(one: &Element, other: &Element) -> bool
    ensures { IsTrue result ↔ (((out-Element one.now).space ≡ (out-Element other.now).space)
        × ((out-Element one.now).local ≡ (out-Element other.now).local)
        × ((out-Element one.now).attributes ≡ (out-Element other.now).attributes)
        × ((out-Element one.now).text ≡ (out-Element other.now).text)) }
{
    one.space.same(&other.space)
        && one.local.same(&other.local)
        && one.attributes.same(&other.attributes)
        && one.text.same(&other.text)
}

#[cycle(sameness)]
fn is_same(one: &Element, other: &Element) -> bool
    ensures { IsTrue result ↔ (one.now ≡ other.now) }
{
    if !is_same_alone(one, other) {
        return false;
    }
    are_same(one.children.items(), other.children.items())
}

#[cycle(sameness)]
fn are_same(ones: &[Element], others: &[Element]) -> bool
    ensures { IsTrue result ↔ (ones.now ≡ others.now) }
{
    if ones.len() != others.len() {
        return false;
    }
    for (one, other) in ones.iter().zip(others) {
        if !is_same(one, other) {
            return false;
        }
    }
    true
}

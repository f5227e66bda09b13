//! The attributes of an element.
//!
//!     one     in the value itself
//!     many    in a separate list; also for no attributes

ghost use Rattle.std.specs.Prelude.{◌≡◌, ◌↔◌, ◌∷◌, [], IsTrue};

use crate::tree::Attribute;
use as4_values::{NoMemory, PlainData, Seq};
use std::alloc::Global;
use std::marker::Model;
use std::slice;

/// Attributes in order. A single one needs no separate memory.
#[derive(Drop)]
pub struct Attributes {
    held: Held,
}

impl Model for Attributes {
    ghost use Rattle.std.specs.Prelude.{List};
    ghost use Rattle.as4_envelope.specs.declared.tree.Attribute.{Attribute};
    ghost use Rattle.as4_envelope.specs.Held.{held_attributes};

    ghost Value = { List Attribute };

    ghost view = { λ attributes. held_attributes attributes.held };
}

#[derive(Drop)]
enum Held {
    One(Attribute),
    Many(Seq<Attribute>),
}

impl Attributes {
    pub fn one(attribute: Attribute) -> Attributes
        ensures { result ≡ attribute ∷ [] }
    {
        Attributes {
            held: Held::One(attribute),
        }
    }

    /// Takes ownership of the attributes, without a copy.
    pub fn of(list: Vec<Attribute>) -> Attributes
        ensures { result ≡ list.items }
    {
        Attributes {
            held: Held::Many(Seq::of(list)),
        }
    }

    pub fn items(&self) -> &[Attribute]
        ensures { result.now ≡ self.now }
    {
        match &self.held {
            Held::One(attribute) => slice::from_ref(attribute),
            Held::Many(list) => list.items(),
        }
    }
}

impl PlainData for Attributes {
    fn try_clone(&self, alloc: Global) -> Result<Attributes, NoMemory> {
        match &self.held {
            Held::One(attribute) => Ok(Attributes::one(attribute.try_clone(alloc)?)),
            Held::Many(list) => Ok(Attributes {
                held: Held::Many(list.try_clone(alloc)?),
            }),
        }
    }

    fn same(&self, other: &Attributes) -> bool {
        match (&self.held, &other.held) {
            (Held::One(one), Held::One(other)) => one.same(other),
            (Held::Many(list), Held::Many(other)) => list.same(other),
            (Held::One(one), Held::Many(list)) | (Held::Many(list), Held::One(one)) => {
                is_alone(list.items(), one)
            }
        }
    }
}

/// Whether the list consists of this attribute.
fn is_alone(list: &[Attribute], attribute: &Attribute) -> bool
    ensures { IsTrue result ↔ (list.now ≡ attribute.now ∷ []) }
{
    match list {
        [only] => only.same(attribute),
        _ => false,
    }
}

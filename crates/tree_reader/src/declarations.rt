//! Namespace declarations of a tag (Namespaces in XML 1.0, section 3).

ghost use Rattle.std.specs.Prelude.{◌≡◌, map, IfOk};
ghost use Rattle.std.specs.Option.{option_map};
ghost use Rattle.tree_reader.specs.Scopes.{found};
ghost use Rattle.tree_reader.specs.Declarations.{binding_of, Indexes};

use as4_envelope::TreeBytes;
use std::alloc::{AllocError, Global};
use std::collections::BTreeMap;
use std::marker::Model;

/// A namespace declaration.
#[derive(Drop)]
pub(crate) struct Declared<'a> {
    /// Empty for names without a prefix.
    pub prefix: &'a [u8],
    pub space: TreeBytes,
}

/// Up to this many declarations are searched in order; more have an index.
const FEW: usize = 8;

/// The declarations of a tag, in order.
#[derive(Drop)]
pub(crate) struct Declarations<'a> {
    list: Vec<Declared<'a>>,
    /// The index of the first declaration of each prefix, if there are more than a few.
    index: Option<Box<BTreeMap<&'a [u8], usize>>>,
}

impl<'a> Model for Declarations<'a> {
    ghost use Rattle.std.specs.Prelude.{List, map};
    ghost use Rattle.tree_reader.specs.Scopes.{Binding};
    ghost use Rattle.tree_reader.specs.Declarations.{binding_of, IsIndexed};

    ghost Value = { List Binding };

    ghost view = { λ d. map binding_of d.list.items };

    ghost invariant = { λ d. IsIndexed d.index d.list.items };
}

impl<'a> Declarations<'a> {
    pub(crate) fn of(alloc: Global, list: Vec<Declared<'a>>) -> Result<Declarations<'a>, AllocError>
        ensures { IfOk result (λ declarations. declarations ≡ map binding_of list.entry.items) }
    {
        if list.len() <= FEW {
            return Ok(Declarations { list, index: None });
        }
        let index = Box::new(alloc, index_of(alloc, list.as_slice())?)?;
        Ok(Declarations {
            list,
            index: Some(index),
        })
    }

    /// The namespace in the first declaration of this prefix.
    #[inline(always)]
    pub(crate) fn found(&self, prefix: &'a [u8]) -> Option<&TreeBytes>
        ensures { option_map (λ x. x.now) result ≡ found self.now prefix.now }
    {
        match &self.index {
            None => found_in(self.list.as_slice(), prefix),
            Some(index) => found_by(index, self.list.as_slice(), prefix),
        }
    }
}

/// The index of the first declaration of each prefix.
fn index_of<'a>(
    alloc: Global,
    list: &[Declared<'a>],
) -> Result<BTreeMap<&'a [u8], usize>, AllocError>
    ensures { IfOk result (λ index. Indexes index list.now list.now) }
{
    let mut index = BTreeMap::new(alloc);
    let mut at = list.len();
    while at > 0 {
        at -= 1;
        index.insert(list[at].prefix, at)?;
    }
    Ok(index)
}

/// Like `found_in`, but uses the index. A separate function keeps the inlined code of `found` small.
#[inline(never)]
fn found_by<'s, 'a>(
    index: &BTreeMap<&'a [u8], usize>,
    declared: &'s [Declared<'a>],
    prefix: &'a [u8],
) -> Option<&'s TreeBytes>
    requires { Indexes index.now declared.now declared.now }
    ensures { option_map (λ x. x.now) result ≡ found (map binding_of declared.now) prefix.now }
{
    let at = index.get(&prefix)?;
    let binding = declared.get(*at)?;
    Some(&binding.space)
}

/// The namespace to which the first of the declarations binds the prefix.
fn found_in<'s>(declared: &'s [Declared<'_>], prefix: &[u8]) -> Option<&'s TreeBytes>
    ensures { option_map (λ x. x.now) result ≡ found (map binding_of declared.now) prefix.now }
{
    for binding in declared {
        if binding.prefix == prefix {
            return Some(&binding.space);
        }
    }
    None
}

//! Prefixes and their namespaces (Namespaces in XML 1.0, sections 2 to 6).

ghost use Rattle.std.specs.Prelude.{◌≡◌, ◌++◌, map, IsTrue, IfErr, OnOk, ◌≤◌, length, [], ◌∷◌};
ghost use Rattle.std.specs.Option.{option_map, option_to_list};
ghost use Rattle.xml_items.specs.Raw.{written_of};
ghost use Rattle.tree_reader.specs.Scopes.{may_bind, bound, declared_by, found, element_space, attribute_space, attribute_by, scope_of, named, resolve, binds_default, binds_prefix};
ghost use Rattle.tree_reader.specs.Steps.{gathered};
ghost use Rattle.tree_reader.specs.Views.{Finds, Adds, Opens, stack_of, scope_in};
ghost use Rattle.tree_reader.specs.Declarations.{binding_of};
ghost use Rattle.tree_reader.specs.declared.stop.Stop.TheVariants.{Memory};

use crate::apart::{names_differ, written_differ};
use crate::declarations::{Declarations, Declared};
use crate::names::{is_local_name, qualified};
use crate::stop::Stop;
use crate::text::value_meant;
use as4_envelope::{Attribute, Attributes, EBMS, Element, SOAP, TreeBytes};
use as4_values::PlainData;
use std::alloc::Global;
use xml_items::RawAttribute;

/// The namespace of the prefix `xml`.
const XML: &[u8] = b"http://www.w3.org/XML/1998/namespace";

/// The namespace of the prefix `xmlns`.
const XMLNS: &[u8] = b"http://www.w3.org/2000/xmlns/";

/// An open element.
#[derive(Drop)]
pub(crate) struct Open<'a> {
    /// As written.
    pub name: &'a [u8],
    pub declared: Declarations<'a>,
    pub space: TreeBytes,
    pub local: TreeBytes,
    pub attributes: Attributes,
    pub text: TreeBytes,
    pub children: Vec<Element>,
}

/// Opens the element that a start tag begins inside those of `around`, the last of which is the innermost.
#[tactic(auto, unfolding(crate::specs::Scopes::resolve), using(crate::proofs::ScopeLemmas::stack_push))]
pub(crate) fn resolve<'a>(
    alloc: Global,
    around: &mut Vec<Open<'a>>,
    name: &'a [u8],
    attributes: &[RawAttribute<'a>],
) -> Result<(), Stop>
    ensures { Opens result (resolve (scope_of (stack_of around.old.items)) name.now (map written_of attributes.now)) (stack_of around.old.items) (stack_of around.new.items) }
{
    if !written_differ(alloc, attributes)? {
        return Err(Stop::Markup);
    }
    around.reserve(1)?;
    let declared = Declarations::of(alloc, declared_by(alloc, attributes)?)?;
    let Some(written) = qualified(name) else {
        return Err(Stop::Markup);
    };
    let outer = around.as_slice();
    let scope = Scope {
        declared: &declared,
        around: outer,
    };
    let space = element_space(alloc, scope, written.prefix)?;
    let pairs = attributes_by(alloc, scope, attributes)?;
    if !names_differ(alloc, pairs.items())? {
        return Err(Stop::Markup);
    }
    around.push_reserved(Open {
        name,
        declared,
        space,
        local: TreeBytes::new(),
        attributes: pairs,
        text: TreeBytes::new(),
        children: Vec::new(alloc),
    });
    put_local(alloc, around, written.local)
}

/// Appends the local name to the innermost element in place, without a copy.
fn put_local(alloc: Global, around: &mut Vec<Open<'_>>, local: &[u8]) -> Result<(), Stop>
    ensures ok { OnOk result (stack_of around.new.items ≡ named local.now (stack_of around.old.items)) }
    ensures err { IfErr result (λ stop. stop ≡ Memory) }
{
    if let Some(open) = around.last_mut() {
        open.local.append(alloc, local)?;
    }
    Ok(())
}

/// The declarations of a tag, and the elements around it.
#[derive(Clone, Copy)]
struct Scope<'s, 'a> {
    declared: &'s Declarations<'a>,
    around: &'s [Open<'a>],
}

/// The declarations among the attributes, in order.
fn declared_by<'a>(
    alloc: Global,
    attributes: &[RawAttribute<'a>],
) -> Result<Vec<Declared<'a>>, Stop>
    ensures { Finds (λ v. map binding_of v.items) result (gathered declared_by (map written_of attributes.now)) }
{
    let mut declared = Vec::new(alloc);
    for attribute in attributes {
        push_declared(alloc, &mut declared, *attribute)?;
    }
    Ok(declared)
}

/// Adds the attribute's declaration, if it is one.
#[tactic(auto, unfolding(crate::specs::Scopes::declared_by))]
fn push_declared<'a>(
    alloc: Global,
    out: &mut Vec<Declared<'a>>,
    attribute: RawAttribute<'a>,
) -> Result<(), Stop>
    ensures { Adds result (declared_by (written_of attribute.entry)) (map binding_of out.old.items) (map binding_of out.new.items) }
{
    if binds_default(attribute.name) {
        out.push(bound(alloc, b"", attribute.value)?)?;
    } else if binds_prefix(attribute.name) {
        let prefix = attribute.name.split_at(PREFIX).1;
        if !is_local_name(prefix) {
            return Err(Stop::Markup);
        }
        out.push(bound(alloc, prefix, attribute.value)?)?;
    }
    Ok(())
}

/// The number of bytes before the prefix in a name that declares one.
const PREFIX: usize = 6;

fn binds_default(name: &[u8]) -> bool
    ensures { result ≡ binds_default name.now }
{
    name == b"xmlns".as_slice()
}

fn binds_prefix(name: &[u8]) -> bool
    ensures value { result ≡ binds_prefix name.now }
    ensures long { IsTrue result → 6 ≤ length name.now }
{
    name.starts_with(b"xmlns:")
}

/// The declaration that binds the prefix to this value.
#[tactic(auto, unfolding(crate::specs::Scopes::bound))]
fn bound<'a>(alloc: Global, prefix: &'a [u8], value: &[u8]) -> Result<Declared<'a>, Stop>
    ensures { Finds (λ b. binding_of b ∷ []) result (bound prefix.now value.now) }
{
    let space = value_meant(alloc, value)?;
    if !may_bind(prefix, space.bytes()) {
        return Err(Stop::Markup);
    }
    Ok(Declared {
        prefix,
        space: shared(space),
    })
}

/// The same namespace, as a constant if it is a known one.
fn shared(space: TreeBytes) -> TreeBytes
    ensures { result ≡ space }
{
    if space.bytes() == SOAP {
        TreeBytes::fixed(SOAP)
    } else if space.bytes() == EBMS {
        TreeBytes::fixed(EBMS)
    } else {
        space
    }
}

/// Whether the prefix may be bound to the namespace.
#[tactic(auto, unfolding(crate::specs::Scopes::may_bind))]
fn may_bind(prefix: &[u8], space: &[u8]) -> bool
    ensures { result ≡ may_bind prefix.now space.now }
{
    if prefix == b"xmlns".as_slice() || space == XMLNS {
        return false;
    }
    if prefix == b"xml".as_slice() {
        return space == XML;
    }
    space != XML && (prefix.is_empty() || !space.is_empty())
}

/// The attributes that aren't declarations, in order.
#[inline(always)]
fn attributes_by<'a>(
    alloc: Global,
    scope: Scope<'_, 'a>,
    attributes: &[RawAttribute<'a>],
) -> Result<Attributes, Stop>
    ensures { Finds (λ v. v) result (gathered (attribute_by (scope_in scope.entry)) (map written_of attributes.now)) }
{
    if let [only] = attributes {
        return match attribute_by(alloc, scope, *only)? {
            Some(attribute) => Ok(Attributes::one(attribute)),
            None => Ok(Attributes::of(Vec::new(alloc))),
        };
    }
    let mut pairs = Vec::with_capacity(alloc, attributes.len())?;
    for attribute in attributes {
        push_attribute(alloc, &mut pairs, scope, *attribute)?;
    }
    Ok(Attributes::of(pairs))
}

/// Adds the attribute, unless it is a declaration. A separate function keeps the inlined code of `attributes_by` small.
#[inline(never)]
fn push_attribute<'a>(
    alloc: Global,
    out: &mut Vec<Attribute>,
    scope: Scope<'_, 'a>,
    attribute: RawAttribute<'a>,
) -> Result<(), Stop>
    ensures { Adds result (attribute_by (scope_in scope.entry) (written_of attribute.entry)) out.old.items out.new.items }
{
    if let Some(pair) = attribute_by(alloc, scope, attribute)? {
        out.push(pair)?;
    }
    Ok(())
}

/// The attribute, unless it is a declaration.
#[inline(always)]
#[tactic(auto, unfolding(crate::specs::Scopes::attribute_by))]
fn attribute_by<'a>(
    alloc: Global,
    scope: Scope<'_, 'a>,
    attribute: RawAttribute<'a>,
) -> Result<Option<Attribute>, Stop>
    ensures { Finds option_to_list result (attribute_by (scope_in scope.entry) (written_of attribute.entry)) }
{
    if binds_default(attribute.name) || binds_prefix(attribute.name) {
        return Ok(None);
    }
    let Some(written) = qualified(attribute.name) else {
        return Err(Stop::Markup);
    };
    let space = attribute_space(alloc, scope, written.prefix)?;
    let local = TreeBytes::copied(alloc, written.local)?;
    let value = value_meant(alloc, attribute.value)?;
    Ok(Some(Attribute {
        space,
        local,
        value,
    }))
}

/// The namespace of an attribute.
#[inline(always)]
#[tactic(auto, unfolding(crate::specs::Scopes::attribute_space))]
fn attribute_space<'a>(
    alloc: Global,
    scope: Scope<'_, 'a>,
    prefix: &'a [u8],
) -> Result<TreeBytes, Stop>
    ensures { Finds (λ space. space) result (attribute_space (scope_in scope.entry) prefix.now) }
{
    if prefix.is_empty() {
        return Ok(TreeBytes::fixed(b""));
    }
    element_space(alloc, scope, prefix)
}

/// The namespace of an element.
#[tactic(auto, unfolding(crate::specs::Scopes::element_space))]
fn element_space<'a>(
    alloc: Global,
    scope: Scope<'_, 'a>,
    prefix: &'a [u8],
) -> Result<TreeBytes, Stop>
    ensures { Finds (λ space. space) result (element_space (scope_in scope.entry) prefix.now) }
{
    if prefix == b"xml".as_slice() {
        return Ok(TreeBytes::fixed(XML));
    }
    match found(scope, prefix) {
        Some(space) => Ok(space.try_clone(alloc)?),
        None => {
            if prefix.is_empty() {
                Ok(TreeBytes::fixed(b""))
            } else {
                Err(Stop::Markup)
            }
        }
    }
}

/// The namespace to which the nearest declaration binds the prefix.
#[tactic(auto, using(crate::proofs::ScopeLemmas::found_either))]
fn found<'s, 'a>(scope: Scope<'s, 'a>, prefix: &'a [u8]) -> Option<&'s TreeBytes>
    ensures { option_map (λ x. x.now) result ≡ found (scope_in scope.entry) prefix.now }
{
    match scope.declared.found(prefix) {
        Some(space) => Some(space),
        None => found_around(scope.around, prefix),
    }
}

/// The namespace to which the nearest declaration in these elements binds the prefix.
fn found_around<'s, 'a>(around: &'s [Open<'a>], prefix: &'a [u8]) -> Option<&'s TreeBytes>
    ensures { option_map (λ x. x.now) result ≡ found (scope_of (stack_of around.now)) prefix.now }
{
    let mut at = around.len();
    while at > 0 {
        at -= 1;
        if let Some(space) = around[at].declared.found(prefix) {
            return Some(space);
        }
    }
    None
}

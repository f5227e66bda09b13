//! The effect of an item on the state of reading.

ghost use Rattle.std.specs.Prelude.{◌≡◌, map, None, Ok, IfSome};
ghost use Rattle.std.specs.List.{list_all};
ghost use Rattle.as4_values.specs.Texts.{is_xml};
ghost use Rattle.byte_forms.specs.Classes.{is_blank};
ghost use Rattle.xml_items.specs.Raw.{item_of, written_of};
ghost use Rattle.xml_items.specs.Items.{run, start, finish, comment, declaration};
ghost use Rattle.tree_reader.specs.Halts.{IsEndOf};
ghost use Rattle.tree_reader.specs.Reading.{step, placed, completed, unchanged, later};
ghost use Rattle.tree_reader.specs.Scopes.{element_of};
ghost use Rattle.tree_reader.specs.Views.{Makes, begun_of, stack_of, state_of};

use crate::scope::{Open, resolve};
use crate::stop::Stop;
use crate::text::{is_xml, push_text};
use as4_envelope::{Element, MAX_DEPTH};
use as4_values::Seq;
use byte_forms::is_blank;
use std::alloc::Global;
use xml_items::{RawAttribute, RawItem};

/// The state of reading.
#[derive(Drop)]
pub(crate) struct Reading<'a> {
    /// Whether nothing was read yet.
    pub first: bool,
    /// The open elements, the root first.
    pub open: Vec<Open<'a>>,
    /// The root, once it is complete.
    pub root: Option<Element>,
}

/// Advances by one item. After an `Err` the state is unspecified.
pub(crate) fn read_item<'a>(
    alloc: Global,
    reading: &mut Reading<'a>,
    item: RawItem<'a>,
    attributes: &[RawAttribute<'a>],
) -> Result<(), Stop>
    ensures { Makes result (step 32 (item_of item.entry attributes.now) (state_of reading.old)) (state_of reading.new) }
{
    read_in_place(alloc, reading, item, attributes)?;
    reading.first = false;
    Ok(())
}

/// The same, except that `first` is unchanged.
fn read_in_place<'a>(
    alloc: Global,
    reading: &mut Reading<'a>,
    item: RawItem<'a>,
    attributes: &[RawAttribute<'a>],
) -> Result<(), Stop>
    ensures { Makes result (step 32 (item_of item.entry attributes.now) (state_of reading.old)) (later (state_of reading.new)) }
{
    match item {
        RawItem::Declaration => read_declaration(reading),
        RawItem::Comment(text) => read_comment(reading, text),
        RawItem::Start { name, closed } => read_start(alloc, reading, name, closed, attributes),
        RawItem::End { name } => read_end(reading, name),
        RawItem::Text(bytes) => read_text(alloc, reading, bytes),
    }
}

#[tactic(auto, unfolding(crate::specs::Reading::step))]
fn read_declaration(reading: &Reading<'_>) -> Result<(), Stop>
    ensures { Makes result (step 32 declaration (state_of reading.now)) (later (state_of reading.now)) }
{
    if reading.root.is_some() {
        return Err(Stop::Markup);
    }
    unchanged(reading, reading.first)
}

#[tactic(auto, unfolding(crate::specs::Reading::step))]
fn read_comment(reading: &Reading<'_>, text: &[u8]) -> Result<(), Stop>
    ensures { Makes result (step 32 (comment text.now) (state_of reading.now)) (later (state_of reading.now)) }
{
    unchanged(reading, is_xml(text))
}

/// Leaves the state as it is, if the item is right.
fn unchanged(reading: &Reading<'_>, right: bool) -> Result<(), Stop>
    ensures { Makes result (unchanged right (state_of reading.now)) (later (state_of reading.now)) }
{
    if right { Ok(()) } else { Err(Stop::Markup) }
}

#[tactic(auto, unfolding(crate::specs::Reading::step))]
fn read_text(alloc: Global, reading: &mut Reading<'_>, bytes: &[u8]) -> Result<(), Stop>
    ensures { Makes result (step 32 (run bytes.now) (state_of reading.old)) (later (state_of reading.new)) }
{
    if reading.root.is_some() {
        return unchanged(reading, is_all_blank(bytes));
    }
    match reading.open.last_mut() {
        None => unchanged(reading, is_all_blank(bytes)),
        Some(open) => push_text(alloc, &mut open.text, bytes),
    }
}

fn is_all_blank(bytes: &[u8]) -> bool
    ensures { result ≡ list_all is_blank bytes.now }
{
    bytes.iter().all(|byte| is_blank(*byte))
}

#[tactic(auto, unfolding(crate::specs::Reading::step))]
fn read_start<'a>(
    alloc: Global,
    reading: &mut Reading<'a>,
    name: &'a [u8],
    closed: bool,
    attributes: &[RawAttribute<'a>],
) -> Result<(), Stop>
    ensures { Makes result (step 32 (start (record { name = name.now; attributes = map written_of attributes.now; closed = closed })) (state_of reading.old)) (later (state_of reading.new)) }
{
    if reading.root.is_some() {
        return Err(Stop::Markup);
    }
    resolve(alloc, &mut reading.open, name, attributes)?;
    if reading.open.len() > MAX_DEPTH {
        return Err(Stop::TooDeep);
    }
    if closed {
        return close(reading);
    }
    Ok(())
}

#[tactic(auto, unfolding(crate::specs::Reading::step))]
fn read_end(reading: &mut Reading<'_>, name: &[u8]) -> Result<(), Stop>
    ensures { Makes result (step 32 (finish name.now) (state_of reading.old)) (later (state_of reading.new)) }
{
    if reading.root.is_some() {
        return Err(Stop::Markup);
    }
    let Some(open) = reading.open.last() else {
        return Err(Stop::Markup);
    };
    if name != open.name {
        return Err(Stop::Markup);
    }
    close(reading)
}

/// The bytes after the innermost element's end tag, if the bytes begin with that tag, written without blanks. The name
/// is known, so it needs no search.
pub(crate) fn behind_end<'a>(reading: &Reading<'_>, bytes: &'a [u8]) -> Option<&'a [u8]>
    ensures inside { IfSome result (λ _. reading.now.root ≡ None) }
    ensures tag { IfSome result (λ behind. IsEndOf (stack_of reading.now.open.items) bytes.now behind.now) }
{
    let name_on = bytes.strip_prefix(b"</")?;
    if reading.root.is_some() {
        return None;
    }
    let open = reading.open.last()?;
    let rest = name_on.strip_prefix(open.name)?;
    let behind = rest.strip_prefix(b">")?;
    Some(behind)
}

/// Reads the end tag of the innermost element, which is next.
pub(crate) fn read_known_end(reading: &mut Reading<'_>) -> Result<(), Stop>
    requires { reading.old.root ≡ None }
    ensures { Makes result (completed (stack_of reading.old.open.items)) (state_of reading.new) }
{
    close(reading)?;
    reading.first = false;
    Ok(())
}

/// Completes the innermost element.
fn close(reading: &mut Reading<'_>) -> Result<(), Stop>
    requires { reading.old.root ≡ None }
    ensures { Makes result (completed (stack_of reading.old.open.items)) (later (state_of reading.new)) }
{
    let Some(open) = reading.open.pop() else {
        return Err(Stop::Markup);
    };
    place(reading, element_of(open))
}

/// Puts a complete element into the innermost of those around it.
fn place(reading: &mut Reading<'_>, element: Element) -> Result<(), Stop>
    requires { reading.old.root ≡ None }
    ensures { Makes result (Ok (placed element (stack_of reading.old.open.items))) (later (state_of reading.new)) }
{
    match reading.open.last_mut() {
        None => reading.root = Some(element),
        Some(open) => open.children.push(element)?,
    }
    Ok(())
}

/// The complete element.
fn element_of(open: Open<'_>) -> Element
    ensures { result ≡ element_of (begun_of open.entry) }
{
    Element {
        space: open.space,
        local: open.local,
        attributes: open.attributes,
        text: open.text,
        children: Seq::of(open.children),
    }
}

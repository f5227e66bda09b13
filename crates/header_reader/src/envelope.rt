//! Reads the message unit of an envelope (SOAP 1.2 Part 1, section 5; ebMS 3.0 Core, section 5.2).

ghost use Rattle.std.specs.Prelude.{◌≡◌, [], ◌∷◌, Some, Err, option_map, IfOk, IfErr, MatchOption};
ghost use Rattle.std.specs.List.{filter};
ghost use Rattle.std.specs.Result.{result_ok};
ghost use Rattle.as4_envelope.specs.declared.tree.Element.{Element as ElementValue};
ghost use Rattle.as4_values.specs.declared.message.Unit.{Unit as MessageUnit};
ghost use Rattle.header_reader.specs.Envelope.{is_soap, is_soap_named, is_of, is_unit, blocks_of, demands, must_be_understood, asks_for_more, both_of, elements_among, elements_in, unit_elements, read_together, unit_of, SpellsUnit, AnswersFor};
ghost use Rattle.header_reader.specs.Elements.{children_of};
ghost use Rattle.header_reader.specs.Gives.{Answers, IsReadAs};
ghost use Rattle.header_reader.specs.Made.{pair_from};

use crate::elements::{Readable, is_named};
use crate::made::may_be_pair;
use crate::names::ElementName;
use crate::refusal::{HeaderRefusal, with};
use as4_envelope::{Attribute, Element, SOAP};
use as4_values::{Pair, Signal, Unit, UserHeader};
use byte_forms::trimmed;
use std::alloc::Global;

/// The sorts of elements that the reader searches for.
#[derive(Clone, Copy)]
pub enum Sort {
    /// Those of SOAP.
    Soap,
    /// `eb:Messaging`.
    Messaging,
    /// `eb:UserMessage` and `eb:SignalMessage`.
    Unit,
}

const ENVELOPE: &[u8] = b"Envelope";

const HEADER: &[u8] = b"Header";

const BODY: &[u8] = b"Body";

const MUST_UNDERSTAND: &[u8] = b"mustUnderstand";

const TRUE: &[u8] = b"true";

const ONE: &[u8] = b"1";

/// Reads the message unit that an envelope means.
/// A refusal that precedes the reading of a unit's element doesn't depend on memory.
#[tactic(auto, unfolding(crate::specs::Envelope::unit_of))]
pub fn read_unit(alloc: Global, tree: &Element) -> Result<Unit, HeaderRefusal>
    ensures ok { IfOk result (SpellsUnit tree.now) }
    ensures only { (u : MessageUnit) → SpellsUnit tree.now u → IsReadAs result u }
    ensures verdict { Answers result (unit_of tree.now) }
    ensures told { (refusal : _) → unit_elements tree.now ≡ Err refusal → result ≡ Err refusal }
{
    unit_in_envelope(alloc, tree)
}

/// A tree spells at most one unit.
pub fn one_unit()
    ensures { (tree : ElementValue) (a b : MessageUnit) → SpellsUnit tree a → SpellsUnit tree b → a ≡ b }
{}

#[tactic(auto, unfolding(crate::specs::Envelope::unit_elements))]
fn unit_in_envelope(alloc: Global, tree: &Element) -> Result<Unit, HeaderRefusal>
    ensures { AnswersFor result (unit_elements tree.now) }
{
    match blocks_of(tree) {
        Some(blocks) => unit_in_header(alloc, blocks),
        None => Err(HeaderRefusal::Invalid),
    }
}

fn is_soap(element: &Element) -> bool
    ensures { result ≡ is_soap element.now }
{
    element.space.bytes() == SOAP
}

#[tactic(auto, unfolding(crate::specs::Envelope::is_soap_named))]
fn is_soap_named(element: &Element, name: &[u8]) -> bool
    ensures { result ≡ is_soap_named name.now element.now }
{
    is_soap(element) && element.local.bytes() == name
}

fn is_of(element: &Element, sort: Sort) -> bool
    ensures { result ≡ is_of sort element.now }
{
    match sort {
        Sort::Soap => is_soap(element),
        Sort::Messaging => is_named(element, ElementName::Messaging),
        Sort::Unit => {
            is_named(element, ElementName::UserMessage)
                || is_named(element, ElementName::SignalMessage)
        }
    }
}

/// The first of these elements that is of the sort, and the elements after it.
fn next_of(elements: &[Element], sort: Sort) -> Option<(&Element, &[Element])>
    ensures { MatchOption result (filter (is_of sort) elements.now ≡ [])
        (λ next. filter (is_of sort) elements.now ≡ next.0.now ∷ filter (is_of sort) next.1.now) }
{
    let mut rest = elements;
    while let [element, behind @ ..] = rest {
        if is_of(element, sort) {
            return Some((element, behind));
        }
        rest = behind;
    }
    None
}

/// The blocks of the header (SOAP 1.2 Part 1, section 5.2).
#[tactic(auto, unfolding(crate::specs::Envelope::blocks_of))]
fn blocks_of(tree: &Element) -> Option<&[Element]>
    ensures { option_map (λ blocks. blocks.now) result ≡ blocks_of tree.now }
{
    if !is_soap_named(tree, ENVELOPE) {
        return None;
    }
    let (header, rest) = next_of(tree.children.items(), Sort::Soap)?;
    let (body, rest) = next_of(rest, Sort::Soap)?;
    if next_of(rest, Sort::Soap).is_some() {
        return None;
    }
    if is_soap_named(header, HEADER) && is_soap_named(body, BODY) {
        Some(header.children.items())
    } else {
        None
    }
}

/// Whether the attribute makes its block mandatory.
fn demands(attribute: &Attribute) -> bool
    ensures { result ≡ demands attribute.now }
{
    if attribute.space.bytes() != SOAP || attribute.local.bytes() != MUST_UNDERSTAND {
        return false;
    }
    let value = trimmed(attribute.value.bytes());
    value == TRUE || value == ONE
}

#[tactic(auto, unfolding(crate::specs::Envelope::must_be_understood))]
fn must_be_understood(block: &Element) -> bool
    ensures { result ≡ must_be_understood block.now }
{
    block
        .attributes
        .items()
        .iter()
        .any(|attribute| demands(attribute))
}

/// Whether a block other than `eb:Messaging` must be understood.
#[tactic(auto, unfolding(crate::specs::Envelope::asks_for_more))]
fn asks_for_more(blocks: &[Element]) -> bool
    ensures { result ≡ asks_for_more blocks.now }
{
    blocks.iter().any(|block| !is_named(block, ElementName::Messaging) && must_be_understood(block))
}

fn unit_in_header(alloc: Global, blocks: &[Element]) -> Result<Unit, HeaderRefusal>
    ensures { AnswersFor result (elements_in (Some blocks.now)) }
{
    let Some((messaging, rest)) = next_of(blocks, Sort::Messaging) else {
        return Err(HeaderRefusal::Invalid);
    };
    if next_of(rest, Sort::Messaging).is_some() {
        return Err(HeaderRefusal::Invalid);
    }
    if asks_for_more(blocks) {
        return Err(HeaderRefusal::Unsupported);
    }
    unit_in_messaging(alloc, messaging)
}

fn unit_in_messaging(alloc: Global, messaging: &Element) -> Result<Unit, HeaderRefusal>
    ensures { AnswersFor result (elements_among (filter is_unit (children_of messaging.now))) }
{
    let Some((first, rest)) = next_of(messaging.children.items(), Sort::Unit) else {
        return Err(HeaderRefusal::Invalid);
    };
    let Some((second, rest)) = next_of(rest, Sort::Unit) else {
        return read_one(alloc, first);
    };
    if next_of(rest, Sort::Unit).is_some() {
        return Err(HeaderRefusal::Unsupported);
    }
    read_two(alloc, first, second)
}

#[tactic(auto, unfolding(crate::specs::Envelope::one_unit_of))]
fn read_one(alloc: Global, element: &Element) -> Result<Unit, HeaderRefusal>
    ensures { Answers result (read_together (element.now ∷ [])) }
{
    if is_named(element, ElementName::UserMessage) {
        Ok(Unit::User(UserHeader::read(alloc, element)?))
    } else {
        Ok(Unit::Signal(Signal::read(alloc, element)?))
    }
}

fn read_two(alloc: Global, first: &Element, second: &Element) -> Result<Unit, HeaderRefusal>
    ensures { AnswersFor result (elements_among (first.now ∷ second.now ∷ [])) }
{
    if !is_named(first, ElementName::SignalMessage)
        || !is_named(second, ElementName::SignalMessage)
    {
        return Err(HeaderRefusal::Unsupported);
    }
    let first = Signal::read(alloc, first)?;
    let (first, second) = with(first, Signal::read(alloc, second))?;
    both_of(first, second).ok_or(HeaderRefusal::Unsupported)
}

/// A receipt and a pull request, in either order.
#[tactic(auto, unfolding(crate::specs::Envelope::both_of))]
fn both_of(first: Signal, second: Signal) -> Option<Unit>
    ensures { result ≡ both_of first second }
{
    match pair_from(first, second) {
        Ok(pair) => Some(Unit::Pair(pair)),
        Err((first, second)) => match pair_from(second, first) {
            Ok(pair) => Some(Unit::Pair(pair)),
            Err(signals) => {
                drop(signals);
                None
            }
        },
    }
}

/// The pair of these two, or both again if they are no pair.
fn pair_from(receipt: Signal, pull: Signal) -> Result<Pair, (Signal, Signal)>
    ensures pair { result_ok result ≡ pair_from receipt pull }
    ensures back { IfErr result (λ signals. (signals.0 ≡ receipt) × (signals.1 ≡ pull)) }
{
    if may_be_pair(&receipt, &pull) {
        Ok(Pair { receipt, pull })
    } else {
        Err((receipt, pull))
    }
}

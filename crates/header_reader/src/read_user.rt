//! Reading a user message (ebMS 3.0 Core, section 5.2.2), each element by its attributes and children.

ghost use Rattle.std.specs.Prelude.{◌≡◌, List, Option};
ghost use Rattle.header_reader.specs.Elements.{leaf};
ghost use Rattle.header_reader.specs.Gives.{Gives};
ghost use Rattle.header_reader.specs.User.{text_element, maybe_text, info_of, party_of, side_of, parties_of, agreement_of, service_of, collaboration_of, property_of, properties_of, part_of, payload_of, business_in, lists_in, user_of};
ghost use Rattle.header_reader.specs.Values.{id_of, stamp_of};

use crate::elements::{
    Readable, attribute, child, children, holds_only, leaf, optional_attribute, optional_child,
    or_empty,
};
use crate::made::{header_from, part_from, side_from};
use crate::names::{AttributeName, ElementName};
use crate::parts::{CollaborationInfo, MessageInfo, PartyInfo};
use crate::refusal::{HeaderRefusal, with};
use crate::values::read_optional;
use as4_envelope::Element;
use as4_values::{
    Agreement, MessageId, PartInfo, Party, Property, Seq, Service, Side, StampText, Text,
    UserHeader,
};
use std::alloc::Global;

impl Readable for Text {
    ghost meaning = { text_element };

    fn read(alloc: Global, element: &Element) -> Result<Text, HeaderRefusal> {
        leaf(alloc, element)
    }
}

impl Readable for MessageId {
    ghost meaning = { leaf id_of };

    fn read(alloc: Global, element: &Element) -> Result<MessageId, HeaderRefusal> {
        leaf(alloc, element)
    }
}

impl Readable for StampText {
    ghost meaning = { leaf stamp_of };

    fn read(alloc: Global, element: &Element) -> Result<StampText, HeaderRefusal> {
        leaf(alloc, element)
    }
}

/// Reads a text that may be empty.
#[tactic(auto, unfolding(crate::specs::Elements::leaf))]
pub fn maybe_text(alloc: Global, element: &Element) -> Result<Option<Text>, HeaderRefusal>
    ensures { Gives result (maybe_text element.now) }
{
    if !holds_only(element, &[]) {
        return Err(HeaderRefusal::Invalid);
    }
    read_optional(alloc, element.text.bytes())
}

impl Readable for Option<Text> {
    ghost meaning = { maybe_text };

    fn read(alloc: Global, element: &Element) -> Result<Option<Text>, HeaderRefusal> {
        maybe_text(alloc, element)
    }
}

impl Readable for MessageInfo {
    ghost meaning = { info_of };

    #[tactic(auto, unfolding(crate::specs::User::info_of))]
    fn read(alloc: Global, element: &Element) -> Result<MessageInfo, HeaderRefusal> {
        if !holds_only(
            element,
            &[
                ElementName::Timestamp,
                ElementName::MessageId,
                ElementName::RefToMessageId,
            ],
        ) {
            return Err(HeaderRefusal::Invalid);
        }
        Ok(MessageInfo {
            stamp: child(alloc, element, ElementName::Timestamp)?,
            id: child(alloc, element, ElementName::MessageId)?,
            ref_to: optional_child(alloc, element, ElementName::RefToMessageId)?,
        })
    }
}

impl Readable for Party {
    ghost meaning = { party_of };

    #[tactic(auto, unfolding(crate::specs::User::party_of))]
    fn read(alloc: Global, element: &Element) -> Result<Party, HeaderRefusal> {
        Ok(Party {
            id: leaf(alloc, element)?,
            kind: optional_attribute(alloc, element, AttributeName::Type)?,
        })
    }
}

impl Readable for Side {
    ghost meaning = { side_of };

    #[tactic(auto, unfolding(crate::specs::User::side_of))]
    fn read(alloc: Global, element: &Element) -> Result<Side, HeaderRefusal> {
        if !holds_only(element, &[ElementName::PartyId, ElementName::Role]) {
            return Err(HeaderRefusal::Invalid);
        }
        let parties = children(alloc, element, ElementName::PartyId)?;
        let role = child(alloc, element, ElementName::Role)?;
        side_from(parties, role).ok_or(HeaderRefusal::Invalid)
    }
}

impl Readable for PartyInfo {
    ghost meaning = { parties_of };

    #[tactic(auto, unfolding(crate::specs::User::parties_of))]
    fn read(alloc: Global, element: &Element) -> Result<PartyInfo, HeaderRefusal> {
        if !holds_only(element, &[ElementName::From, ElementName::To]) {
            return Err(HeaderRefusal::Invalid);
        }
        Ok(PartyInfo {
            from: child(alloc, element, ElementName::From)?,
            to: child(alloc, element, ElementName::To)?,
        })
    }
}

/// An agreement; `None` if its element is empty.
impl Readable for Option<Agreement> {
    ghost meaning = { agreement_of };

    #[tactic(auto, unfolding(crate::specs::User::agreement_of))]
    fn read(alloc: Global, element: &Element) -> Result<Option<Agreement>, HeaderRefusal> {
        let Some(value) = maybe_text(alloc, element)? else {
            return Ok(None);
        };
        Ok(Some(Agreement {
            value,
            kind: optional_attribute(alloc, element, AttributeName::Type)?,
            pmode: optional_attribute(alloc, element, AttributeName::Pmode)?,
        }))
    }
}

impl Readable for Service {
    ghost meaning = { service_of };

    #[tactic(auto, unfolding(crate::specs::User::service_of))]
    fn read(alloc: Global, element: &Element) -> Result<Service, HeaderRefusal> {
        Ok(Service {
            value: leaf(alloc, element)?,
            kind: optional_attribute(alloc, element, AttributeName::Type)?,
        })
    }
}

impl Readable for CollaborationInfo {
    ghost meaning = { collaboration_of };

    #[tactic(auto, unfolding(crate::specs::User::collaboration_of))]
    fn read(alloc: Global, element: &Element) -> Result<CollaborationInfo, HeaderRefusal> {
        if !holds_only(
            element,
            &[
                ElementName::AgreementRef,
                ElementName::Service,
                ElementName::Action,
                ElementName::ConversationId,
            ],
        ) {
            return Err(HeaderRefusal::Invalid);
        }
        let agreement: Option<Option<Agreement>> = optional_child(
            alloc,
            element,
            ElementName::AgreementRef,
        )?;
        let info = with(
            agreement.unwrap_or(None),
            child(alloc, element, ElementName::Service),
        )?;
        let info = with(info, child(alloc, element, ElementName::Action))?;
        let (((agreement, service), action), conversation) = with(
            info,
            child(alloc, element, ElementName::ConversationId),
        )?;
        Ok(CollaborationInfo {
            agreement,
            service,
            action,
            conversation,
        })
    }
}

impl Readable for Property {
    ghost meaning = { property_of };

    #[tactic(auto, unfolding(crate::specs::User::property_of))]
    fn read(alloc: Global, element: &Element) -> Result<Property, HeaderRefusal> {
        Ok(Property {
            name: attribute(alloc, element, AttributeName::Name)?,
            kind: optional_attribute(alloc, element, AttributeName::Type)?,
            value: maybe_text(alloc, element)?,
        })
    }
}

impl Readable for Seq<Property> {
    ghost meaning = { properties_of };

    #[tactic(auto, unfolding(crate::specs::User::properties_of))]
    fn read(alloc: Global, element: &Element) -> Result<Seq<Property>, HeaderRefusal> {
        if !holds_only(element, &[ElementName::Property]) {
            return Err(HeaderRefusal::Invalid);
        }
        children(alloc, element, ElementName::Property)
    }
}

impl Readable for PartInfo {
    ghost meaning = { part_of };

    #[tactic(auto, unfolding(crate::specs::User::part_of))]
    fn read(alloc: Global, element: &Element) -> Result<PartInfo, HeaderRefusal> {
        let href = optional_attribute(alloc, element, AttributeName::Href)?;
        let properties = optional_child(alloc, element, ElementName::PartProperties)?;
        part_from(href, or_empty(alloc, properties)).ok_or(HeaderRefusal::Invalid)
    }
}

impl Readable for Seq<PartInfo> {
    ghost meaning = { payload_of };

    #[tactic(auto, unfolding(crate::specs::User::payload_of))]
    fn read(alloc: Global, element: &Element) -> Result<Seq<PartInfo>, HeaderRefusal> {
        if !holds_only(element, &[ElementName::PartInfo]) {
            return Err(HeaderRefusal::Invalid);
        }
        children(alloc, element, ElementName::PartInfo)
    }
}

/// Reads the parties and the collaboration of a user message.
#[tactic(auto, unfolding(crate::specs::User::business_in))]
fn business_in(
    alloc: Global,
    element: &Element,
) -> Result<(PartyInfo, CollaborationInfo), HeaderRefusal>
    ensures { Gives result (business_in element.now) }
{
    let sides = child(alloc, element, ElementName::PartyInfo)?;
    let business = child(alloc, element, ElementName::CollaborationInfo)?;
    Ok((sides, business))
}

/// Reads the properties and the part infos of a user message.
#[tactic(auto, unfolding(crate::specs::User::lists_in))]
fn lists_in(
    alloc: Global,
    element: &Element,
) -> Result<(Seq<Property>, Seq<PartInfo>), HeaderRefusal>
    ensures { Gives result (lists_in element.now) }
{
    let properties = optional_child(alloc, element, ElementName::MessageProperties)?;
    let parts = optional_child(alloc, element, ElementName::PayloadInfo)?;
    Ok((or_empty(alloc, properties), or_empty(alloc, parts)))
}

impl Readable for UserHeader {
    ghost meaning = { user_of };

    #[tactic(auto, unfolding(crate::specs::User::user_of))]
    fn read(alloc: Global, element: &Element) -> Result<UserHeader, HeaderRefusal> {
        if !holds_only(
            element,
            &[
                ElementName::MessageInfo,
                ElementName::PartyInfo,
                ElementName::CollaborationInfo,
                ElementName::MessageProperties,
                ElementName::PayloadInfo,
            ],
        ) {
            return Err(HeaderRefusal::Invalid);
        }
        let mpc = optional_attribute(alloc, element, AttributeName::Mpc)?;
        let info = child(alloc, element, ElementName::MessageInfo)?;
        let (sides, business) = business_in(alloc, element)?;
        match lists_in(alloc, element) {
            Ok((properties, parts)) => header_from(
                mpc, info, sides, business, properties, parts,
            ).ok_or(HeaderRefusal::Invalid),
            Err(refusal) => {
                drop((mpc, info));
                drop((sides, business));
                Err(refusal)
            }
        }
    }
}

//! The header of a user message (ebMS 3.0 Core, section 5.2.2), each element as a struct of its values.

ghost use Rattle.as4_values.specs.Counts.{IsPartyCount, IsPropertyCount, IsPartCount};

use crate::lists::Seq;
use crate::memory::NoMemory;
use crate::message_id::MessageId;
use crate::plain_data::{PlainData, try_clone_four};
use crate::stamp::StampText;
use crate::text::Text;
use std::alloc::Global;

/// `eb:PartyId`: who sends or receives.
#[derive(Drop)]
pub struct Party {
    pub id: Text,
    /// The attribute `type`: what kind of name the identifier is.
    pub kind: Option<Text>,
}

/// `eb:From` or `eb:To`.
#[derive(Drop)]
pub struct Side {
    /// 1 to 16 parties, in the order of the document.
    pub parties: Seq<Party>,
    pub role: Text,
    pub ghost counted: { IsPartyCount parties },
}

/// `eb:AgreementRef`.
#[derive(Drop)]
pub struct Agreement {
    pub value: Text,
    /// The attribute `type`.
    pub kind: Option<Text>,
    /// The attribute `pmode`.
    pub pmode: Option<Text>,
}

/// `eb:Service`.
#[derive(Drop)]
pub struct Service {
    pub value: Text,
    /// The attribute `type`.
    pub kind: Option<Text>,
}

/// `eb:Property` of a message or of a part.
#[derive(Drop)]
pub struct Property {
    pub name: Text,
    /// The attribute `type`.
    pub kind: Option<Text>,
    /// None where the value is empty.
    pub value: Option<Text>,
}

/// `eb:PartInfo`: describes one part of the message.
#[derive(Drop)]
pub struct PartInfo {
    /// The reference to the part, as `cid:` and its Content-ID (RFC 2392).
    pub href: Option<Text>,
    /// At most 256 properties.
    pub properties: Seq<Property>,
    pub ghost counted: { IsPropertyCount properties },
}

/// `eb:UserMessage`: a message without its payloads.
#[derive(Drop)]
pub struct UserHeader {
    /// The message partition channel.
    pub mpc: Option<Text>,
    pub stamp: StampText,
    pub id: MessageId,
    /// The message that this one answers.
    pub ref_to: Option<MessageId>,
    pub from: Side,
    pub to: Side,
    pub agreement: Option<Agreement>,
    pub service: Service,
    pub action: Text,
    /// None where the conversation's identifier is empty.
    pub conversation: Option<Text>,
    /// At most 256 properties.
    pub properties: Seq<Property>,
    /// At most 255 part infos.
    pub parts: Seq<PartInfo>,
    pub ghost properties_counted: { IsPropertyCount properties },
    pub ghost parts_counted: { IsPartCount parts },
}

impl PlainData for Party {
    fn try_clone(&self, alloc: Global) -> Result<Party, NoMemory> {
        Ok(Party {
            id: self.id.try_clone(alloc)?,
            kind: self.kind.try_clone(alloc)?,
        })
    }

    fn same(&self, other: &Party) -> bool {
        self.id.same(&other.id) && self.kind.same(&other.kind)
    }
}

impl PlainData for Side {
    fn try_clone(&self, alloc: Global) -> Result<Side, NoMemory> {
        Ok(Side {
            parties: self.parties.try_clone(alloc)?,
            role: self.role.try_clone(alloc)?,
        })
    }

    fn same(&self, other: &Side) -> bool {
        self.parties.same(&other.parties) && self.role.same(&other.role)
    }
}

impl PlainData for Agreement {
    fn try_clone(&self, alloc: Global) -> Result<Agreement, NoMemory> {
        Ok(Agreement {
            value: self.value.try_clone(alloc)?,
            kind: self.kind.try_clone(alloc)?,
            pmode: self.pmode.try_clone(alloc)?,
        })
    }

    fn same(&self, other: &Agreement) -> bool {
        self.value.same(&other.value)
            && self.kind.same(&other.kind)
            && self.pmode.same(&other.pmode)
    }
}

impl PlainData for Service {
    fn try_clone(&self, alloc: Global) -> Result<Service, NoMemory> {
        Ok(Service {
            value: self.value.try_clone(alloc)?,
            kind: self.kind.try_clone(alloc)?,
        })
    }

    fn same(&self, other: &Service) -> bool {
        self.value.same(&other.value) && self.kind.same(&other.kind)
    }
}

impl PlainData for Property {
    fn try_clone(&self, alloc: Global) -> Result<Property, NoMemory> {
        Ok(Property {
            name: self.name.try_clone(alloc)?,
            kind: self.kind.try_clone(alloc)?,
            value: self.value.try_clone(alloc)?,
        })
    }

    fn same(&self, other: &Property) -> bool {
        self.name.same(&other.name) && self.kind.same(&other.kind) && self.value.same(&other.value)
    }
}

impl PlainData for PartInfo {
    fn try_clone(&self, alloc: Global) -> Result<PartInfo, NoMemory> {
        Ok(PartInfo {
            href: self.href.try_clone(alloc)?,
            properties: self.properties.try_clone(alloc)?,
        })
    }

    fn same(&self, other: &PartInfo) -> bool {
        self.href.same(&other.href) && self.properties.same(&other.properties)
    }
}

impl PlainData for UserHeader {
    fn try_clone(&self, alloc: Global) -> Result<UserHeader, NoMemory> {
        match (
            try_clone_four(alloc, &self.mpc, &self.stamp, &self.id, &self.ref_to),
            try_clone_four(alloc, &self.from, &self.to, &self.agreement, &self.service),
            try_clone_four(
                alloc,
                &self.action,
                &self.conversation,
                &self.properties,
                &self.parts,
            ),
        ) {
            (Ok(front), Ok(business), Ok(rest)) => {
                let (mpc, stamp, id, ref_to) = front;
                let (from, to, agreement, service) = business;
                let (action, conversation, properties, parts) = rest;
                Ok(UserHeader {
                    mpc,
                    stamp,
                    id,
                    ref_to,
                    from,
                    to,
                    agreement,
                    service,
                    action,
                    conversation,
                    properties,
                    parts,
                })
            }
            (front, business, rest) => {
                drop(front);
                drop(business);
                drop(rest);
                Err(NoMemory)
            }
        }
    }

    fn same(&self, other: &UserHeader) -> bool {
        self.mpc.same(&other.mpc)
            && self.stamp.same(&other.stamp)
            && self.id.same(&other.id)
            && self.ref_to.same(&other.ref_to)
            && self.from.same(&other.from)
            && self.to.same(&other.to)
            && self.agreement.same(&other.agreement)
            && self.service.same(&other.service)
            && self.action.same(&other.action)
            && self.conversation.same(&other.conversation)
            && self.properties.same(&other.properties)
            && self.parts.same(&other.parts)
    }
}

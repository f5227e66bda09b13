//! The texts of a user message's elements (ebMS 3.0 Core, section 5.2.2).

ghost use Rattle.std.specs.Prelude.{◌≡◌, ◌++◌, [], OnOk, unwrap_or};
ghost use Rattle.message_model.specs.UnitText.{message_info, party_text, side_text, party_info, agreement_text, service_text, collaboration_info, property_text, part_info, user_message};

use crate::values::{id_bytes, text_bytes};
use crate::written::{Written, push_all, push_listed};
use as4_envelope::{
    push_attribute, push_end_tag, push_escaped, push_optional_attribute, push_optional_element,
    push_tag_end, push_tag_start, push_text_element,
};
use as4_values::{
    Agreement, MessageId, NoMemory, PartInfo, Party, Property, Service, Side, StampText, Text,
    UserHeader,
};

#[tactic(auto, unfolding(message_model::specs::UnitText::message_info))]
pub fn push_message_info(
    out: &mut Vec<u8>,
    stamp: &StampText,
    id: &MessageId,
    ref_to: &Option<MessageId>,
) -> Result<(), NoMemory>
    ensures { OnOk result (out.new.items ≡ out.old.items ++ message_info stamp.now id.now ref_to.now) }
{
    push_tag_start(out, b"eb:MessageInfo")?;
    push_tag_end(out)?;
    push_text_element(out, b"eb:Timestamp", stamp.bytes())?;
    push_text_element(out, b"eb:MessageId", id.bytes())?;
    push_optional_element(out, b"eb:RefToMessageId", id_bytes(ref_to))?;
    push_end_tag(out, b"eb:MessageInfo")?;
    Ok(())
}

impl Written for Party {
    ghost text = { party_text };

    #[tactic(auto, unfolding(message_model::specs::UnitText::party_text))]
    fn push_to(&self, out: &mut Vec<u8>) -> Result<(), NoMemory> {
        push_tag_start(out, b"eb:PartyId")?;
        push_optional_attribute(out, b"type", text_bytes(&self.kind))?;
        push_tag_end(out)?;
        push_escaped(out, self.id.bytes())?;
        push_end_tag(out, b"eb:PartyId")?;
        Ok(())
    }
}

#[tactic(auto, unfolding(message_model::specs::UnitText::side_text))]
fn push_side(out: &mut Vec<u8>, name: &[u8], side: &Side) -> Result<(), NoMemory>
    ensures { OnOk result (out.new.items ≡ out.old.items ++ side_text name.now side.now) }
{
    push_tag_start(out, name)?;
    push_tag_end(out)?;
    push_all(out, side.parties.items())?;
    push_text_element(out, b"eb:Role", side.role.bytes())?;
    push_end_tag(out, name)?;
    Ok(())
}

#[tactic(auto, unfolding(message_model::specs::UnitText::party_info))]
fn push_party_info(out: &mut Vec<u8>, from: &Side, to: &Side) -> Result<(), NoMemory>
    ensures { OnOk result (out.new.items ≡ out.old.items ++ party_info from.now to.now) }
{
    push_tag_start(out, b"eb:PartyInfo")?;
    push_tag_end(out)?;
    push_side(out, b"eb:From", from)?;
    push_side(out, b"eb:To", to)?;
    push_end_tag(out, b"eb:PartyInfo")?;
    Ok(())
}

#[tactic(auto, unfolding(message_model::specs::UnitText::agreement_text))]
fn push_agreement(out: &mut Vec<u8>, agreement: &Option<Agreement>) -> Result<(), NoMemory>
    ensures { OnOk result (out.new.items ≡ out.old.items ++ agreement_text agreement.now) }
{
    let Some(agreement) = agreement else {
        return Ok(());
    };
    push_tag_start(out, b"eb:AgreementRef")?;
    push_optional_attribute(out, b"type", text_bytes(&agreement.kind))?;
    push_optional_attribute(out, b"pmode", text_bytes(&agreement.pmode))?;
    push_tag_end(out)?;
    push_escaped(out, agreement.value.bytes())?;
    push_end_tag(out, b"eb:AgreementRef")?;
    Ok(())
}

impl Written for Service {
    ghost text = { service_text };

    #[tactic(auto, unfolding(message_model::specs::UnitText::service_text))]
    fn push_to(&self, out: &mut Vec<u8>) -> Result<(), NoMemory> {
        push_tag_start(out, b"eb:Service")?;
        push_optional_attribute(out, b"type", text_bytes(&self.kind))?;
        push_tag_end(out)?;
        push_escaped(out, self.value.bytes())?;
        push_end_tag(out, b"eb:Service")?;
        Ok(())
    }
}

/// The bytes of a text, or none.
fn bytes_or_none(text: &Option<Text>) -> &[u8]
    ensures { result.now ≡ unwrap_or text.now [] }
{
    match text {
        None => &[],
        Some(text) => text.bytes(),
    }
}

#[tactic(auto, unfolding(message_model::specs::UnitText::collaboration_info))]
fn push_collaboration_info(out: &mut Vec<u8>, header: &UserHeader) -> Result<(), NoMemory>
    ensures { OnOk result (out.new.items ≡ out.old.items
        ++ collaboration_info header.now.agreement header.now.service header.now.action header.now.conversation) }
{
    push_tag_start(out, b"eb:CollaborationInfo")?;
    push_tag_end(out)?;
    push_agreement(out, &header.agreement)?;
    header.service.push_to(out)?;
    push_text_element(out, b"eb:Action", header.action.bytes())?;
    push_text_element(
        out,
        b"eb:ConversationId",
        bytes_or_none(&header.conversation),
    )?;
    push_end_tag(out, b"eb:CollaborationInfo")?;
    Ok(())
}

impl Written for Property {
    ghost text = { property_text };

    #[tactic(auto, unfolding(message_model::specs::UnitText::property_text))]
    fn push_to(&self, out: &mut Vec<u8>) -> Result<(), NoMemory> {
        push_tag_start(out, b"eb:Property")?;
        push_attribute(out, b"name", self.name.bytes())?;
        push_optional_attribute(out, b"type", text_bytes(&self.kind))?;
        push_tag_end(out)?;
        push_escaped(out, bytes_or_none(&self.value))?;
        push_end_tag(out, b"eb:Property")?;
        Ok(())
    }
}

impl Written for PartInfo {
    ghost text = { part_info };

    #[tactic(auto, unfolding(message_model::specs::UnitText::part_info))]
    fn push_to(&self, out: &mut Vec<u8>) -> Result<(), NoMemory> {
        push_tag_start(out, b"eb:PartInfo")?;
        push_optional_attribute(out, b"href", text_bytes(&self.href))?;
        push_tag_end(out)?;
        push_listed(out, b"eb:PartProperties", self.properties.items())?;
        push_end_tag(out, b"eb:PartInfo")?;
        Ok(())
    }
}

impl Written for UserHeader {
    ghost text = { user_message };

    #[tactic(auto, unfolding(message_model::specs::UnitText::user_message))]
    fn push_to(&self, out: &mut Vec<u8>) -> Result<(), NoMemory> {
        push_tag_start(out, b"eb:UserMessage")?;
        push_optional_attribute(out, b"mpc", text_bytes(&self.mpc))?;
        push_tag_end(out)?;
        push_message_info(out, &self.stamp, &self.id, &self.ref_to)?;
        push_party_info(out, &self.from, &self.to)?;
        push_collaboration_info(out, self)?;
        push_listed(out, b"eb:MessageProperties", self.properties.items())?;
        push_listed(out, b"eb:PayloadInfo", self.parts.items())?;
        push_end_tag(out, b"eb:UserMessage")?;
        Ok(())
    }
}

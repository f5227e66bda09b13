//! Writes values in the format of an effect's body.
#![tactic(auto, unfolding(as4_effects::specs::Bodies::text_body, as4_effects::specs::Bodies::party_body, as4_effects::specs::Bodies::side_body, as4_effects::specs::Bodies::agreement_body, as4_effects::specs::Bodies::service_body, as4_effects::specs::Bodies::property_body, as4_effects::specs::Bodies::part_body, as4_effects::specs::Bodies::header_body, as4_effects::specs::Bodies::payload_body, as4_effects::specs::Bodies::route_body, as4_effects::specs::Effects::effect_body, as4_effects::specs::Marks::mark_body))]

ghost use Rattle.std.specs.Prelude.{◌≡◌, ◌∷◌, ◌++◌, ◌≤◌, OnOk};
ghost use Rattle.std.specs.List.{flat_map};
ghost use Rattle.as4_effects.specs.Bodies.{number_body, text_body};
ghost use Rattle.as4_effects.specs.Effects.{fields_body};

use as4_effects::{Carried, Delivery, Effect, Kept, Mark, Measured, Submission};
use as4_values::{
    Agreement, Code, MessageId, NoMemory, Octets, PartInfo, Party, Payload, Property, Route, Seq,
    Service, Side, StampText, Text, UserHeader,
};

/// A value that can be written into a body.
pub trait Written: Measured {
    /// Appends its bytes.
    fn push_to(&self, out: &mut Vec<u8>) -> Result<(), NoMemory>
        ensures { OnOk result (out.new.items ≡ out.old.items ++ Self.body self.now) };
}

/// Appends a number in this number of bytes, big endian.
#[tactic(auto, using(crate::proofs::NumberLemmas::last_places))]
pub fn push_number(out: &mut Vec<u8>, places: usize, number: u64) -> Result<(), NoMemory>
    requires { places ≤ 8 }
    ensures { OnOk result (out.new.items ≡ out.old.items ++ number_body places number) }
{
    out.extend_from_slice(&number.to_be_bytes()[8 - places..])?;
    Ok(())
}

/// Appends the length of a text and the text.
fn push_text(out: &mut Vec<u8>, text: &[u8]) -> Result<(), NoMemory>
    ensures { OnOk result (out.new.items ≡ out.old.items ++ text_body text.now) }
{
    push_number(out, 4, text.len() as u64)?;
    out.extend_from_slice(text)?;
    Ok(())
}

/// Appends the bytes of all items, in order.
pub fn push_all<T: Written>(out: &mut Vec<u8>, items: &[T]) -> Result<(), NoMemory>
    ensures { OnOk result (out.new.items ≡ out.old.items ++ flat_map T.body items.now) }
{
    for item in items {
        item.push_to(out)?;
    }
    Ok(())
}

impl Written for Text {
    fn push_to(&self, out: &mut Vec<u8>) -> Result<(), NoMemory> {
        push_text(out, self.bytes())
    }
}

impl Written for MessageId {
    fn push_to(&self, out: &mut Vec<u8>) -> Result<(), NoMemory> {
        push_text(out, self.bytes())
    }
}

impl Written for StampText {
    fn push_to(&self, out: &mut Vec<u8>) -> Result<(), NoMemory> {
        push_text(out, self.bytes())
    }
}

impl Written for Code {
    fn push_to(&self, out: &mut Vec<u8>) -> Result<(), NoMemory> {
        push_text(out, self.bytes())
    }
}

impl Written for Octets {
    fn push_to(&self, out: &mut Vec<u8>) -> Result<(), NoMemory> {
        push_text(out, self.bytes())
    }
}

impl<T: Written> Written for Option<T> {
    fn push_to(&self, out: &mut Vec<u8>) -> Result<(), NoMemory> {
        match self {
            None => out.push(0)?,
            Some(value) => {
                out.push(1)?;
                value.push_to(out)?;
            }
        }
        Ok(())
    }
}

impl<T: Written> Written for Seq<T> {
    fn push_to(&self, out: &mut Vec<u8>) -> Result<(), NoMemory> {
        push_number(out, 4, self.items().len() as u64)?;
        push_all(out, self.items())
    }
}

impl Written for Party {
    fn push_to(&self, out: &mut Vec<u8>) -> Result<(), NoMemory> {
        self.id.push_to(out)?;
        self.kind.push_to(out)
    }
}

impl Written for Side {
    fn push_to(&self, out: &mut Vec<u8>) -> Result<(), NoMemory> {
        self.parties.push_to(out)?;
        self.role.push_to(out)
    }
}

impl Written for Agreement {
    fn push_to(&self, out: &mut Vec<u8>) -> Result<(), NoMemory> {
        self.value.push_to(out)?;
        self.kind.push_to(out)?;
        self.pmode.push_to(out)
    }
}

impl Written for Service {
    fn push_to(&self, out: &mut Vec<u8>) -> Result<(), NoMemory> {
        self.value.push_to(out)?;
        self.kind.push_to(out)
    }
}

impl Written for Property {
    fn push_to(&self, out: &mut Vec<u8>) -> Result<(), NoMemory> {
        self.name.push_to(out)?;
        self.kind.push_to(out)?;
        self.value.push_to(out)
    }
}

impl Written for PartInfo {
    fn push_to(&self, out: &mut Vec<u8>) -> Result<(), NoMemory> {
        self.href.push_to(out)?;
        self.properties.push_to(out)
    }
}

impl Written for UserHeader {
    fn push_to(&self, out: &mut Vec<u8>) -> Result<(), NoMemory> {
        self.mpc.push_to(out)?;
        self.stamp.push_to(out)?;
        self.id.push_to(out)?;
        self.ref_to.push_to(out)?;
        self.from.push_to(out)?;
        self.to.push_to(out)?;
        self.agreement.push_to(out)?;
        self.service.push_to(out)?;
        self.action.push_to(out)?;
        self.conversation.push_to(out)?;
        self.properties.push_to(out)?;
        self.parts.push_to(out)
    }
}

impl Written for Payload {
    fn push_to(&self, out: &mut Vec<u8>) -> Result<(), NoMemory> {
        self.cid.push_to(out)?;
        self.media.push_to(out)?;
        self.content.push_to(out)
    }
}

impl Written for Route {
    fn push_to(&self, out: &mut Vec<u8>) -> Result<(), NoMemory> {
        match self {
            Route::Push { address } => {
                out.push(0)?;
                address.push_to(out)
            }
            Route::Pull { mpc, address } => {
                out.push(1)?;
                mpc.push_to(out)?;
                address.push_to(out)
            }
        }
    }
}

/// Appends the fields of a submission.
fn push_fields(out: &mut Vec<u8>, submission: &Submission) -> Result<(), NoMemory>
    ensures { OnOk result (out.new.items ≡ out.old.items ++ fields_body submission.now) }
{
    push_number(out, 8, submission.number)?;
    submission.header.push_to(out)?;
    submission.payloads.push_to(out)?;
    submission.route.push_to(out)?;
    push_number(out, 4, submission.retries as u64)?;
    push_number(out, 8, submission.period)?;
    push_number(out, 8, submission.moment)
}

impl Written for Submission {
    fn push_to(&self, out: &mut Vec<u8>) -> Result<(), NoMemory> {
        out.push(1)?;
        push_fields(out, self)
    }
}

impl Written for Delivery {
    fn push_to(&self, out: &mut Vec<u8>) -> Result<(), NoMemory> {
        out.push(4)?;
        self.header.push_to(out)?;
        self.payloads.push_to(out)
    }
}

impl Written for Mark {
    fn push_to(&self, out: &mut Vec<u8>) -> Result<(), NoMemory> {
        match self {
            Mark::Pending => out.push(0)?,
            Mark::Receipted => out.push(1)?,
            Mark::Failed => out.push(2)?,
            Mark::Refused { code } => {
                out.push(3)?;
                code.push_to(out)?;
            }
        }
        Ok(())
    }
}

impl Written for Carried {
    fn push_to(&self, out: &mut Vec<u8>) -> Result<(), NoMemory> {
        out.push(8)?;
        push_fields(out, &self.submission)?;
        push_number(out, 4, self.tries as u64)?;
        push_number(out, 8, self.last)?;
        self.standing.push_to(out)
    }
}

impl Written for Kept {
    fn push_to(&self, out: &mut Vec<u8>) -> Result<(), NoMemory> {
        out.push(9)?;
        self.header.push_to(out)
    }
}

/// Appends an effect whose only field is a number.
fn push_numbered(out: &mut Vec<u8>, kind: u8, number: u64) -> Result<(), NoMemory>
    ensures { OnOk result (out.new.items ≡ out.old.items ++ (kind ∷ number_body 8 number)) }
{
    out.push(kind)?;
    push_number(out, 8, number)
}

impl Written for Effect {
    fn push_to(&self, out: &mut Vec<u8>) -> Result<(), NoMemory> {
        match self {
            Effect::Submitted(submission) => submission.push_to(out),
            Effect::Ticked(tick) => push_numbered(out, 2, tick.moment),
            Effect::Tried { number } => push_numbered(out, 3, *number),
            Effect::Delivered(delivery) => delivery.push_to(out),
            Effect::Receipted { number } => push_numbered(out, 5, *number),
            Effect::Refused { number, code } => {
                push_numbered(out, 6, *number)?;
                code.push_to(out)
            }
            Effect::Confirmed { upto } => push_numbered(out, 7, *upto),
            Effect::Carried(carried) => carried.push_to(out),
            Effect::Kept(kept) => kept.push_to(out),
        }
    }
}

//! Reads the header of a user message (ebMS 3.0 Core, section 5.2.2), each element as pairs of its values.

ghost use Rattle.std.specs.Prelude.{◌↔◌, IsTrue, refl};
ghost use Rattle.std.proofs.Common.{arith, append_assoc};
ghost use Rattle.as4_effects.proofs.PartLemmas.{party_told, side_told, agreement_told, service_told, property_told, part_told, header_told};
ghost use Rattle.as4_effects.specs.Bodies.{party_body, side_body, agreement_body, service_body, property_body, part_body, header_body};
ghost use Rattle.as4_effects.specs.Parts.{party_parts, side_parts, agreement_parts, service_parts, property_parts, part_parts, header_parts};
ghost use Rattle.as4_values.specs.Counts.{IsPropertyCount, IsPartCount};
ghost use Rattle.event_code.specs.Spelled.{IsSpelledParty, IsSpelledSide, IsSpelledAgreement, IsSpelledService, IsSpelledProperty, IsSpelledPart, IsSpelledHeader};

use crate::reading::{Parted, Readable, once_by_parts, read_by_parts};
use crate::refusal::BodyRefusal;
use crate::rest::Rest;
use as4_values::{
    Agreement, MessageId, PartInfo, Party, Property, Seq, Service, Side, StampText, Text,
    UserHeader,
};
use std::alloc::Global;

/// The most parties of a side.
const MAX_PARTIES: usize = 16;

/// The most properties of a header or a part info.
const MAX_PROPERTIES: usize = 256;

/// The most part infos of a header.
const MAX_PARTS: usize = 255;

impl Readable for Party {
    ghost body = { party_body };

    ghost is_one = { IsSpelledParty };

    fn read(alloc: Global, rest: &mut Rest) -> Result<Party, BodyRefusal> {
        read_by_parts(alloc, rest)
    }

    fn once() {
        once_by_parts::<Party>()
    }
}

impl Parted for Party {
    type Parts = (Text, Option<Text>);

    ghost whole_body = { party_body };

    ghost is_whole = { IsSpelledParty };

    ghost parts = { party_parts };

    fn of_parts(_alloc: Global, these: (Text, Option<Text>)) -> Result<Party, BodyRefusal> {
        let (id, kind) = these;
        Ok(Party { id, kind })
    }

    ghost told = { party_told };

    ghost kept = { unfold IsSpelledParty in λ p. (λ h. h, λ h. h) };

    ghost same = { unfold party_body in λ p. refl };
}

impl Readable for Side {
    ghost body = { side_body };

    ghost is_one = { IsSpelledSide };

    fn read(alloc: Global, rest: &mut Rest) -> Result<Side, BodyRefusal> {
        read_by_parts(alloc, rest)
    }

    fn once() {
        once_by_parts::<Side>()
    }
}

impl Parted for Side {
    type Parts = (Seq<Party>, Text);

    ghost whole_body = { side_body };

    ghost is_whole = { IsSpelledSide };

    ghost parts = { side_parts };

    fn of_parts(_alloc: Global, these: (Seq<Party>, Text)) -> Result<Side, BodyRefusal> {
        let (parties, role) = these;
        let count = parties.items().len();
        if count == 0 || count > MAX_PARTIES {
            return Err(BodyRefusal::NotBody);
        }
        Ok(Side { parties, role })
    }

    ghost told = { side_told };

    ghost kept = { unfold IsSpelledSide in λ s. (λ h. ((Prim.omega (arith, s.counted.1), h.0), h.1), λ h. (h.0.1, h.1)) };

    ghost same = { unfold side_body in λ s. refl };
}

impl Readable for Agreement {
    ghost body = { agreement_body };

    ghost is_one = { IsSpelledAgreement };

    fn read(alloc: Global, rest: &mut Rest) -> Result<Agreement, BodyRefusal> {
        read_by_parts(alloc, rest)
    }

    fn once() {
        once_by_parts::<Agreement>()
    }
}

impl Parted for Agreement {
    type Parts = ((Text, Option<Text>), Option<Text>);

    ghost whole_body = { agreement_body };

    ghost is_whole = { IsSpelledAgreement };

    ghost parts = { agreement_parts };

    fn of_parts(_alloc: Global, these: Self::Parts) -> Result<Agreement, BodyRefusal> {
        let ((value, kind), pmode) = these;
        Ok(Agreement { value, kind, pmode })
    }

    ghost told = { agreement_told };

    ghost kept = { unfold IsSpelledAgreement in λ a. (λ h. ((h.0, h.1), h.2), λ h. (h.0.0, h.0.1, h.1)) };

    ghost same = { unfold agreement_body in λ a. refl };
}

impl Readable for Service {
    ghost body = { service_body };

    ghost is_one = { IsSpelledService };

    fn read(alloc: Global, rest: &mut Rest) -> Result<Service, BodyRefusal> {
        read_by_parts(alloc, rest)
    }

    fn once() {
        once_by_parts::<Service>()
    }
}

impl Parted for Service {
    type Parts = (Text, Option<Text>);

    ghost whole_body = { service_body };

    ghost is_whole = { IsSpelledService };

    ghost parts = { service_parts };

    fn of_parts(_alloc: Global, these: Self::Parts) -> Result<Service, BodyRefusal> {
        let (value, kind) = these;
        Ok(Service { value, kind })
    }

    ghost told = { service_told };

    ghost kept = { unfold IsSpelledService in λ s. (λ h. h, λ h. h) };

    ghost same = { unfold service_body in λ s. refl };
}

impl Readable for Property {
    ghost body = { property_body };

    ghost is_one = { IsSpelledProperty };

    fn read(alloc: Global, rest: &mut Rest) -> Result<Property, BodyRefusal> {
        read_by_parts(alloc, rest)
    }

    fn once() {
        once_by_parts::<Property>()
    }
}

impl Parted for Property {
    type Parts = ((Text, Option<Text>), Option<Text>);

    ghost whole_body = { property_body };

    ghost is_whole = { IsSpelledProperty };

    ghost parts = { property_parts };

    fn of_parts(_alloc: Global, these: Self::Parts) -> Result<Property, BodyRefusal> {
        let ((name, kind), value) = these;
        Ok(Property { name, kind, value })
    }

    ghost told = { property_told };

    ghost kept = { unfold IsSpelledProperty in λ p. (λ h. ((h.0, h.1), h.2), λ h. (h.0.0, h.0.1, h.1)) };

    ghost same = { unfold property_body in λ p. refl };
}

impl Readable for PartInfo {
    ghost body = { part_body };

    ghost is_one = { IsSpelledPart };

    fn read(alloc: Global, rest: &mut Rest) -> Result<PartInfo, BodyRefusal> {
        read_by_parts(alloc, rest)
    }

    fn once() {
        once_by_parts::<PartInfo>()
    }
}

impl Parted for PartInfo {
    type Parts = (Option<Text>, Seq<Property>);

    ghost whole_body = { part_body };

    ghost is_whole = { IsSpelledPart };

    ghost parts = { part_parts };

    fn of_parts(_alloc: Global, these: Self::Parts) -> Result<PartInfo, BodyRefusal> {
        let (href, properties) = these;
        if properties.items().len() > MAX_PROPERTIES {
            return Err(BodyRefusal::NotBody);
        }
        Ok(PartInfo { href, properties })
    }

    ghost told = { part_told };

    ghost kept = { unfold IsSpelledPart in λ p. (λ h. (h.0, (Prim.omega (arith, p.counted), h.1)), λ h. (h.0, h.1.1)) };

    ghost same = { unfold part_body in λ p. refl };
}

type Names = ((Option<Text>, StampText), (MessageId, Option<MessageId>));

type Sides = ((Side, Side), (Option<Agreement>, Service));

type Ending = ((Text, Option<Text>), (Seq<Property>, Seq<PartInfo>));

impl Readable for UserHeader {
    ghost body = { header_body };

    ghost is_one = { IsSpelledHeader };

    fn read(alloc: Global, rest: &mut Rest) -> Result<UserHeader, BodyRefusal> {
        read_by_parts(alloc, rest)
    }

    fn once() {
        once_by_parts::<UserHeader>()
    }
}

impl Parted for UserHeader {
    type Parts = (Names, (Sides, Ending));

    ghost whole_body = { header_body };

    ghost is_whole = { IsSpelledHeader };

    ghost parts = { header_parts };

    fn of_parts(_alloc: Global, these: Self::Parts) -> Result<UserHeader, BodyRefusal> {
        if !are_counted(&these.1.1.1) {
            drop(these);
            return Err(BodyRefusal::NotBody);
        }
        let (names, (sides, (texts, lists))) = these;
        let ((mpc, stamp), (id, ref_to)) = names;
        let ((from, to), (agreement, service)) = sides;
        let (action, conversation) = texts;
        let (properties, parts) = lists;
        Ok(UserHeader {
            mpc,
            stamp,
            id,
            ref_to,
            from,
            to,
            agreement,
            service,
            action,
            conversation,
            properties,
            parts,
        })
    }

    ghost told = { header_told };

    ghost kept = { λ h. (
      λ is. (
        ((is.mpc, is.stamp), (is.id, is.ref_to)),
        (
          ((is.from, is.to), (is.agreement, is.service)),
          (
            (is.action, is.conversation),
            ((Prim.omega (arith, h.properties_counted), is.properties), (Prim.omega (arith, h.parts_counted), is.parts)),
          ),
        ),
      ),
      λ p. record {
        mpc = p.0.0.0;
        stamp = p.0.0.1;
        id = p.0.1.0;
        ref_to = p.0.1.1;
        from = p.1.0.0.0;
        to = p.1.0.0.1;
        agreement = p.1.0.1.0;
        service = p.1.0.1.1;
        action = p.1.1.0.0;
        conversation = p.1.1.0.1;
        properties = p.1.1.1.0.1;
        parts = p.1.1.1.1.1;
      },
    ) };

    ghost same = { unfold header_body in λ h. Prim.simp append_assoc };
}

/// Whether a header may have this many properties and part infos.
fn are_counted(lists: &(Seq<Property>, Seq<PartInfo>)) -> bool
    ensures { IsTrue result ↔ (IsPropertyCount lists.now.0 × IsPartCount lists.now.1) }
{
    let (properties, parts) = lists;
    properties.items().len() <= MAX_PROPERTIES && parts.items().len() <= MAX_PARTS
}

//! The lengths of values in the body of an effect.
#![tactic(auto, using(crate::proofs::LengthLemmas::grown_append), unfolding(crate::specs::Bodies::party_body, crate::specs::Bodies::side_body, crate::specs::Bodies::agreement_body, crate::specs::Bodies::service_body, crate::specs::Bodies::property_body, crate::specs::Bodies::part_body, crate::specs::Bodies::header_body, crate::specs::Bodies::payload_body, crate::specs::Bodies::route_body))]

ghost use Rattle.std.specs.Prelude.{◌≡◌, ℕ, List, ◌∷◌};
ghost use Rattle.as4_effects.specs.Bodies.{text_body, option_body, list_body, party_body, side_body, agreement_body, service_body, property_body, part_body, header_body, payload_body, route_body};
ghost use Rattle.as4_effects.specs.Effects.{submission_body, delivery_body, standing_body, effect_body};
ghost use Rattle.as4_effects.specs.Lengths.{grown};
ghost use Rattle.as4_effects.specs.Marks.{mark_body};
ghost use Rattle.as4_effects.specs.Sound.{kept_body};

use crate::carried::Carried;
use crate::delivery::Delivery;
use crate::effect::Effect;
use crate::kept::Kept;
use crate::mark::Mark;
use crate::submission::Submission;
use as4_values::{
    Agreement, Code, MessageId, Octets, PartInfo, Party, Payload, Property, Route, Seq, Service,
    Side, StampText, Text, UserHeader,
};

/// A value with bytes in the body of an effect.
pub trait Measured {
    ghost body: { Self → List ℕ };

    /// The sum plus the value's length, or `u64::MAX` where that is too large.
    fn add_len(&self, sum: u64) -> u64
        ensures { result ≡ grown sum (body self.now) };
}

/// Adds the length of a text, with the bytes of its count.
#[tactic(auto, using(crate::proofs::LengthLemmas::grown_text))]
fn add_text(sum: u64, text: &[u8]) -> u64
    ensures { result ≡ grown sum (text_body text.now) }
{
    sum.saturating_add(4).saturating_add(text.len() as u64)
}

impl Measured for Text {
    ghost body = { text_body };

    fn add_len(&self, sum: u64) -> u64 {
        add_text(sum, self.bytes())
    }
}

impl Measured for MessageId {
    ghost body = { text_body };

    fn add_len(&self, sum: u64) -> u64 {
        add_text(sum, self.bytes())
    }
}

impl Measured for StampText {
    ghost body = { text_body };

    fn add_len(&self, sum: u64) -> u64 {
        add_text(sum, self.bytes())
    }
}

impl Measured for Code {
    ghost body = { text_body };

    fn add_len(&self, sum: u64) -> u64 {
        add_text(sum, self.bytes())
    }
}

impl Measured for Octets {
    ghost body = { text_body };

    fn add_len(&self, sum: u64) -> u64 {
        add_text(sum, self.bytes())
    }
}

impl<T: Measured> Measured for Option<T> {
    ghost body = { option_body T.body };

    #[tactic(auto, using(crate::proofs::LengthLemmas::grown_cons, crate::proofs::LengthLemmas::grown_none))]
    fn add_len(&self, sum: u64) -> u64 {
        let sum = sum.saturating_add(1);
        match self {
            None => sum,
            Some(value) => value.add_len(sum),
        }
    }
}

impl<T: Measured> Measured for Seq<T> {
    ghost body = { list_body T.body };

    #[tactic(auto, using(crate::proofs::LengthLemmas::grown_more, crate::proofs::LengthLemmas::grown_none))]
    fn add_len(&self, sum: u64) -> u64 {
        let mut total = sum.saturating_add(4);
        for item in self.items() {
            total = item.add_len(total);
        }
        total
    }
}

impl Measured for Party {
    ghost body = { party_body };

    fn add_len(&self, sum: u64) -> u64 {
        let sum = self.id.add_len(sum);
        self.kind.add_len(sum)
    }
}

impl Measured for Side {
    ghost body = { side_body };

    fn add_len(&self, sum: u64) -> u64 {
        let sum = self.parties.add_len(sum);
        self.role.add_len(sum)
    }
}

impl Measured for Agreement {
    ghost body = { agreement_body };

    fn add_len(&self, sum: u64) -> u64 {
        let sum = self.value.add_len(sum);
        let sum = self.kind.add_len(sum);
        self.pmode.add_len(sum)
    }
}

impl Measured for Service {
    ghost body = { service_body };

    fn add_len(&self, sum: u64) -> u64 {
        let sum = self.value.add_len(sum);
        self.kind.add_len(sum)
    }
}

impl Measured for Property {
    ghost body = { property_body };

    fn add_len(&self, sum: u64) -> u64 {
        let sum = self.name.add_len(sum);
        let sum = self.kind.add_len(sum);
        self.value.add_len(sum)
    }
}

impl Measured for PartInfo {
    ghost body = { part_body };

    fn add_len(&self, sum: u64) -> u64 {
        let sum = self.href.add_len(sum);
        self.properties.add_len(sum)
    }
}

impl Measured for UserHeader {
    ghost body = { header_body };

    fn add_len(&self, sum: u64) -> u64 {
        let sum = self.mpc.add_len(sum);
        let sum = self.stamp.add_len(sum);
        let sum = self.id.add_len(sum);
        let sum = self.ref_to.add_len(sum);
        let sum = self.from.add_len(sum);
        let sum = self.to.add_len(sum);
        let sum = self.agreement.add_len(sum);
        let sum = self.service.add_len(sum);
        let sum = self.action.add_len(sum);
        let sum = self.conversation.add_len(sum);
        let sum = self.properties.add_len(sum);
        self.parts.add_len(sum)
    }
}

impl Measured for Payload {
    ghost body = { payload_body };

    fn add_len(&self, sum: u64) -> u64 {
        let sum = self.cid.add_len(sum);
        let sum = self.media.add_len(sum);
        self.content.add_len(sum)
    }
}

impl Measured for Route {
    ghost body = { route_body };

    #[tactic(auto, using(crate::proofs::LengthLemmas::grown_append, crate::proofs::LengthLemmas::grown_cons), unfolding(crate::specs::Bodies::route_body))]
    fn add_len(&self, sum: u64) -> u64 {
        let sum = sum.saturating_add(1);
        match self {
            Route::Push { address } => address.add_len(sum),
            Route::Pull { mpc, address } => {
                let sum = mpc.add_len(sum);
                address.add_len(sum)
            }
        }
    }
}

impl Measured for Submission {
    ghost body = { submission_body };

    #[tactic(auto, using(crate::proofs::LengthLemmas::grown_append, crate::proofs::LengthLemmas::grown_cons, crate::proofs::LengthLemmas::grown_number))]
    fn add_len(&self, sum: u64) -> u64 {
        let sum = sum.saturating_add(9);
        let sum = self.header.add_len(sum);
        let sum = self.payloads.add_len(sum);
        let sum = self.route.add_len(sum);
        sum.saturating_add(20)
    }
}

impl Measured for Delivery {
    ghost body = { delivery_body };

    #[tactic(auto, using(crate::proofs::LengthLemmas::grown_append, crate::proofs::LengthLemmas::grown_cons))]
    fn add_len(&self, sum: u64) -> u64 {
        let sum = self.header.add_len(sum.saturating_add(1));
        self.payloads.add_len(sum)
    }
}

impl Measured for Mark {
    ghost body = { mark_body };

    #[tactic(auto, using(crate::proofs::LengthLemmas::grown_cons, crate::proofs::LengthLemmas::grown_none), unfolding(crate::specs::Marks::mark_body))]
    fn add_len(&self, sum: u64) -> u64 {
        let sum = sum.saturating_add(1);
        match self {
            Mark::Refused { code } => code.add_len(sum),
            _ => sum,
        }
    }
}

impl Measured for Carried {
    ghost body = { λ carried. 8 ∷ standing_body carried };

    #[tactic(auto, using(crate::proofs::LengthLemmas::grown_append, crate::proofs::LengthLemmas::grown_cons, crate::proofs::LengthLemmas::grown_number))]
    fn add_len(&self, sum: u64) -> u64 {
        let sum = self.submission.add_len(sum).saturating_add(12);
        self.standing.add_len(sum)
    }
}

impl Measured for Kept {
    ghost body = { λ kept. kept_body kept.header };

    #[tactic(auto, using(crate::proofs::LengthLemmas::grown_cons))]
    fn add_len(&self, sum: u64) -> u64 {
        self.header.add_len(sum.saturating_add(1))
    }
}

impl Measured for Effect {
    ghost body = { effect_body };

    #[tactic(auto, using(crate::proofs::LengthLemmas::grown_append, crate::proofs::LengthLemmas::grown_cons, crate::proofs::LengthLemmas::grown_number), unfolding(crate::specs::Effects::effect_body))]
    fn add_len(&self, sum: u64) -> u64 {
        match self {
            Effect::Submitted(submission) => submission.add_len(sum),
            Effect::Delivered(delivery) => delivery.add_len(sum),
            Effect::Refused { code, .. } => code.add_len(sum.saturating_add(9)),
            Effect::Carried(carried) => carried.add_len(sum),
            Effect::Kept(kept) => kept.add_len(sum),
            _ => sum.saturating_add(9),
        }
    }
}

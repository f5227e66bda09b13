//! The invariants of the parts of each value, as facts for the code that writes it.
#![tactic(auto, unfolding(crate::specs::Spelled::IsSpelledStamp, crate::specs::Spelled::IsSpelledParty, crate::specs::Spelled::IsSpelledSide, crate::specs::Spelled::IsSpelledAgreement, crate::specs::Spelled::IsSpelledService, crate::specs::Spelled::IsSpelledProperty, crate::specs::Spelled::IsSpelledPart, crate::specs::Spelled::IsSpelledRoute, crate::specs::Spelled::IsSpelledMark, crate::specs::Spelled::IsSpelledSubmission, crate::specs::Spelled::IsSpelledDelivery, crate::specs::Spelled::IsSpelledCarried, crate::specs::Spelled::IsSpelledEffect))]

ghost use Rattle.std.specs.Prelude.{IfSome};
ghost use Rattle.as4_values.specs.Texts.{IsText};
ghost use Rattle.as4_values.specs.Word.{IsWord};
ghost use Rattle.as4_values.specs.declared.word.Word.TheVariants.{Identifier, ErrorCode};
ghost use Rattle.byte_forms.specs.Forms.{Each};
ghost use Rattle.event_code.specs.Spelled.{IsSpelledStamp, IsSpelledParty, IsSpelledSide, IsSpelledAgreement, IsSpelledService, IsSpelledProperty, IsSpelledPart, IsSpelledHeader, IsSpelledRoute, IsSpelledMark, IsSpelledSubmission, IsSpelledDelivery, IsSpelledCarried, IsSpelledEffect};

use as4_effects::{Carried, Delivery, Effect, Kept, Mark, Submission};
use as4_values::{
    Agreement, Code, MessageId, PartInfo, Party, Property, Route, Seq, Service, Side, StampText,
    Text, UserHeader,
};

/// A value whose parts satisfy the invariants of their types.
pub trait Spelled {
    ghost is_spelled: { Self → Type 0 };

    /// A law: the parts satisfy the invariants of their types. Changes nothing.
    fn show(&self)
        ensures { is_spelled self.now };
}

impl Spelled for Text {
    ghost is_spelled = { IsText };

    fn show(&self) {
        let _ = self.bytes();
    }
}

impl Spelled for MessageId {
    ghost is_spelled = { IsWord Identifier };

    fn show(&self) {
        let _ = self.bytes();
    }
}

impl Spelled for Code {
    ghost is_spelled = { IsWord ErrorCode };

    fn show(&self) {
        let _ = self.bytes();
    }
}

impl Spelled for StampText {
    ghost is_spelled = { IsSpelledStamp };

    fn show(&self) {
        let _ = self.bytes();
    }
}

impl<T: Spelled> Spelled for Option<T> {
    ghost is_spelled = { λ value. IfSome value T.is_spelled };

    fn show(&self) {
        if let Some(value) = self {
            value.show();
        }
    }
}

impl<T: Spelled> Spelled for Seq<T> {
    ghost is_spelled = { Each T.is_spelled };

    fn show(&self) {
        show_all(self.items())
    }
}

/// The same for each of these.
fn show_all<T: Spelled>(items: &[T])
    ensures { Each T.is_spelled items.now }
{
    for item in items {
        item.show();
    }
}

impl Spelled for Party {
    ghost is_spelled = { IsSpelledParty };

    fn show(&self) {
        self.id.show();
        self.kind.show();
    }
}

impl Spelled for Side {
    ghost is_spelled = { IsSpelledSide };

    fn show(&self) {
        self.parties.show();
        self.role.show();
    }
}

impl Spelled for Agreement {
    ghost is_spelled = { IsSpelledAgreement };

    fn show(&self) {
        self.value.show();
        self.kind.show();
        self.pmode.show();
    }
}

impl Spelled for Service {
    ghost is_spelled = { IsSpelledService };

    fn show(&self) {
        self.value.show();
        self.kind.show();
    }
}

impl Spelled for Property {
    ghost is_spelled = { IsSpelledProperty };

    fn show(&self) {
        self.name.show();
        self.kind.show();
        self.value.show();
    }
}

impl Spelled for PartInfo {
    ghost is_spelled = { IsSpelledPart };

    fn show(&self) {
        self.href.show();
        self.properties.show();
    }
}

impl Spelled for UserHeader {
    ghost is_spelled = { IsSpelledHeader };

    fn show(&self) {
        self.mpc.show();
        self.stamp.show();
        self.id.show();
        self.ref_to.show();
        self.from.show();
        self.to.show();
        self.agreement.show();
        self.service.show();
        self.action.show();
        self.conversation.show();
        self.properties.show();
        self.parts.show();
    }
}

impl Spelled for Route {
    ghost is_spelled = { IsSpelledRoute };

    fn show(&self) {
        match self {
            Route::Push { address } => address.show(),
            Route::Pull { mpc, address } => {
                mpc.show();
                address.show();
            }
        }
    }
}

impl Spelled for Submission {
    ghost is_spelled = { IsSpelledSubmission };

    fn show(&self) {
        self.header.show();
        self.route.show();
    }
}

impl Spelled for Delivery {
    ghost is_spelled = { IsSpelledDelivery };

    fn show(&self) {
        self.header.show();
    }
}

impl Spelled for Mark {
    ghost is_spelled = { IsSpelledMark };

    fn show(&self) {
        if let Mark::Refused { code } = self {
            code.show();
        }
    }
}

impl Spelled for Carried {
    ghost is_spelled = { IsSpelledCarried };

    fn show(&self) {
        self.submission.show();
        let _tries = self.tries;
        self.standing.show();
    }
}

impl Spelled for Kept {
    ghost is_spelled = { λ kept. IsSpelledHeader kept.header };

    fn show(&self) {
        self.header.show();
    }
}

impl Spelled for Effect {
    ghost is_spelled = { IsSpelledEffect };

    fn show(&self) {
        match self {
            Effect::Submitted(submission) => submission.show(),
            Effect::Delivered(delivery) => delivery.show(),
            Effect::Refused { number, code } => {
                let _number = *number;
                code.show();
            }
            Effect::Tried { number } => {
                let _number = *number;
            }
            Effect::Receipted { number } => {
                let _number = *number;
            }
            Effect::Confirmed { upto } => {
                let _upto = *upto;
            }
            Effect::Carried(carried) => carried.show(),
            Effect::Kept(kept) => kept.show(),
            Effect::Ticked(_) => {}
        }
    }
}

//! A fact about each value: it is read back from its text, and its tree can be written.

ghost use Rattle.std.specs.Prelude.{◌≡◌, Some, IfSome, codes};
ghost use Rattle.std.specs.List.{AllByRecursion};
ghost use Rattle.message_model.specs.UnitTree.{message_info_tree, party_tree, side_tree, service_tree, property_tree, part_tree, user_tree, error_tree, signal_tree};
ghost use Rattle.unit_laws.specs.Again.{TextAgain, IdAgain, AgreementAgain, BodyAgain, UnitAgain};
ghost use Rattle.unit_laws.specs.Kept.{IsXmlText, IsKept, AgreementKept, BodyKept, UnitKept};
ghost use Rattle.header_reader.specs.Signals.{error_of, signal_of};
ghost use Rattle.header_reader.specs.User.{info_of, party_of, side_of, service_of, property_of, part_of, user_of};
ghost use Rattle.header_reader.specs.Values.{code_of, stamp_of};

use as4_values::{
    Agreement, Code, ErrorItem, MessageId, PartInfo, Party, Property, Seq, Service, Side, Signal,
    SignalBody, StampText, Text, Unit, UserHeader,
};

/// Values that are read back as they were written, and are kept by their text.
pub trait Again {
    ghost again: { Self → Type 0 };

    ghost kept: { Self → Type 0 };

    /// A law: each value of the type is read back, and kept.
    fn show(&self)
        ensures again { again self.now }
        ensures kept { kept self.now };
}

impl Again for Text {
    ghost again = { TextAgain };

    ghost kept = { IsXmlText };

    #[tactic(auto, using(crate::proofs::AgainLemmas::text_again, crate::proofs::XmlLemmas::text_is_xml))]
    fn show(&self) {
        let _ = self.bytes();
    }
}

impl Again for MessageId {
    ghost again = { IdAgain };

    ghost kept = { IsXmlText };

    #[tactic(auto, using(crate::proofs::AgainLemmas::word_again, crate::proofs::XmlLemmas::id_is_xml))]
    fn show(&self) {
        let _ = self.bytes();
    }
}

impl Again for Code {
    ghost again = { λ code. code_of code ≡ Some code };

    ghost kept = { IsXmlText };

    #[tactic(auto, using(crate::proofs::AgainLemmas::word_again, crate::proofs::XmlLemmas::code_is_xml))]
    fn show(&self) {
        let _ = self.bytes();
    }
}

impl Again for StampText {
    ghost again = { λ stamp. stamp_of stamp ≡ Some stamp };

    ghost kept = { IsXmlText };

    #[tactic(auto, using(crate::proofs::AgainLemmas::stamp_again, crate::proofs::XmlLemmas::stamp_is_xml))]
    fn show(&self) {
        let _ = self.bytes();
    }
}

impl<T: Again> Again for Option<T> {
    ghost again = { λ value. IfSome value T.again };

    ghost kept = { λ value. IfSome value T.kept };

    fn show(&self) {
        if let Some(value) = self {
            value.show();
        }
    }
}

/// The law of `show` for all items.
fn show_all<T: Again>(items: &[T])
    ensures again { AllByRecursion T.again items.now }
    ensures kept { AllByRecursion T.kept items.now }
{
    for item in items {
        item.show();
    }
}

impl Again for Party {
    ghost again = { λ p. party_of (party_tree p) ≡ Some p };

    ghost kept = { λ p. IsKept 1 (party_tree p) };

    #[tactic(auto, using(crate::proofs::UserAgain::party_again, crate::proofs::UserKept::party_kept))]
    fn show(&self) {
        self.id.show();
        self.kind.show();
    }
}

impl Again for Side {
    ghost again = { λ s. (side_of (side_tree (codes "From") s) ≡ Some s) × (side_of (side_tree (codes "To") s) ≡ Some s) };

    ghost kept = { λ s. IsKept 2 (side_tree (codes "From") s) × IsKept 2 (side_tree (codes "To") s) };

    #[tactic(auto, using(crate::proofs::UserAgain::side_again, crate::proofs::UserKept::side_kept))]
    fn show(&self) {
        show_all(self.parties.items());
        self.role.show();
    }
}

impl Again for Agreement {
    ghost again = { AgreementAgain };

    ghost kept = { AgreementKept };

    #[tactic(auto, using(crate::proofs::UserAgain::agreement_again, crate::proofs::UserKept::agreement_kept))]
    fn show(&self) {
        self.value.show();
        self.kind.show();
        self.pmode.show();
    }
}

impl Again for Service {
    ghost again = { λ s. service_of (service_tree s) ≡ Some s };

    ghost kept = { λ s. IsKept 1 (service_tree s) };

    #[tactic(auto, using(crate::proofs::UserAgain::service_again, crate::proofs::UserKept::service_kept))]
    fn show(&self) {
        self.value.show();
        self.kind.show();
    }
}

impl Again for Property {
    ghost again = { λ p. property_of (property_tree p) ≡ Some p };

    ghost kept = { λ p. IsKept 1 (property_tree p) };

    #[tactic(auto, using(crate::proofs::UserAgain::property_again, crate::proofs::UserKept::property_kept))]
    fn show(&self) {
        self.name.show();
        self.kind.show();
        self.value.show();
    }
}

impl Again for PartInfo {
    ghost again = { λ p. part_of (part_tree p) ≡ Some p };

    ghost kept = { λ p. IsKept 3 (part_tree p) };

    #[tactic(auto, using(crate::proofs::UserAgain::part_again, crate::proofs::UserKept::part_kept))]
    fn show(&self) {
        self.href.show();
        show_all(self.properties.items());
    }
}

impl Again for UserHeader {
    ghost again = { λ h. user_of (user_tree h) ≡ Some h };

    ghost kept = { λ h. IsKept 5 (user_tree h) };

    fn show(&self) {
        self.mpc.show();
        show_info(&self.stamp, &self.id, &self.ref_to);
        self.from.show();
        self.to.show();
        self.agreement.show();
        self.service.show();
        self.action.show();
        self.conversation.show();
        show_all(self.properties.items());
        show_all(self.parts.items());
    }
}

/// The law of `show` for the values of `eb:MessageInfo`.
#[tactic(auto, using(crate::proofs::UserAgain::info_again, crate::proofs::UserKept::info_kept))]
fn show_info(stamp: &StampText, id: &MessageId, ref_to: &Option<MessageId>)
    ensures again { info_of (message_info_tree stamp.now id.now ref_to.now)
        ≡ Some (record { stamp = stamp.now; id = id.now; ref_to = ref_to.now }) }
    ensures kept { IsKept 2 (message_info_tree stamp.now id.now ref_to.now) }
{
    stamp.show();
    id.show();
    ref_to.show();
}

impl Again for ErrorItem {
    ghost again = { λ item. error_of (error_tree item) ≡ Some item };

    ghost kept = { λ item. IsKept 2 (error_tree item) };

    fn show(&self) {
        self.code.show();
        self.origin.show();
        self.category.show();
        self.about.show();
        self.short.show();
        self.description.show();
        self.detail.show();
    }
}

impl Again for SignalBody {
    ghost again = { BodyAgain };

    ghost kept = { BodyKept };

    #[tactic(auto, using(crate::proofs::SignalKept::pull_kept, crate::proofs::SignalKept::receipt_kept, crate::proofs::SignalKept::errors_kept))]
    fn show(&self) {
        match self {
            SignalBody::Pull { mpc } => mpc.show(),
            SignalBody::Receipt { copy } => copy.show(),
            SignalBody::Errors { items } => show_all(items.items()),
        }
    }
}

impl Again for Signal {
    ghost again = { λ s. signal_of (signal_tree s) ≡ Some s };

    ghost kept = { λ s. IsKept 7 (signal_tree s) };

    #[tactic(auto, using(crate::proofs::SignalAgain::signal_again, crate::proofs::SignalKept::signal_kept))]
    fn show(&self) {
        show_info(&self.stamp, &self.id, &self.ref_to);
        self.body.show();
    }
}

impl Again for Unit {
    ghost again = { UnitAgain };

    ghost kept = { UnitKept };

    #[tactic(auto, using(crate::proofs::SignalKept::user_unit, crate::proofs::SignalKept::signal_unit, crate::proofs::SignalKept::pair_unit))]
    fn show(&self) {
        match self {
            Unit::User(header) => header.show(),
            Unit::Signal(signal) => signal.show(),
            Unit::Pair(pair) => {
                pair.receipt.show();
                pair.pull.show();
            }
        }
    }
}

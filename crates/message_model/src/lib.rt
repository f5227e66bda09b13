//! What messages look like on the wire: definitions that the writers and the readers cite, and laws about them.
#![tactic(auto)]

ghost use Rattle.std.specs.Prelude.{◌≡◌};
ghost use Rattle.as4_values.specs.declared.message.Unit.{Unit as MessageUnit};
ghost use Rattle.as4_envelope.specs.Tree.{tree_text};
ghost use Rattle.message_model.specs.UnitText.{unit_text, envelope_text};
ghost use Rattle.message_model.specs.UnitTree.{unit_tree};

/// The canonical text of a message unit is the text of its tree.
#[tactic(auto, using(crate::proofs::TreeLemmas::text_of_tree))]
pub fn unit_text_is_tree_text()
    ensures { (unit : MessageUnit) → envelope_text (unit_text unit) ≡ tree_text (unit_tree unit) }
{}

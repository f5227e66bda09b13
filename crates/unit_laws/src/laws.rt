//! A written unit is read back.

ghost use Rattle.as4_values.specs.declared.message.Unit.TheVariants as unit;
ghost use Rattle.header_reader.specs.Envelope.{SpellsUnit};
ghost use Rattle.message_model.specs.UnitText.{envelope_text, unit_text, user_message, signal_message, pair_text};
ghost use Rattle.message_model.specs.UnitTree.{unit_tree};
ghost use Rattle.unit_laws.specs.ReadAgain.{IsReadAgain};

use crate::again::Again;
use as4_values::{Pair, Signal, Unit, UserHeader};

/// The tree of a unit spells it.
#[tactic(auto, using(crate::proofs::SignalAgain::unit_again))]
pub fn tree_is_read_again(unit: &Unit)
    ensures { SpellsUnit (unit_tree unit.now) unit.now }
{
    unit.show();
}

/// A written unit is read back.
pub fn unit_is_read_again(unit: &Unit)
    ensures { IsReadAgain (envelope_text (unit_text unit.now)) unit.now }
{
    unit.show();
}

/// A written user message is read back.
pub fn header_is_read_again(header: &UserHeader)
    ensures { IsReadAgain (envelope_text (user_message header.now)) (unit.User header.now) }
{
    header.show();
}

/// A written signal message is read back.
pub fn signal_is_read_again(signal: &Signal)
    ensures { IsReadAgain (envelope_text (signal_message signal.now)) (unit.Signal signal.now) }
{
    signal.show();
}

/// A written receipt and the pull request after it are read back as that pair.
pub fn pair_is_read_again(pair: &Pair)
    ensures { IsReadAgain (envelope_text (pair_text pair.now)) (unit.Pair pair.now) }
{
    pair.receipt.show();
    pair.pull.show();
}

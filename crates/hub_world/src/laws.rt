//! What holds of every drill of a chain, over the definitions alone.
ghost use Rattle.std.specs.Prelude.{◌≡◌, ℕ, List};
ghost use Rattle.drill_script.specs.declared.line.Line.{Line};
ghost use Rattle.hub_world.specs.Delivered.{HasDeliveredThrough};
ghost use Rattle.hub_world.specs.Transcript.{HubState, PlaysAll, new_state};

use hub_laws::{chains_deliver_once, what_is_read_may_be_relayed};

/// Whatever a script says, each message is delivered through the hub once: what its lines do is what three endpoints do
/// in a chain whose networks lose, repeat and reorder what they carry.
pub fn a_chain_drill_delivers_once()
    ensures { (lines : List Line) (text : List ℕ) (state : HubState) → PlaysAll lines new_state text state
        → HasDeliveredThrough state.ends }
{
    chains_deliver_once();
    what_is_read_may_be_relayed();
}

/// A script has one transcript: whatever plays its lines from the start writes the same and leads to the same.
pub fn a_chain_script_has_one_transcript()
    ensures { (lines : List Line) (text words : List ℕ) (a b : HubState) → PlaysAll lines new_state text a
        → PlaysAll lines new_state words b → (text ≡ words) × (a ≡ b) }
{}

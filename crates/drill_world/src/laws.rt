//! What holds of every drill, over the definitions alone.
ghost use Rattle.std.specs.Prelude.{◌≡◌, ℕ, List};
ghost use Rattle.drill_world.specs.Transcript.{PlaysAll, DrillState, new_state};
ghost use Rattle.drill_script.specs.declared.line.Line.{Line};
ghost use Rattle.exchange_model.specs.DeliveredOnce.{HasDeliveredOnce};

use exchange_laws::messages_are_delivered_once;

/// Whatever a script says, each message is delivered once: what its lines do is what two ends do in a world that
/// loses, repeats and reorders what they send.
pub fn a_drill_delivers_once()
    ensures { (lines : List Line) (text : List ℕ) (state : DrillState) → PlaysAll lines new_state text state
        → HasDeliveredOnce state.world }
{
    messages_are_delivered_once();
}

/// A script has one transcript: whatever plays its lines from the start writes the same and leads to the same.
pub fn a_script_has_one_transcript()
    ensures { (lines : List Line) (text words : List ℕ) (a b : DrillState) → PlaysAll lines new_state text a
        → PlaysAll lines new_state words b → (text ≡ words) × (a ≡ b) }
{}

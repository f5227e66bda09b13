//! Laws of made records. Each law is the contract of a function that does nothing.

ghost use Rattle.std.specs.Prelude.{◌≡◌, ◌≢◌, ℕ, List, []};
ghost use Rattle.as4_audit.specs.Audit.{IsAuditOf};
ghost use Rattle.as4_audit.specs.Made.{IsMade};
ghost use Rattle.exchange_model.specs.End.{End};
ghost use Rattle.exchange_model.specs.Table.{Step};
ghost use Rattle.exchange_model.specs.declared.event.Event.{Event};
ghost use Rattle.exchange_model.specs.declared.outcome.Outcome.{Outcome};
ghost use Rattle.fold_laws.specs.Reached.{IsReached};
ghost use Rattle.mode_values.specs.declared.mode.Mode.{Mode};

use crate::finding::Audit;
use event_code::one_body;

/// Every record that the machine writes is made: at an endpoint that fitting effects lead to, the effects of a step are
/// those of a made record, unless there are none.
pub fn what_a_step_gives_is_made()
    ensures { (modes : List Mode) (end : End) (event : Event) (outcome : Outcome) → IsReached end → Step modes end event outcome
        → outcome.effects ≢ [] → IsMade modes end outcome.effects }
{}

/// A leaf has one answer: `Yes` and `No` exclude each other, a leaf isn't wrong first at two places, and its start is one.
pub fn a_leaf_has_one_answer()
    ensures excluded { (modes : List Mode) (leaf : List ℕ) (start index : ℕ) (events : List Event)
        → IsAuditOf modes leaf (Audit.Yes start events) → IsAuditOf modes leaf (Audit.No index) → ⊥ }
    ensures place { (modes : List Mode) (leaf : List ℕ) (a b : ℕ) → IsAuditOf modes leaf (Audit.No a) → IsAuditOf modes leaf (Audit.No b) → a ≡ b }
    ensures start { (modes : List Mode) (leaf : List ℕ) (a b : ℕ) (events others : List Event)
        → IsAuditOf modes leaf (Audit.Yes a events) → IsAuditOf modes leaf (Audit.Yes b others) → a ≡ b }
{
    // Laws: no bytes are the body of two lists of effects.
    one_body();
}

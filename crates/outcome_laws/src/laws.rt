//! Laws of one step: each is the contract of a function that does nothing.
ghost use Rattle.std.specs.Prelude.{◌≡◌, List};
ghost use Rattle.mode_values.specs.declared.mode.Mode.{Mode};
ghost use Rattle.exchange_model.specs.Alone.{MayHappenTo, end_after};
ghost use Rattle.exchange_model.specs.End.{End, empty_end};
ghost use Rattle.exchange_model.specs.Typed.{IsTyped};
ghost use Rattle.exchange_model.specs.Table.{Step};
ghost use Rattle.exchange_model.specs.World.{Happening};
ghost use Rattle.exchange_model.specs.declared.event.Event.{Event};
ghost use Rattle.exchange_model.specs.declared.outcome.Outcome.{Outcome};

/// An event has at most one outcome: two steps of one endpoint at the same event are equal.
pub fn an_event_has_one_outcome()
    ensures { (modes : List Mode) (end : End) (event : Event) (a b : Outcome)
        → Step modes end event a → Step modes end event b → a ≡ b }
{}

/// An event has an outcome: whatever has happened to an endpoint, and whatever its modes are, there is a step for each
/// event that the types of this crate can hold.
pub fn an_event_has_an_outcome()
    ensures { (all : List Happening) (modes : List Mode) (event : Event) → MayHappenTo all empty_end → IsTyped event
        → (outcome : Outcome) × Step modes (end_after all empty_end) event outcome }
{}

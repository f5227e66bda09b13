//! Laws of steps together with compaction. Each law is the contract of a function that does nothing.
ghost use Rattle.std.specs.Prelude.{◌≡◌, ℕ, List, None};
ghost use Rattle.mode_values.specs.declared.mode.Mode.{Mode};
ghost use Rattle.exchange_model.specs.Alone.{MayHappenTo, end_after};
ghost use Rattle.exchange_model.specs.Apply.{first_unfit};
ghost use Rattle.exchange_model.specs.End.{End, empty_end};
ghost use Rattle.exchange_model.specs.Fold.{IsFoldedSize};
ghost use Rattle.exchange_model.specs.Table.{Step};
ghost use Rattle.exchange_model.specs.World.{Happening};
ghost use Rattle.exchange_model.specs.declared.event.Event.{Event};
ghost use Rattle.exchange_model.specs.declared.outcome.Outcome.{Outcome};
ghost use Rattle.fold_laws.specs.Reached.{IsReached};

/// At a reached endpoint (one that fitting effects lead to), the effects of a step fit, one after another.
pub fn what_a_step_gives_fits()
    ensures { (modes : List Mode) (end : End) (event : Event) (outcome : Outcome)
        → IsReached end → Step modes end event outcome → first_unfit outcome.effects end ≡ None }
{}

/// So whatever happens to an endpoint, events and compactions, it stays a reached one.
pub fn what_happens_leads_to_reached_ends()
    ensures { (all : List Happening) → MayHappenTo all empty_end → IsReached (end_after all empty_end) }
{}

/// And at any moment its journal may be compacted next.
pub fn an_end_can_be_folded_at_any_moment()
    ensures { (all : List Happening) → MayHappenTo all empty_end → (size : ℕ) × IsFoldedSize (end_after all empty_end) size }
{}

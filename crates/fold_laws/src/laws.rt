//! Laws of compaction. Each law is the contract of a function that does nothing.
ghost use Rattle.std.specs.Prelude.{◌≡◌, ℕ, List, None, false};
ghost use Rattle.std.specs.List.{Contains};
ghost use Rattle.as4_effects.specs.declared.effect.Effect.{Effect};
ghost use Rattle.exchange_model.specs.Apply.{applied, first_unfit};
ghost use Rattle.exchange_model.specs.End.{End, empty_end};
ghost use Rattle.exchange_model.specs.Fold.{IsFolded, folded_size, resized};
ghost use Rattle.exchange_model.specs.Questions.{is_spent};
ghost use Rattle.exchange_model.specs.declared.sent.Sent.{Sent};
ghost use Rattle.fold_laws.specs.Reached.{AreReplayed, IsReached};
ghost use Rattle.fold_laws.specs.Written.{CanBeWritten};

/// At an endpoint that fitting effects lead to, no pending submission is past its last try and overdue.
pub fn no_reached_one_is_spent()
    ensures { (end : End) → IsReached end → (s : Sent) → Contains end.sent s → is_spent end.moment s ≡ false }
{}

/// An endpoint that fitting effects lead to has a compaction.
pub fn a_reached_end_has_a_fold()
    ensures { (end : End) → IsReached end → (effects : List Effect) × IsFolded end effects }
{}

/// Replaying a compaction from the empty endpoint gives the endpoint again. Each effect has a record of its own, and
/// each fits. Only the journal's size differs: it is the size of these records.
pub fn a_fold_gives_the_end_back()
    ensures { (end : End) (effects : List Effect) → IsReached end → IsFolded end effects
        → AreReplayed effects empty_end (resized (folded_size effects) end) }
{}

/// An endpoint has at most one compaction.
pub fn an_end_has_one_fold()
    ensures { (end : End) (a b : List Effect) → IsFolded end a → IsFolded end b → a ≡ b }
{}

/// The empty endpoint is reached. Effects that fit lead from a reached endpoint to a reached one, and changing the
/// journal's size keeps it reached.
pub fn what_fits_goes_on()
    ensures starts { IsReached empty_end }
    ensures fits { (end : End) (effects : List Effect) → IsReached end → first_unfit effects end ≡ None → IsReached (applied effects end) }
    ensures folds { (end : End) (size : ℕ) → IsReached end → IsReached (resized size end) }
{}

/// The effects of a reached endpoint's compaction can be made: its state is within the bounds of their types.
pub fn a_reached_end_can_be_written()
    ensures { (end : End) → IsReached end → CanBeWritten end }
{}

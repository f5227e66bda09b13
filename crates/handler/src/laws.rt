//! What follows of a store that a handler leaves.
ghost use Rattle.std.specs.Prelude.{ℕ, List, Option};
ghost use Rattle.as4_disk.specs.Image.{Image};
ghost use Rattle.exchange_model.specs.End.{End};
ghost use Rattle.handler.specs.Stores.{AreModesOf, BecomesBy};
ghost use Rattle.msh_recovery.specs.Opens.{OpensAs};

/// A store that was whole is whole, however a handler ends: its records lead to an endpoint, and a record that is pending
/// after them leads on.
pub fn a_whole_store_is_left_whole()
    ensures { (file : Option (Option (List ℕ))) (before after : Image) (start : End) → OpensAs before start
        → BecomesBy (AreModesOf file) before after → (end : End) × OpensAs after end }
{}

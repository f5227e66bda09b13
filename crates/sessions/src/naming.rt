//! Names for openings of an office.
ghost use Rattle.std.specs.Prelude.{Bool, false, List, []};
ghost use Rattle.exchange_model.specs.End.{End, empty_end};
ghost use Rattle.mode_values.specs.declared.mode.Mode.{Mode};
ghost use Rattle.pass_book.specs.States.{Book, no_book};

use std::marker::Brand;

/// What an office was opened on. Nothing is known of a value under a lock but what its type says, so the type of a shared
/// office carries this.
pub trait Opening {
    /// The history.
    ghost book: { Book };

    /// The P-Modes.
    ghost modes: { List Mode };

    /// The endpoint when the office was opened.
    ghost start: { End };

    /// Whether the content of the disk is observable.
    ghost observable: { Bool };
}

impl Opening for Brand {
    ghost book = { no_book };

    ghost modes = { [] };

    ghost start = { empty_end };

    ghost observable = { false };
}

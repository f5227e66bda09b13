//! Faults of one mode's table.

ghost use Rattle.std.specs.Prelude.{◌≡◌};

use crate::refusal::Key;
use as4_values::NoMemory;

/// Why a table isn't a mode.
#[derive(Clone, Copy, Debug, PartialEq, Eq)]
pub enum Fault {
    Missing(Key),
    /// The value is of another type, or out of range.
    Range(Key),
    NoMemory,
}

impl From<NoMemory> for Fault {
    ghost use Rattle.pmodes.specs.declared.fault.Fault.TheVariants as faults;

    ghost from_gives = { λ _ fault. fault ≡ faults.NoMemory };

    fn from(_error: NoMemory) -> Fault {
        Fault::NoMemory
    }
}

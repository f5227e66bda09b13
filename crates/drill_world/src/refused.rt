//! Why a line isn't played.
ghost use Rattle.std.specs.Prelude.{◌≡◌};

use as4_values::NoMemory;

/// Why a line isn't played.
#[derive(Clone, Copy, Debug, PartialEq, Eq)]
pub enum Refused {
    /// It isn't in its place.
    Wrong,
    /// It would make one event too many.
    TooMany,
    NoMemory,
}

impl From<NoMemory> for Refused {
    ghost use Rattle.drill_world.specs.declared.refused.Refused.TheVariants as refused;

    ghost from_gives = { λ _ e. e ≡ refused.NoMemory };

    fn from(_error: NoMemory) -> Refused {
        Refused::NoMemory
    }
}

//! Refusals of a body.

ghost use Rattle.std.specs.Prelude.{◌≡◌};
ghost use Rattle.event_code.specs.declared.refusal.BodyRefusal.TheVariants.{NoMemory as OutOfMemory};

use as4_values::NoMemory;
use std::alloc::AllocFailed;

/// Why bytes aren't read as effects.
#[derive(Clone, Copy, Debug, PartialEq, Eq)]
pub enum BodyRefusal {
    /// They aren't the body of any list of 1 to 1,024 effects.
    NotBody,
    /// Memory ran out.
    NoMemory,
}

impl From<NoMemory> for BodyRefusal {
    ghost from_gives = { λ _ refusal. refusal ≡ OutOfMemory };

    fn from(_error: NoMemory) -> BodyRefusal {
        BodyRefusal::NoMemory
    }
}

impl<T: Drop> From<AllocFailed<T>> for BodyRefusal {
    ghost from_gives = { λ _ refusal. refusal ≡ OutOfMemory };

    fn from(_error: AllocFailed<T>) -> BodyRefusal {
        BodyRefusal::NoMemory
    }
}

//! Why bytes aren't read as a document.

ghost use Rattle.std.specs.Prelude.{◌≡◌};
ghost use Rattle.tree_reader.specs.declared.stop.Stop.TheVariants.{Memory};

use as4_values::NoMemory;
use std::alloc::{AllocError, AllocFailed};

/// Why bytes aren't read as a document. Places count from 0, the byte order mark included.
#[derive(Clone, Copy, Debug, PartialEq, Eq)]
pub enum TreeRefusal {
    /// There are more bytes than `MAX_BYTES`.
    TooLong,
    /// The item at this place is misspelled or isn't allowed there. Or the bytes end there, with an element open or
    /// before the root.
    Markup { at: usize },
    /// The start tag at this place is right, except that it is deeper than `MAX_DEPTH`.
    TooDeep { at: usize },
    NoMemory,
}

/// Why reading stops at an item.
#[derive(Clone, Copy, Debug, PartialEq, Eq)]
pub(crate) enum Stop {
    Memory,
    Markup,
    TooDeep,
}

impl From<AllocError> for Stop {
    ghost from_gives = { λ _ e. e ≡ Memory };

    fn from(_error: AllocError) -> Stop {
        Stop::Memory
    }
}

impl<T: Drop> From<AllocFailed<T>> for Stop {
    ghost from_gives = { λ _ e. e ≡ Memory };

    fn from(_error: AllocFailed<T>) -> Stop {
        Stop::Memory
    }
}

impl From<NoMemory> for Stop {
    ghost from_gives = { λ _ e. e ≡ Memory };

    fn from(_error: NoMemory) -> Stop {
        Stop::Memory
    }
}

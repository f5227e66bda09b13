//! Why a tree isn't read as a message unit.
ghost use Rattle.std.specs.Prelude.{◌≡◌};
ghost use Rattle.std.specs.Result.{result_map_both};
ghost use Rattle.header_reader.specs.declared.refusal.HeaderRefusal.TheVariants.{NoMemory};

use std::alloc::{AllocError, AllocFailed};

/// Why a tree isn't read as a message unit.
#[derive(Clone, Copy, Debug, PartialEq, Eq)]
pub enum HeaderRefusal {
    /// The tree is no envelope of one message unit, or the unit isn't spelled as ebMS 3.0 Core says (sections 5.2 and 6).
    Invalid,
    /// The envelope needs something unsupported: another header block that must be understood (SOAP 1.2 Part 1, section
    /// 5.2.3), or message units that aren't read together.
    Unsupported,
    /// Memory ran out.
    NoMemory,
}

/// A value, paired with the one that is read after it.
pub(crate) fn with<A: Drop, B>(
    first: A,
    second: Result<B, HeaderRefusal>,
) -> Result<(A, B), HeaderRefusal>
    ensures { result ≡ result_map_both (λ value. (first, value)) (λ refusal. refusal) second }
{
    match second {
        Ok(second) => Ok((first, second)),
        Err(refusal) => {
            drop(first);
            Err(refusal)
        }
    }
}

impl From<AllocError> for HeaderRefusal {
    ghost from_gives = { λ _ e. e ≡ NoMemory };

    fn from(_error: AllocError) -> HeaderRefusal {
        HeaderRefusal::NoMemory
    }
}

impl<T: Drop> From<AllocFailed<T>> for HeaderRefusal {
    ghost from_gives = { λ _ e. e ≡ NoMemory };

    fn from(_error: AllocFailed<T>) -> HeaderRefusal {
        HeaderRefusal::NoMemory
    }
}

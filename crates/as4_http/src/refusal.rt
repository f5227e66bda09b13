//! Why no message was read.
use std::alloc::AllocError;

/// Why no message was read.
#[derive(Clone, Copy, Debug, PartialEq, Eq)]
pub enum HttpRefusal {
    /// The source has ended inside a head, or where more bytes make what came a message within the limits.
    Cut,
    /// However the bytes that were read go on, they are no message, whatever the limits.
    Bad,
    /// The bytes that were read pass a limit. However they go on, they are no message within the limits.
    TooLong,
    /// The source failed.
    ReadFault,
    /// There was no memory.
    NoMemory,
}

impl From<AllocError> for HttpRefusal {
    ghost use Rattle.std.specs.Prelude.{◌≡◌};
    ghost use Rattle.as4_http.specs.declared.refusal.HttpRefusal.TheVariants.{NoMemory};

    ghost from_gives = { λ _ refusal. refusal ≡ NoMemory };

    fn from(_: AllocError) -> Self {
        HttpRefusal::NoMemory
    }
}

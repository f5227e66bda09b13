//! How sessions end, as words.

use as4_values::Octets;
use sessions::Ended;

/// How a session ended. `Refused` has the number of its code.
#[derive(Clone, Copy, Debug, PartialEq, Eq)]
pub(crate) enum EndKind {
    Answered,
    Cut,
    Bad,
    TooLong,
    Refused(u16),
    ReadFault,
    WriteFault,
    DiskFault(u64, u64),
    Stopped(u64, u64),
    Full,
    Worn,
    NoMemory,
}

pub(crate) fn kind_of(ended: Ended) -> EndKind {
    match ended {
        Ended::Answered => EndKind::Answered,
        Ended::Cut => EndKind::Cut,
        Ended::Bad => EndKind::Bad,
        Ended::TooLong => EndKind::TooLong,
        Ended::Refused(refusal) => {
            let code = refusal.code;
            drop(refusal);
            EndKind::Refused(code)
        }
        Ended::ReadFault => EndKind::ReadFault,
        Ended::WriteFault => EndKind::WriteFault,
        Ended::DiskFault { before, after } => EndKind::DiskFault(before, after),
        Ended::Stopped { before, after } => EndKind::Stopped(before, after),
        Ended::Full { .. } => EndKind::Full,
        Ended::Worn => EndKind::Worn,
        Ended::NoMemory => EndKind::NoMemory,
    }
}

/// How a session ended, the bytes that were written, and how many bytes the source has left.
#[derive(Drop)]
pub(crate) struct Served {
    pub(crate) ended: EndKind,
    pub(crate) written: Octets,
    pub(crate) left: usize,
}

impl Served {
    pub(crate) fn is(&self, ended: EndKind, written: &[u8]) -> bool {
        self.ended == ended && self.written.bytes() == written
    }
}

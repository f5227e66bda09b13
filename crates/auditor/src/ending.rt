//! How an audit of a journal ends.
ghost use Rattle.std.specs.Prelude.{◌≡◌};
ghost use Rattle.auditor.specs.Ends.{end_found, end_refused, end_unread};

use as4_audit::{AuditRefusal, Finding};
use handler::HandlerEnd;

/// How an audit of a journal ends.
#[derive(Clone, Copy, Debug, PartialEq, Eq)]
pub enum AuditEnd {
    /// Every record is one that the machine writes.
    Yes,
    /// A record isn't; the output names it.
    No,
    /// Memory ran out. Nothing was written.
    NoMemory,
    /// The output failed, and has only a prefix of the lines.
    WriteFault,
    /// The modes file is missing, is longer than 1,048,576 bytes, or isn't one.
    ModesRefused,
    /// The host failed.
    HostFault,
    /// The leaf is no journal from this byte on.
    NotJournal { at: u64 },
    /// The selector or the leaf is longer than 1,073,741,824 bytes.
    TooLong,
}

/// The end without modes. The other ends of a handler don't come from reading them.
pub(crate) fn unread(end: HandlerEnd) -> AuditEnd
    ensures { result ≡ end_unread end }
{
    match end {
        HandlerEnd::NoMemory => AuditEnd::NoMemory,
        HandlerEnd::ModesRefused => AuditEnd::ModesRefused,
        _ => AuditEnd::HostFault,
    }
}

/// The end of a leaf that wasn't audited.
pub(crate) fn refused(refusal: AuditRefusal) -> AuditEnd
    ensures { result ≡ end_refused refusal }
{
    match refusal {
        AuditRefusal::NotJournal { at } => AuditEnd::NotJournal { at },
        AuditRefusal::NoMemory => AuditEnd::NoMemory,
    }
}

/// The end of an audit whose lines were written.
pub(crate) fn found(finding: Finding) -> AuditEnd
    ensures { result ≡ end_found finding }
{
    match finding {
        Finding::Yes { .. } => AuditEnd::Yes,
        Finding::No { .. } => AuditEnd::No,
    }
}

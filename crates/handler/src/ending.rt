//! How a handler ends.
ghost use Rattle.std.specs.Prelude.{◌≡◌};
ghost use Rattle.handler.specs.Endings.{IsJudged, end_by, end_unopened, if_failed};

use as4_host::HostRefusal;
use journal::JournalFault;

/// How a handler ended.
#[derive(Clone, Copy, Debug, PartialEq, Eq)]
pub enum HandlerEnd {
    /// Each worker made its turns, or found its door closed. Memory sufficed for each turn, and the host counted no
    /// fault.
    Served,
    /// Memory ran out, before the workers began or in a turn of one of them. The host may have counted a fault, too.
    NoMemory,
    /// The host counted a fault: of a file, of the disk, of a door or of a link. The workers may have made all their
    /// turns.
    HostFault,
    /// The modes file is missing, has more than 1,048,576 bytes, or isn't one.
    ModesRefused,
    /// The store isn't a journal: at this place is no record of an endpoint.
    NotJournal { at: u64 },
}

/// How a handler ends if the host refuses a call.
pub(crate) fn refused(refusal: HostRefusal) -> HandlerEnd
    ensures { result ≡ end_by refusal }
{
    match refusal {
        HostRefusal::HostFailed => HandlerEnd::HostFault,
        HostRefusal::NoMemory => HandlerEnd::NoMemory,
    }
}

/// How a handler ends if its journal isn't opened.
pub(crate) fn unopened(fault: JournalFault) -> HandlerEnd
    ensures { result ≡ end_unopened fault }
{
    match fault {
        JournalFault::NotJournal { at } => HandlerEnd::NotJournal { at },
        JournalFault::NoMemory => HandlerEnd::NoMemory,
        _ => HandlerEnd::HostFault,
    }
}

/// How a handler ends, by the host's count of faults before and after. A count at the last value of a `u64` may hide a
/// fault, so it counts as risen.
pub(crate) fn judged(end: HandlerEnd, before: u64, after: u64) -> HandlerEnd
    ensures { IsJudged end before after result }
{
    if after < before.saturating_add(1) {
        end
    } else {
        if_failed(end)
    }
}

// How a handler ends if the host counted a fault meanwhile. `NoMemory` stays.
fn if_failed(end: HandlerEnd) -> HandlerEnd
    ensures { result ≡ if_failed end }
{
    match end {
        HandlerEnd::NoMemory => HandlerEnd::NoMemory,
        _ => HandlerEnd::HostFault,
    }
}

//! How the relaying of a journal's messages ends.
ghost use Rattle.std.specs.Prelude.{◌≡◌};
ghost use Rattle.relayer.specs.Ends.{IsJudged, end_by, end_of, end_unopened, end_unread, if_failed};

use as4_host::HostRefusal;
use as4_hub::RelayEnd;
use handler::HandlerEnd;
use journal::JournalFault;

/// Why the next message isn't relayed.
#[derive(Clone, Copy, Debug, PartialEq, Eq)]
pub enum RelayRefusal {
    /// There is no processing mode of this name.
    NoMode,
    /// The message was confirmed before it was relayed. It and all later ones are never relayed.
    Gone,
    /// There is no number left for a submission.
    OutboxFull,
    /// The message is too large to be submitted. It and all later ones are never relayed.
    TooLarge,
    /// The journal has no room for the submission.
    JournalFull,
}

/// How the relaying of a journal's messages ends. With each end the output has a line for each message that was relayed
/// before.
#[derive(Clone, Copy, Debug, PartialEq, Eq)]
pub enum RelayerEnd {
    /// Each received message was relayed, or as many as were asked for.
    Done,
    /// The next message isn't relayed.
    Refused(RelayRefusal),
    /// Memory ran out.
    NoMemory,
    /// The output failed, and has only a prefix of the lines. The messages are relayed.
    WriteFault,
    /// The modes file is missing, is longer than 1,048,576 bytes, or isn't one.
    ModesRefused,
    /// The host failed, or another process has the journal.
    HostFault,
    /// The leaf is no journal from this byte on.
    NotJournal { at: u64 },
}

/// The end without modes. The other ends of a handler don't come from reading them.
pub(crate) fn unread(end: HandlerEnd) -> RelayerEnd
    ensures { result ≡ end_unread end }
{
    match end {
        HandlerEnd::NoMemory => RelayerEnd::NoMemory,
        HandlerEnd::ModesRefused => RelayerEnd::ModesRefused,
        _ => RelayerEnd::HostFault,
    }
}

/// The end by a call that the host refused.
pub(crate) fn refused(refusal: HostRefusal) -> RelayerEnd
    ensures { result ≡ end_by refusal }
{
    match refusal {
        HostRefusal::HostFailed => RelayerEnd::HostFault,
        HostRefusal::NoMemory => RelayerEnd::NoMemory,
    }
}

/// The end by a journal that wasn't opened.
pub(crate) fn unopened(fault: JournalFault) -> RelayerEnd
    ensures { result ≡ end_unopened fault }
{
    match fault {
        JournalFault::NotJournal { at } => RelayerEnd::NotJournal { at },
        JournalFault::NoMemory => RelayerEnd::NoMemory,
        JournalFault::Disk { .. } | JournalFault::Full { .. } => RelayerEnd::HostFault,
    }
}

/// The end by a relaying that relayed nothing. A history that was just opened has room for all of its calls.
pub(crate) fn end_of(end: RelayEnd) -> RelayerEnd
    ensures { result ≡ end_of end }
{
    match end {
        RelayEnd::Relayed { id, .. } => {
            drop(id);
            RelayerEnd::Done
        }
        RelayEnd::Nothing => RelayerEnd::Done,
        RelayEnd::Gone => RelayerEnd::Refused(RelayRefusal::Gone),
        RelayEnd::NoMode => RelayerEnd::Refused(RelayRefusal::NoMode),
        RelayEnd::OutboxFull => RelayerEnd::Refused(RelayRefusal::OutboxFull),
        RelayEnd::TooLarge => RelayerEnd::Refused(RelayRefusal::TooLarge),
        RelayEnd::Full { .. } => RelayerEnd::Refused(RelayRefusal::JournalFull),
        RelayEnd::DiskFault { .. } | RelayEnd::Stopped { .. } => RelayerEnd::HostFault,
        RelayEnd::Worn | RelayEnd::NoMemory => RelayerEnd::NoMemory,
    }
}

/// How the relaying ends, by the host's count of faults before and after. A count at the last value of a `u64` may hide a
/// fault, so it counts as risen.
pub(crate) fn judged(end: RelayerEnd, before: u64, after: u64) -> RelayerEnd
    ensures { IsJudged end before after result }
{
    if after < before.saturating_add(1) {
        end
    } else {
        if_failed(end)
    }
}

// How the relaying ends if the host counted a fault meanwhile. `NoMemory` and `WriteFault` stay.
fn if_failed(end: RelayerEnd) -> RelayerEnd
    ensures { result ≡ if_failed end }
{
    match end {
        RelayerEnd::NoMemory | RelayerEnd::WriteFault => end,
        _ => RelayerEnd::HostFault,
    }
}

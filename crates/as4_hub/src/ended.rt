//! How the relaying of one message ends.
ghost use Rattle.as4_hub.specs.Relaying.{TellsFault, TellsReply};
ghost use Rattle.hub_laws.specs.Replies.{IsSecond};

use as4_values::MessageId;
use exchange_model::Reply;
use office::OfficeFault;

/// The answer to a relaying. Unless it is `Relayed`, the state of the endpoint is as before; after a `DiskFault`, the store
/// opens to the state before or to the state after.
#[derive(Drop)]
pub enum RelayEnd {
    /// The message was submitted, with this number and identifier.
    Relayed { number: u64, id: MessageId },
    /// Each received message was relayed.
    Nothing,
    /// The next message was confirmed before it was relayed. It and all later ones are never relayed.
    Gone,
    /// There is no processing mode of this name.
    NoMode,
    /// There is no number left for a submission.
    OutboxFull,
    /// The next message is too large to be submitted. It and all later ones are never relayed.
    TooLarge,
    /// The journal has `size` bytes, and no room for `need` more.
    Full { size: u64, need: u64 },
    /// A device call failed: the disk's counts of faults before and after the step that met it. Open the store again.
    DiskFault { before: u64, after: u64 },
    /// The disk failed in an earlier call, with these counts. Open the store again.
    Stopped { before: u64, after: u64 },
    /// The history has 2^63 entries.
    Worn,
    /// Out of memory. Nothing was submitted.
    NoMemory,
}

/// The answer where the office replied to the submission.
pub(crate) fn end_of_reply(reply: Reply) -> RelayEnd
    requires second { IsSecond reply }
    ensures { TellsReply reply result }
{
    match reply {
        Reply::Submitted { number, id } => RelayEnd::Relayed { number, id },
        Reply::NoMode => RelayEnd::NoMode,
        Reply::OutboxFull => RelayEnd::OutboxFull,
        Reply::TooLarge => RelayEnd::TooLarge,
        Reply::Full { size, need } => RelayEnd::Full { size, need },
        _ => unreachable!(),
    }
}

/// The answer where the office reported a fault.
pub(crate) fn end_of_fault(fault: OfficeFault) -> RelayEnd
    ensures { TellsFault fault result }
{
    match fault {
        OfficeFault::Disk { before, after } => RelayEnd::DiskFault { before, after },
        OfficeFault::Stopped { before, after } => RelayEnd::Stopped { before, after },
        OfficeFault::Worn => RelayEnd::Worn,
        OfficeFault::NoMemory => RelayEnd::NoMemory,
    }
}

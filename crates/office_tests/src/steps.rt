//! What happens to an office, and what it says.
use as4_values::Severity;
use office::OfficeFault;

/// One of the two messages that have a payload.
#[derive(Clone, Copy, PartialEq, Eq)]
pub(crate) enum Parcel {
    Short,
    Long,
}

/// What is done with an office and a pass.
#[derive(Clone, Copy)]
pub(crate) enum Step {
    Tick(u64),
    /// The one message comes.
    Came,
    /// The same, prepared first and then made.
    CameInTwo,
    /// A pull request for this channel comes.
    Pulled(&'static [u8]),
    /// This message comes.
    Brings(Parcel),
    /// A load of this length is submitted by the mode of the one message.
    Submits(usize),
    Read(u64),
    /// The same, of one of the two messages that have a payload.
    Unpack(u64),
    Confirm(u64),
    Checkpoint,
    /// The disk stops at this device call from now on.
    Stop(u64),
    /// The pass is shown all calls.
    Show,
    /// How many messages the inbox has.
    Inbox,
    /// How many calls the pass has seen.
    Seen,
    /// How many calls were made with the pass.
    Share,
}

/// What was said, without its texts.
#[derive(Clone, Copy, PartialEq, Eq)]
pub(crate) enum Said {
    Ticked(u64),
    Submitted(u64),
    TooLarge,
    Receipt,
    /// A signal of one error.
    Error(Severity),
    Entry,
    /// The header and the payloads of this message, byte for byte.
    Holds(Parcel),
    NoEntry,
    Gone,
    /// The messages up to this one are taken over.
    Confirmed(u64),
    /// So many bytes in the journal, messages or calls.
    Count(u64),
    Fault(OfficeFault),
    /// It was done, and says nothing.
    Done,
    Other,
}

/// Steps, each with what is said to it.
pub(crate) type Steps = &'static [(Step, Said)];

/// The disk failed once, in this call.
pub(crate) const FAILED: Said = Said::Fault(OfficeFault::Disk {
    before: 0,
    after: 1,
});

/// The disk failed once, in an earlier call.
pub(crate) const STOPPED: Said = Said::Fault(OfficeFault::Stopped {
    before: 0,
    after: 1,
});

/// The clock stands at 1,000: a tick to it makes no device call, and one to the next moment does.
pub(crate) const AT_1000: Steps = &[
    (Step::Stop(0), Said::Done),
    (Step::Tick(1000), Said::Ticked(0)),
    (Step::Tick(1001), FAILED),
];

/// The same at 2,000.
pub(crate) const AT_2000: Steps = &[
    (Step::Stop(0), Said::Done),
    (Step::Tick(2000), Said::Ticked(0)),
    (Step::Tick(2001), FAILED),
];

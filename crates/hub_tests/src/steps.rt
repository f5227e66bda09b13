//! What happens to a hub, and what it says.

/// What is done with a hub.
#[derive(Clone, Copy)]
pub(crate) enum Step {
    /// The message of this identifier is received.
    Came(&'static [u8]),
    /// The messages up to and including this one are confirmed.
    Confirm(u64),
    /// The next message is relayed by the mode of this name.
    Relay(&'static [u8]),
    /// The next message to push is asked for.
    Take,
    /// The number of submissions.
    Submissions,
}

/// What was said, without its texts.
#[derive(Clone, Copy, PartialEq, Eq)]
pub(crate) enum Said {
    Receipt,
    Confirmed(u64),
    /// The message was relayed with this number.
    Relayed(u64),
    Nothing,
    Gone,
    NoMode,
    /// The disk failed in this call, for the first time.
    DiskFault,
    /// The disk failed in an earlier call, once.
    Stopped,
    /// A user message with the one payload is pushed.
    Pushed,
    Count(u64),
    Other,
}

/// Steps, each with what is said to it.
pub(crate) type Steps = &'static [(Step, Said)];

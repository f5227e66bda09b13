//! Steps at an endpoint, and their replies.

/// A reply without its texts.
#[derive(Clone, Copy, PartialEq, Eq)]
pub enum Said {
    Submitted(u64),
    Ticked(u64),
    Push,
    Nothing,
    /// A pull request is sent.
    Request,
    /// A pull request is sent, bundled with the receipt for the message whose identifier begins with this digit.
    RequestWith(u8),
    /// A user message, whose identifier begins with this digit.
    User(u8),
    Receipt,
    /// An error signal with this code.
    Error(u16),
    Quiet,
    /// The size of the first payload.
    Entry(usize),
    NoEntry,
    Pending(u32),
    Receipted,
    Failed,
    Refused,
    Unknown,
    Gone,
    /// The messages up to this one are confirmed.
    Confirmed(u64),
    NoMode,
    TooLarge,
    /// The journal has no room for this many bytes.
    Full(u64),
    /// The number of messages in the inbox, of receipted submissions, or of bytes in the journal.
    Count(u64),
    Other,
}

/// A step at an endpoint.
#[derive(Clone, Copy)]
pub enum Step {
    /// Submits the bytes `hello` by this mode.
    Submit(&'static str),
    /// Submits one byte more than a message can hold by this mode.
    SubmitTooMuch(&'static str),
    Tick(u64),
    /// The same, without memory.
    TickLightly(u64),
    Take,
    /// Requests a pull by this mode.
    Ask(&'static str),
    /// The same, bundled with the receipt for the message of this number in the inbox.
    AskWith(&'static str, u64),
    /// Receives the last message of the other endpoint.
    Hear,
    /// The same with another action, for which there is no mode.
    HearOfAnotherAction,
    /// Receives the last request of the other endpoint.
    HearRequest,
    /// Receives messages until twenty bytes are left in the journal, and confirms all except the last.
    Fill,
    /// Receives a pull request for this channel.
    Pull(&'static str),
    /// Receives a receipt for the last message that it sent.
    Receipt,
    /// The same, without a copy of the header.
    BareReceipt,
    /// The same, with a copy that has another action.
    OtherReceipt,
    /// Receives a receipt for the message with this identifier.
    ReceiptOf(&'static str),
    /// Receives the error 0006, a warning, about the last message that it sent.
    Warning,
    /// Receives the error 0301, a failure, about it.
    Failure,
    /// Reads the message of this number in the inbox.
    Read(u64),
    /// The same, without the payloads.
    ReadBare(u64),
    Confirm(u64),
    /// The same, without memory.
    ConfirmLightly(u64),
    /// The status of the last message that it sent.
    Status,
    /// The status of the message with this identifier.
    StatusOf(&'static str),
    /// The number of messages in the inbox.
    Inbox,
    /// The number of receipted submissions.
    Receipts,
    /// The size of the journal in bytes.
    Size,
}

/// One of two endpoints.
#[derive(Clone, Copy)]
pub enum End {
    A,
    B,
}

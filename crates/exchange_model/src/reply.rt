//! Replies to events.

use as4_values::{Code, Message, MessageId, Payload, Seq, Text, UserHeader};

/// The reply of an endpoint to an event.
#[derive(Drop)]
pub enum Reply {
    /// The message is submitted, with this number and identifier.
    Submitted {
        number: u64,
        id: MessageId,
    },
    /// There is no processing mode of this name that serves the event.
    NoMode,
    /// There is no number left for a submission.
    OutboxFull,
    /// The submission is too large, or has too many payloads or an invalid media text.
    TooLarge,
    /// The clock is at the event's stamp or later. `failed` submissions expired.
    Ticked {
        failed: u64,
    },
    /// Send this message to this address.
    Push {
        address: Text,
        message: Message,
    },
    /// There is nothing to push.
    Nothing,
    /// Send this pull request to this address.
    Request {
        address: Text,
        message: Message,
    },
    /// Send this message back to the sender of the event's message.
    Answer(Message),
    /// The received message gets no answer.
    Quiet,
    /// The message in the inbox.
    Entry {
        header: UserHeader,
        payloads: Seq<Payload>,
    },
    /// The inbox has no message of this number.
    NoEntry,
    /// The message of this number was confirmed.
    Gone,
    /// The messages up to and including this one are confirmed.
    Confirmed {
        upto: u64,
    },
    /// The submission has no receipt yet; it was sent `tries` times.
    Pending {
        tries: u32,
    },
    /// The receipt for the submission was received.
    Receipted,
    /// The submission expired: no receipt was received (`EBMS:0301`).
    Failed,
    /// The other endpoint refused the submission with this error.
    RefusedWith {
        code: Code,
    },
    /// No submission has this identifier.
    Unknown,
    /// The journal has `size` bytes, and no room for `need` more: nothing changed.
    Full {
        size: u64,
        need: u64,
    },
    /// A disk fault stopped this endpoint: its count of faults rose from `before` to `after`.
    Stopped {
        before: u64,
        after: u64,
    },
}

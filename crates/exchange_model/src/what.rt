//! The kinds of events.

use as4_values::{Load, Message, MessageId, Seq, Text};

/// What happens at an endpoint.
#[derive(Drop)]
pub enum What {
    /// The producer submits a message, by the processing mode of this name.
    Submit {
        mode: Text,
        conversation: Option<Text>,
        loads: Seq<Load>,
    },
    /// The clock is set to the event's stamp.
    Tick,
    /// Asks for the next message to push.
    Take,
    /// Asks for a pull request for the channel of the mode of this name.
    Ask {
        mode: Text,
    },
    /// The same, bundled with the receipt of the message of this number in the inbox, from 0.
    AskWith {
        mode: Text,
        n: u64,
    },
    /// A message of the other endpoint is received.
    Came(Message),
    /// The consumer reads the message of this number in the inbox, from 0.
    Read {
        n: u64,
    },
    /// The consumer confirms the messages up to and including this one.
    Confirm {
        upto: u64,
    },
    /// The producer queries the state of a submission.
    Status {
        id: MessageId,
    },
}

//! The two doors of a server.

use as4_message::Refusal;

/// A door: the address on which requests of one kind come.
#[derive(Clone, Copy, Debug, PartialEq, Eq)]
pub enum DoorKind {
    /// Messages of the other endpoint.
    Peer,
    /// Calls of the producer and the consumer of this endpoint.
    Local,
}

/// Why a request asks for nothing.
#[derive(Drop)]
pub enum DoorRefusal {
    /// The request isn't one of this door.
    Stranger,
    /// The message is refused with an error signal.
    Refused(Refusal),
    /// Memory ran out, or a record has no room for the message.
    NoMemory,
}

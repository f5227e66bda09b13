//! How sessions end.

use as4_message::Refusal;

/// How a session ended.
#[derive(Drop)]
pub enum Ended {
    /// The endpoint replied.
    Answered,
    /// The source ended before a request was whole.
    Cut,
    /// What came is no request of this door. The response is 400.
    Bad,
    /// The request is over a limit. The response is 413.
    TooLong,
    /// The message is refused. The response carries an error signal.
    Refused(Refusal),
    /// The source failed.
    ReadFault,
    /// The sink failed. The endpoint is as if the response had been written.
    WriteFault,
    /// The disk failed in this call: its counts of faults before and after. The response is 503.
    DiskFault { before: u64, after: u64 },
    /// The disk failed in an earlier call, with these counts. The response is 503.
    Stopped { before: u64, after: u64 },
    /// The journal, of `size` bytes, has no room for the `need` bytes of the record. The response is 503.
    Full { size: u64, need: u64 },
    /// The history is full. The response is 503.
    Worn,
    /// Memory ran out, or a record has no room for the message. The response is 503.
    NoMemory,
}

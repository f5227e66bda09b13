//! What is written to the sink of a connection.
ghost use Rattle.std.specs.Prelude.{◌≡◌, ◌≤◌, ℕ, Option, List};
ghost use Rattle.as4_flow.specs.Flow.{between, flow};
ghost use Rattle.sessions.specs.Sessions.{Writes, ended_unread, text_unread};

use as4_doors::Fixed;
use as4_flow::{Sink, send_all};
use as4_http::HttpRefusal;
use sessions::Ended;

/// Writes the bytes. If the sink fails, the request ends with that.
pub(crate) fn write_out<K: Sink>(sink: &mut K, ended: Ended, bytes: &[u8]) -> Ended
    ensures writes { (left rest : Option (List ℕ)) (reads later : ℕ) → Writes ended bytes.now result
        (between (flow left (K.taken sink.old) reads (K.faults sink.old)) (flow rest (K.taken sink.new) later (K.faults sink.new))) }
    ensures counted { K.faults sink.old ≤ K.faults sink.new }
{
    match send_all(sink, bytes) {
        Ok(()) => ended,
        Err(_) => {
            drop(ended);
            Ended::WriteFault
        }
    }
}

/// How a connection ends on which no further request was read, and what it writes.
pub(crate) fn unread(refusal: HttpRefusal) -> (Ended, &'static [u8])
    ensures ended { result.0 ≡ ended_unread refusal }
    ensures written { result.1.now ≡ text_unread refusal }
{
    match refusal {
        HttpRefusal::Cut => (Ended::Cut, b""),
        HttpRefusal::Bad => (Ended::Bad, Fixed::BadRequest.bytes()),
        HttpRefusal::TooLong => (Ended::TooLong, Fixed::TooLarge.bytes()),
        HttpRefusal::ReadFault => (Ended::ReadFault, b""),
        HttpRefusal::NoMemory => (Ended::NoMemory, Fixed::Unavailable.bytes()),
    }
}

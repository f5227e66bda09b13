//! The two streams of a session: a request that is read, and a response that is written.
ghost use Rattle.std.specs.Prelude.{◌≡◌, ◌≤◌, ℕ, Option, List, [], IfErr, IfOk, is_some};
ghost use Rattle.as4_flow.specs.Flow.{between, flow};
ghost use Rattle.as4_http.specs.Asked.{AsksOnlyAsNeeded};
ghost use Rattle.as4_http.specs.Requests.{HasNoRequest};
ghost use Rattle.sessions.specs.Sessions.{ReadsNone, ReadsOne, Writes, ended_unread, text_unread};

use crate::ended::Ended;
use as4_doors::Fixed;
use as4_flow::{Sink, Source, send_all};
use as4_http::{HttpRefusal, Intake, Request};
use std::alloc::Global;

/// Reads one request; or says how the session ends without one, and what it writes.
pub(crate) fn read_one<S: Source>(
    alloc: Global,
    source: &mut S,
) -> Result<Request, (Ended, &'static [u8])>
    ensures read { IfOk result (λ request. (taken later : Option (List ℕ)) (writes later_writes : ℕ) → ReadsOne
        (between (flow (S.left source.old) taken (S.faults source.old) writes) (flow (S.left source.new) later (S.faults source.new) later_writes)) request) }
    ensures none { IfErr result (λ end. (taken later : Option (List ℕ)) (writes later_writes : ℕ) → ReadsNone
        (between (flow (S.left source.old) taken (S.faults source.old) writes) (flow (S.left source.new) later (S.faults source.new) later_writes)) end.0 end.1.now) }
    ensures asks { AsksOnlyAsNeeded HasNoRequest [] (S.left source.old) (S.left source.new) }
    ensures tells { is_some (S.left source.new) ≡ is_some (S.left source.old) }
    ensures counted { S.faults source.old ≤ S.faults source.new }
{
    match Intake::new(alloc).read_request(source) {
        Ok((request, intake)) => {
            drop(intake);
            Ok(request)
        }
        Err(refusal) => Err(unread(refusal)),
    }
}

// How a session ends without a request, and what it writes.
fn unread(refusal: HttpRefusal) -> (Ended, &'static [u8])
    ensures ended { result.0 ≡ ended_unread refusal }
    ensures written { result.1.now ≡ text_unread refusal }
{
    match refusal {
        HttpRefusal::Cut => (Ended::Cut, b""),
        HttpRefusal::Bad => (Ended::Bad, Fixed::BadRequest.bytes()),
        HttpRefusal::TooLong => (Ended::TooLong, Fixed::TooLarge.bytes()),
        HttpRefusal::ReadFault => (Ended::ReadFault, b""),
        HttpRefusal::NoMemory => (Ended::NoMemory, Fixed::Unavailable.bytes()),
    }
}

/// Writes the bytes. If the sink fails, the session ends with that.
pub(crate) fn write_out<K: Sink>(sink: &mut K, ended: Ended, bytes: &[u8]) -> Ended
    ensures writes { (left rest : Option (List ℕ)) (reads later : ℕ) → Writes ended bytes.now result
        (between (flow left (K.taken sink.old) reads (K.faults sink.old)) (flow rest (K.taken sink.new) later (K.faults sink.new))) }
    ensures counted { K.faults sink.old ≤ K.faults sink.new }
{
    match send_all(sink, bytes) {
        Ok(()) => ended,
        Err(_) => {
            drop(ended);
            Ended::WriteFault
        }
    }
}

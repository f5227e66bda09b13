//! A body in chunks (RFC 9112, section 7.1).
//!
//!     line   bytes   CRLF     for each chunk; the line says how many bytes there are
//!     line   trailers         after the last chunk; the line says 0
ghost use Rattle.std.specs.Prelude.{◌≡◌, [], ◌≤◌, OnOk, IfErr, IsErrOf};
ghost use Rattle.as4_flow.specs.Flow.{Rose, Told, before};
ghost use Rattle.as4_http.specs.Asked.{AsksOnlyAsNeeded};
ghost use Rattle.as4_http.specs.Chunks.{TakesChunk, HasNoChunk, TakesChunked, HasNoChunked, IsWholeChunk, IsWholeChunked};
ghost use Rattle.as4_http.specs.Limits.{the_limits};
ghost use Rattle.as4_http.specs.Passed.{PassesChunked, Shows};
ghost use Rattle.as4_http.specs.Refused.{Refuses, MayBecome};

use crate::HttpRefusal;
use crate::chunk_line::{take_crlf, take_line};
use crate::counted::take_bytes;
use crate::gathered::Gathered;
use crate::intake::Intake;
use crate::trailers::take_trailers;
use as4_flow::Source;

/// Takes a body in chunks off the stream, and joins its chunks.
pub(crate) fn take_chunks<S: Source>(
    intake: &mut Intake,
    source: &mut S,
    body: &mut Gathered,
) -> Result<(), HttpRefusal>
    requires { body.old ≡ [] }
    ensures ok { OnOk result (TakesChunked body.new
        (before intake.old (S.left source.old)) (before intake.new (S.left source.new))) }
    ensures asks { AsksOnlyAsNeeded (HasNoChunked the_limits) intake.old (S.left source.old) (S.left source.new) }
    ensures refused { IfErr result (Refuses HasNoChunked (MayBecome IsWholeChunked) (before intake.old (S.left source.old)) (S.left source.new)) }
    ensures passed { IsErrOf result HttpRefusal.TooLong → Shows PassesChunked (before intake.old (S.left source.old)) (S.left source.new) }
    ensures cut { IsErrOf result HttpRefusal.Cut → Told (S.left source.new) (λ bytes. bytes ≡ []) }
    ensures fault { IsErrOf result HttpRefusal.ReadFault → Rose (S.faults source.old) (S.faults source.new) }
    ensures quiet { ¬ IsErrOf result HttpRefusal.ReadFault → S.faults source.new ≡ S.faults source.old }
    ensures counted { S.faults source.old ≤ S.faults source.new }
{
    'chunks: loop {
        let size = take_line(intake, source, body.len())?;
        if size == 0 {
            return take_trailers(intake, source);
        }
        take_chunk(intake, source, body, size)?;
    }
}

// Takes the bytes of a chunk and the CRLF after them.
fn take_chunk<S: Source>(
    intake: &mut Intake,
    source: &mut S,
    body: &mut Gathered,
    size: usize,
) -> Result<(), HttpRefusal>
    ensures ok { OnOk result (TakesChunk size body.old body.new
        (before intake.old (S.left source.old)) (before intake.new (S.left source.new))) }
    ensures asks { AsksOnlyAsNeeded (HasNoChunk size) intake.old (S.left source.old) (S.left source.new) }
    ensures refused { IfErr result (Refuses (λ _. HasNoChunk size) (MayBecome (IsWholeChunk size)) (before intake.old (S.left source.old)) (S.left source.new)) }
    ensures within { ¬ IsErrOf result HttpRefusal.TooLong }
    ensures cut { IsErrOf result HttpRefusal.Cut → Told (S.left source.new) (λ bytes. bytes ≡ []) }
    ensures fault { IsErrOf result HttpRefusal.ReadFault → Rose (S.faults source.old) (S.faults source.new) }
    ensures quiet { ¬ IsErrOf result HttpRefusal.ReadFault → S.faults source.new ≡ S.faults source.old }
    ensures counted { S.faults source.old ≤ S.faults source.new }
{
    take_bytes(intake, source, body, size)?;
    take_crlf(intake, source)
}

//! The head of a response, read from a source.
ghost use Rattle.std.specs.Prelude.{◌≡◌, [], ◌≤◌, ◌<◌, length, drop, IfOk, OnErr, IfErr, IsErrOf};
ghost use Rattle.as4_flow.specs.Flow.{Rose, Told, before};
ghost use Rattle.as4_http.specs.Asked.{AsksOnlyAsNeeded};
ghost use Rattle.httparse.specs.Grammar.{ResponseHead, MayBecomeResponse};
ghost use Rattle.httparse.specs.Spans.{IsResponseAt, IsResponseWithin, IsResponseOf};
ghost use Rattle.as4_http.specs.Limits.{the_limits};
ghost use Rattle.as4_http.specs.Passed.{IsLongHead, PassesResponse, Shows};
ghost use Rattle.as4_http.specs.Refused.{Refuses, Denies};
ghost use Rattle.as4_http.specs.ResponseStarts.{SaysResponse, TakesResponseHead, BeginsResponseHead, HasNoResponseHead, EndsInResponseHead, DecidesResponseHead, IsSmallResponse};

use crate::intake::Intake;
use crate::request_head::refusal_of;
use crate::response_start::{ResponseStart, response_start};
use crate::{HttpRefusal, MAX_FIELDS, MAX_HEAD};
use as4_flow::Source;
use httparse::Status;
use httparse::spans::{EMPTY_HEADER_SPAN, HeaderSpan, ResponseSpans, parse_response};

/// Takes the head of a response off the stream.
pub(crate) fn read_response_head<S: Source>(
    intake: &mut Intake,
    source: &mut S,
) -> Result<ResponseStart, HttpRefusal>
    ensures ok { IfOk result (TakesResponseHead
        (before intake.old (S.left source.old)) (before intake.new (S.left source.new))) }
    ensures asks { AsksOnlyAsNeeded (HasNoResponseHead the_limits) intake.old (S.left source.old) (S.left source.new) }
    ensures refused { IfErr result (Refuses HasNoResponseHead EndsInResponseHead (before intake.old (S.left source.old)) (S.left source.new)) }
    ensures passed { IsErrOf result HttpRefusal.TooLong → Shows PassesResponse (before intake.old (S.left source.old)) (S.left source.new) }
    ensures bad_head { IsErrOf result HttpRefusal.Bad → Shows DecidesResponseHead (before intake.old (S.left source.old)) (S.left source.new) }
    ensures cut { IsErrOf result HttpRefusal.Cut → Told (S.left source.new) (λ bytes. bytes ≡ []) }
    ensures fault { IsErrOf result HttpRefusal.ReadFault → Rose (S.faults source.old) (S.faults source.new) }
    ensures quiet { ¬ IsErrOf result HttpRefusal.ReadFault → S.faults source.new ≡ S.faults source.old }
    ensures counted { S.faults source.old ≤ S.faults source.new }
{
    let mut headers = [EMPTY_HEADER_SPAN; MAX_FIELDS];
    'pieces: loop {
        match parse_response(intake.bytes(), &mut headers) {
            Ok(Status::Complete(spans)) => return take_head(intake, &headers, &spans),
            Ok(Status::Partial) => {}
            Err(error) => return Err(refusal_of(error)),
        }
        if intake.len() > MAX_HEAD {
            return Err(HttpRefusal::TooLong);
        }
        intake.fill(source)?;
    }
}

// Takes the head that the bytes begin with, where these are its parts.
fn take_head(
    intake: &mut Intake,
    headers: &[HeaderSpan],
    spans: &ResponseSpans,
) -> Result<ResponseStart, HttpRefusal>
    requires within { IsResponseWithin intake.old headers.now spans.now }
    requires head { IsResponseOf intake.old headers.now spans.now }
    requires fields { length headers.now ≤ MAX_FIELDS }
    ensures ok { IfOk result (BeginsResponseHead the_limits intake.old intake.new) }
    ensures denied { IfErr result (Denies HasNoResponseHead intake.old) }
    ensures passed { IsErrOf result HttpRefusal.TooLong → IsLongHead MayBecomeResponse intake.old }
    ensures cause { ¬ IsErrOf result HttpRefusal.ReadFault × ¬ IsErrOf result HttpRefusal.Cut }
{
    if spans.len > MAX_HEAD {
        return Err(HttpRefusal::TooLong);
    }
    let start = response_start(intake.alloc(), intake.bytes(), headers, spans)?;
    intake.skip(spans.len);
    Ok(start)
}

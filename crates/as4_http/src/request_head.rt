//! The head of a request, read from a source.
ghost use Rattle.std.specs.Prelude.{◌≡◌, ◌≢◌, [], ◌≤◌, ◌<◌, length, drop, IfOk, OnErr, IfErr, IsErrOf};
ghost use Rattle.as4_flow.specs.Flow.{Rose, Told, before};
ghost use Rattle.as4_http.specs.Asked.{AsksOnlyAsNeeded};
ghost use Rattle.httparse.specs.Grammar.{RequestHead, MayBecomeRequest};
ghost use Rattle.httparse.specs.Spans.{IsRequestAt, IsRequestWithin, IsRequestOf};
ghost use Rattle.as4_http.specs.Limits.{the_limits};
ghost use Rattle.as4_http.specs.Passed.{IsLongHead, PassesRequest, Shows};
ghost use Rattle.as4_http.specs.Refused.{Refuses, Denies};
ghost use Rattle.as4_http.specs.RequestStarts.{SaysRequest, TakesRequestHead, BeginsRequestHead, HasNoRequestHead, EndsInRequestHead, DecidesRequestHead, IsSmallRequest};

use crate::intake::Intake;
use crate::request_start::{RequestStart, request_start};
use crate::{HttpRefusal, MAX_FIELDS, MAX_HEAD};
use as4_flow::Source;
use httparse::spans::{EMPTY_HEADER_SPAN, HeaderSpan, RequestSpans, parse_request};
use httparse::{Error, Status};

/// Takes the head of a request off the stream.
pub(crate) fn read_request_head<S: Source>(
    intake: &mut Intake,
    source: &mut S,
) -> Result<RequestStart, HttpRefusal>
    ensures ok { IfOk result (TakesRequestHead
        (before intake.old (S.left source.old)) (before intake.new (S.left source.new))) }
    ensures asks { AsksOnlyAsNeeded (HasNoRequestHead the_limits) intake.old (S.left source.old) (S.left source.new) }
    ensures refused { IfErr result (Refuses HasNoRequestHead EndsInRequestHead (before intake.old (S.left source.old)) (S.left source.new)) }
    ensures passed { IsErrOf result HttpRefusal.TooLong → Shows PassesRequest (before intake.old (S.left source.old)) (S.left source.new) }
    ensures bad_head { IsErrOf result HttpRefusal.Bad → Shows DecidesRequestHead (before intake.old (S.left source.old)) (S.left source.new) }
    ensures cut { IsErrOf result HttpRefusal.Cut → Told (S.left source.new) (λ bytes. bytes ≡ []) }
    ensures fault { IsErrOf result HttpRefusal.ReadFault → Rose (S.faults source.old) (S.faults source.new) }
    ensures quiet { ¬ IsErrOf result HttpRefusal.ReadFault → S.faults source.new ≡ S.faults source.old }
    ensures counted { S.faults source.old ≤ S.faults source.new }
{
    let mut headers = [EMPTY_HEADER_SPAN; MAX_FIELDS];
    'pieces: loop {
        match parse_request(intake.bytes(), &mut headers) {
            Ok(Status::Complete(spans)) => return take_head(intake, &headers, &spans),
            Ok(Status::Partial) => {}
            Err(error) => return Err(refusal_of(error)),
        }
        if intake.len() > MAX_HEAD {
            return Err(HttpRefusal::TooLong);
        }
        intake.fill(source)?;
    }
}

// Takes the head that the bytes begin with, where these are its parts.
fn take_head(
    intake: &mut Intake,
    headers: &[HeaderSpan],
    spans: &RequestSpans,
) -> Result<RequestStart, HttpRefusal>
    requires within { IsRequestWithin intake.old headers.now spans.now }
    requires head { IsRequestOf intake.old headers.now spans.now }
    requires fields { length headers.now ≤ MAX_FIELDS }
    ensures ok { IfOk result (BeginsRequestHead the_limits intake.old intake.new) }
    ensures denied { IfErr result (Denies HasNoRequestHead intake.old) }
    ensures passed { IsErrOf result HttpRefusal.TooLong → IsLongHead MayBecomeRequest intake.old }
    ensures cause { ¬ IsErrOf result HttpRefusal.ReadFault × ¬ IsErrOf result HttpRefusal.Cut }
{
    if spans.len > MAX_HEAD {
        return Err(HttpRefusal::TooLong);
    }
    let start = request_start(intake.alloc(), intake.bytes(), headers, spans)?;
    intake.skip(spans.len);
    Ok(start)
}

/// What an error of the parser says of the bytes.
pub(crate) fn refusal_of(error: Error) -> HttpRefusal
    ensures too_long { error ≡ Error.TooManyHeaders → result ≡ HttpRefusal.TooLong }
    ensures bad { error ≢ Error.TooManyHeaders → result ≡ HttpRefusal.Bad }
{
    match error {
        Error::TooManyHeaders => HttpRefusal::TooLong,
        _ => HttpRefusal::Bad,
    }
}

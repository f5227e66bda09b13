//! Responses, read from a source one after another.
ghost use Rattle.std.specs.Prelude.{◌≡◌, ◌≢◌, [], ◌≤◌, ◌++◌, ℕ, List, Option, IsTrue, codes, is_some, IfSome, IfOk, IsErrOf};
ghost use Rattle.as4_flow.specs.Flow.{Rose, Told, before};
ghost use Rattle.as4_http.specs.Asked.{AsksForResponse};
ghost use Rattle.as4_http.specs.Limits.{Limits};
ghost use Rattle.as4_http.specs.Passed.{PassesResponse, Shows};
ghost use Rattle.as4_http.specs.ReadBack.{IsMedia, IsWithinLimits, response_with};
ghost use Rattle.as4_http.specs.Refused.{OnRefused, Dooms};
ghost use Rattle.as4_http.specs.ResponseStarts.{DecidesResponseHead};
ghost use Rattle.as4_http.specs.Responses.{BeginsResponse, BeginsResponseWithin, HasNoResponse, IsNoResponse, IsCutResponse};
ghost use Rattle.as4_http.specs.declared.framing.Framing.TheVariants.{ToEnd};
ghost use Rattle.as4_http.specs.Written.{is_status, response_text};

use crate::body::take_body;
use crate::response_head::read_response_head;
use crate::{HttpRefusal, Intake, Response};
use as4_flow::Source;

impl Intake {
    /// Reads a response, and returns it with the intake, which holds the bytes that were read past it. A refusal
    /// drops the intake.
    pub fn read_response<S: Source>(self, source: &mut S) -> Result<(Response, Intake), HttpRefusal>
        // The stream is what the intake held, followed by what the source had left. It is this response, followed by
        // what the new intake holds and what the source has left.
        ensures found { IfOk result (λ r. Told (before self (S.left source.old)) (λ stream.
            Told (before r.1 (S.left source.new)) (BeginsResponse stream r.0))) }
        // Where the stream begins with a response, it isn't refused.
        ensures only { OnRefused result (Told (before self (S.left source.old)) HasNoResponse) }
        // The bytes that were read begin no response, however they go on: under any limits, or within the limits.
        ensures bad { IsErrOf result HttpRefusal.Bad → Dooms IsNoResponse (before self (S.left source.old)) (S.left source.new) }
        // They begin with a whole head, or no head begins so.
        ensures bad_head { IsErrOf result HttpRefusal.Bad → Shows DecidesResponseHead (before self (S.left source.old)) (S.left source.new) }
        ensures too_long { IsErrOf result HttpRefusal.TooLong → Dooms HasNoResponse (before self (S.left source.old)) (S.left source.new) }
        // Where they pass a limit, the bytes before it are right.
        ensures passed { IsErrOf result HttpRefusal.TooLong → Shows PassesResponse (before self (S.left source.old)) (S.left source.new) }

        // The source gave no more than one piece past what was no whole response yet, unless the body runs to the end
        // of the stream, and is as observable as before.
        ensures asks { AsksForResponse self (S.left source.old) (S.left source.new) }
        ensures tells { is_some (S.left source.new) ≡ is_some (S.left source.old) }

        // The source has ended, inside a head or where more bytes make a response within the limits.
        ensures cut { IsErrOf result HttpRefusal.Cut → Told (S.left source.new) (λ bytes. bytes ≡ []) }
        ensures begun { IsErrOf result HttpRefusal.Cut → Told (before self (S.left source.old)) IsCutResponse }
        ensures fault { IsErrOf result HttpRefusal.ReadFault → Rose (S.faults source.old) (S.faults source.new) }
        ensures quiet { ¬ IsErrOf result HttpRefusal.ReadFault → S.faults source.new ≡ S.faults source.old }
        ensures counted { S.faults source.old ≤ S.faults source.new }
    {
        let mut intake = self;
        let start = read_response_head(&mut intake, source)?;
        let body = take_body(&mut intake, source, start.framing)?;
        let response = Response {
            status: start.status,
            media: start.media,
            body,
        };
        Ok((response, intake))
    }
}

/// A stream begins with one response at most, under any two limits.
pub fn one_response()
    ensures { (limits other : Limits) (stream : List ℕ) (a b : Response) (r q : List ℕ) → BeginsResponseWithin limits stream a r → BeginsResponseWithin other stream b q → (a ≡ b) × (r ≡ q) }
{}

/// A response stays the first one of a stream, whatever follows, unless its body runs to the end of the stream.
pub fn response_goes_on()
    ensures { (limits : Limits) (stream more : List ℕ) (response : Response) (rest : List ℕ) (begins : BeginsResponseWithin limits stream response rest) → begins.framing ≢ ToEnd → BeginsResponseWithin limits (stream ++ more) response (rest ++ more) }
{}

/// The response that is written with a status is read back, whatever follows it, where its connection closes and
/// where it is kept.
pub fn response_read_back()
    ensures closed { (status : ℕ) (media : Option (List ℕ)) (body rest : List ℕ) → IsTrue (is_status status) → IfSome media IsMedia → IsWithinLimits (response_text status media (codes "close") body) body →
        BeginsResponse (response_text status media (codes "close") body ++ rest) (response_with status media body) rest }
    ensures kept { (status : ℕ) (media : Option (List ℕ)) (body rest : List ℕ) → IsTrue (is_status status) → IfSome media IsMedia → IsWithinLimits (response_text status media (codes "keep-alive") body) body →
        BeginsResponse (response_text status media (codes "keep-alive") body ++ rest) (response_with status media body) rest }
{}

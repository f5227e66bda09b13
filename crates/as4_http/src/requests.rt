//! Requests, read from a source one after another.
ghost use Rattle.std.specs.Prelude.{◌≡◌, ◌<◌, ◌≤◌, ◌⊎◌, ◌++◌, ℕ, Bool, List, [], Option, true, false, IsTrue, length, is_some, IfSome, IfOk, IsOkAnd, IfErr, IsErrOf};
ghost use Rattle.as4_flow.specs.Flow.{LosesFront, Rose, Told, before};
ghost use Rattle.as4_values.specs.Address.{has_address_form};
ghost use Rattle.as4_http.specs.Asked.{AsksOnlyAsNeeded};
ghost use Rattle.as4_http.specs.Limits.{Limits};
ghost use Rattle.as4_http.specs.Passed.{PassesRequest, Shows};
ghost use Rattle.as4_http.specs.ReadBack.{IsMedia, IsWithinLimits, request_to};
ghost use Rattle.as4_http.specs.Refused.{OnRefused, Dooms};
ghost use Rattle.as4_http.specs.RequestStarts.{DecidesRequestHead};
ghost use Rattle.as4_http.specs.Requests.{BeginsKept, BeginsKeptWithin, BeginsRequest, BeginsRequestWithin, HasNoRequest, IsNoRequest, IsCutRequest};
ghost use Rattle.as4_http.specs.Written.{request_text};

use crate::body::take_body;
use crate::request_head::read_request_head;
use crate::{HttpRefusal, Intake, MAX_PIECE, Request};
use as4_flow::Source;

impl Intake {
    /// Reads a request, and returns it with the intake, which holds the bytes that were read past it. A refusal
    /// drops the intake.
    pub fn read_request<S: Source>(self, source: &mut S) -> Result<(Request, Intake), HttpRefusal>
        // The stream is what the intake held, followed by what the source had left. It is this request, followed by
        // what the new intake holds and what the source has left.
        ensures found { IfOk result (λ r. Told (before self (S.left source.old)) (λ stream.
            Told (before r.1 (S.left source.new)) (BeginsRequest stream r.0))) }
        // Where the stream begins with a request, it isn't refused.
        ensures only { OnRefused result (Told (before self (S.left source.old)) HasNoRequest) }
        // The bytes that were read begin no request, however they go on: under any limits, or within the limits.
        ensures bad { IsErrOf result HttpRefusal.Bad → Dooms IsNoRequest (before self (S.left source.old)) (S.left source.new) }
        // They begin with a whole head, or no head begins so.
        ensures bad_head { IsErrOf result HttpRefusal.Bad → Shows DecidesRequestHead (before self (S.left source.old)) (S.left source.new) }
        ensures too_long { IsErrOf result HttpRefusal.TooLong → Dooms HasNoRequest (before self (S.left source.old)) (S.left source.new) }
        // Where they pass a limit, the bytes before it are right.
        ensures passed { IsErrOf result HttpRefusal.TooLong → Shows PassesRequest (before self (S.left source.old)) (S.left source.new) }

        // The source gave no more than one piece past what was no whole request yet, and is as observable as before.
        ensures asks { AsksOnlyAsNeeded HasNoRequest self (S.left source.old) (S.left source.new) }
        ensures tells { is_some (S.left source.new) ≡ is_some (S.left source.old) }

        // The source has ended, inside a head or where more bytes make a request within the limits.
        ensures cut { IsErrOf result HttpRefusal.Cut → Told (S.left source.new) (λ bytes. bytes ≡ []) }
        ensures begun { IsErrOf result HttpRefusal.Cut → Told (before self (S.left source.old)) IsCutRequest }
        ensures fault { IsErrOf result HttpRefusal.ReadFault → Rose (S.faults source.old) (S.faults source.new) }
        ensures quiet { ¬ IsErrOf result HttpRefusal.ReadFault → S.faults source.new ≡ S.faults source.old }
        ensures counted { S.faults source.old ≤ S.faults source.new }
    {
        let (request, _, intake) = self.read_kept(source)?;
        Ok((request, intake))
    }

    /// Reads a request as `read_request` does, and returns also whether a further one may follow on its connection
    /// (RFC 9112, section 9.3).
    pub fn read_kept<S: Source>(
        self,
        source: &mut S,
    ) -> Result<(Request, bool, Intake), HttpRefusal>
        ensures found { IfOk result (λ r. Told (before self (S.left source.old)) (λ stream.
            Told (before r.2 (S.left source.new)) (BeginsKept stream r.0 r.1))) }
        ensures only { OnRefused result (Told (before self (S.left source.old)) HasNoRequest) }
        ensures bad { IsErrOf result HttpRefusal.Bad → Dooms IsNoRequest (before self (S.left source.old)) (S.left source.new) }
        ensures bad_head { IsErrOf result HttpRefusal.Bad → Shows DecidesRequestHead (before self (S.left source.old)) (S.left source.new) }
        ensures too_long { IsErrOf result HttpRefusal.TooLong → Dooms HasNoRequest (before self (S.left source.old)) (S.left source.new) }
        ensures passed { IsErrOf result HttpRefusal.TooLong → Shows PassesRequest (before self (S.left source.old)) (S.left source.new) }

        ensures asks { AsksOnlyAsNeeded HasNoRequest self (S.left source.old) (S.left source.new) }
        ensures tells { is_some (S.left source.new) ≡ is_some (S.left source.old) }

        ensures cut { IsErrOf result HttpRefusal.Cut → Told (S.left source.new) (λ bytes. bytes ≡ []) }
        ensures begun { IsErrOf result HttpRefusal.Cut → Told (before self (S.left source.old)) IsCutRequest }
        ensures fault { IsErrOf result HttpRefusal.ReadFault → Rose (S.faults source.old) (S.faults source.new) }
        ensures quiet { ¬ IsErrOf result HttpRefusal.ReadFault → S.faults source.new ≡ S.faults source.old }
        ensures counted { S.faults source.old ≤ S.faults source.new }
    {
        let mut intake = self;
        let start = read_request_head(&mut intake, source)?;
        let body = take_body(&mut intake, source, start.framing)?;
        let request = Request {
            method: start.method,
            target: start.target,
            media: start.media,
            body,
        };
        Ok((request, start.kept, intake))
    }

    /// Whether a further message begins. It reads nothing where the intake holds bytes, and otherwise one piece.
    pub fn begin<S: Source>(self, source: &mut S) -> Result<(bool, Intake), HttpRefusal>
        // Nothing is lost, and where a message begins there is a byte of it.
        ensures whole { IfOk result (λ r. before r.1 (S.left source.new) ≡ before self (S.left source.old)) }
        ensures begins { IfOk result (λ r. r.0 ≡ true → 0 < length r.1) }
        ensures ended { IfOk result (λ r. r.0 ≡ false
            → (self ≡ []) × (r.1 ≡ []) × Told (S.left source.old) (λ bytes. bytes ≡ [])) }
        ensures asks { LosesFront MAX_PIECE (S.left source.old) (S.left source.new) }
        ensures tells { is_some (S.left source.new) ≡ is_some (S.left source.old) }
        ensures held { 0 < length self → IsOkAnd result (λ r. r.0 ≡ true) × (source.new ≡ source.old) }

        ensures refusals { IfErr result (λ refusal.
            (refusal ≡ HttpRefusal.ReadFault) ⊎ (refusal ≡ HttpRefusal.NoMemory)) }
        ensures fault { IsErrOf result HttpRefusal.ReadFault → Rose (S.faults source.old) (S.faults source.new) }
        ensures quiet { ¬ IsErrOf result HttpRefusal.ReadFault → S.faults source.new ≡ S.faults source.old }
        ensures counted { S.faults source.old ≤ S.faults source.new }
    {
        let mut intake = self;
        if intake.len() > 0 {
            return Ok((true, intake));
        }
        match intake.fill(source) {
            Ok(_) => Ok((true, intake)),
            Err(HttpRefusal::Cut) => Ok((false, intake)),
            Err(refusal) => Err(refusal),
        }
    }
}

/// A stream begins with one request at most, under any two limits.
pub fn one_request()
    ensures { (limits other : Limits) (stream : List ℕ) (a b : Request) (r q : List ℕ) → BeginsRequestWithin limits stream a r → BeginsRequestWithin other stream b q → (a ≡ b) × (r ≡ q) }
{}

/// A request stays the first one of a stream, whatever follows.
pub fn request_goes_on()
    ensures request { (limits : Limits) (stream more : List ℕ) (request : Request) (rest : List ℕ) → BeginsRequestWithin limits stream request rest → BeginsRequestWithin limits (stream ++ more) request (rest ++ more) }
    ensures kept { (limits : Limits) (stream more : List ℕ) (request : Request) (kept : Bool) (rest : List ℕ) → BeginsKeptWithin limits stream request kept rest → BeginsKeptWithin limits (stream ++ more) request kept (rest ++ more) }
{}

/// The request that is written to an address is read back, whatever follows it, and it closes its connection.
pub fn request_read_back()
    ensures { (address : List ℕ) (media : Option (List ℕ)) (body rest : List ℕ) → IsTrue (has_address_form address) → IfSome media IsMedia → IsWithinLimits (request_text address media body) body →
        BeginsKept (request_text address media body ++ rest) (request_to address media body) false rest }
{}

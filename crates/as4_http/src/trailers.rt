//! The trailers after the last chunk (RFC 9112, section 7.1.2): field lines, which are skipped one by one, and the
//! empty line after them. They allocate nothing.
ghost use Rattle.std.specs.Prelude.{◌≡◌, [], ◌+◌, ◌<◌, ◌≤◌, ◌⊎◌, true, false, length, take, IfOk, OnOk, OnErr, IfErr, IsErrOf, IfSome, IfNone};
ghost use Rattle.as4_flow.specs.Flow.{Rose, Told, before};
ghost use Rattle.as4_http.specs.Asked.{AsksOnlyAsNeeded};
ghost use Rattle.httparse.specs.Grammar.{MayBecomeSection, NeverHasSection};
ghost use Rattle.as4_http.specs.Limits.{the_limits};
ghost use Rattle.as4_http.specs.Passed.{GoesOver, IsLongTrailers, ReadsTrailers, Shows};
ghost use Rattle.as4_http.specs.Refused.{IsDenial, MayBecome, Refuses, Denies};
ghost use Rattle.as4_http.specs.Trailers.{HasNoLf, BeginsWithLine, IsLine, EndsTrailers, BeginsNoLine, TakesTrailers, HasNoTrailers, AreTrailers, LeavesMissing, MissesOnly};

use crate::intake::Intake;
use crate::{HttpRefusal, MAX_TRAILERS};
use as4_flow::Source;
use httparse::Status;
use httparse::spans::{EMPTY_HEADER_SPAN, parse_headers};
use memchr::memchr;

/// Takes the trailers off the stream.
pub(crate) fn take_trailers<S: Source>(
    intake: &mut Intake,
    source: &mut S,
) -> Result<(), HttpRefusal>
    ensures ok { OnOk result (TakesTrailers
        (before intake.old (S.left source.old)) (before intake.new (S.left source.new))) }
    ensures asks { AsksOnlyAsNeeded (HasNoTrailers 0 the_limits) intake.old (S.left source.old) (S.left source.new) }
    ensures refused { IfErr result (Refuses (HasNoTrailers 0) (MayBecome (AreTrailers 0)) (before intake.old (S.left source.old)) (S.left source.new)) }
    ensures passed { IsErrOf result HttpRefusal.TooLong → Shows (GoesOver ReadsTrailers (IsLongTrailers 0)) (before intake.old (S.left source.old)) (S.left source.new) }
    ensures cut { IsErrOf result HttpRefusal.Cut → Told (S.left source.new) (λ bytes. bytes ≡ []) }
    ensures fault { IsErrOf result HttpRefusal.ReadFault → Rose (S.faults source.old) (S.faults source.new) }
    ensures quiet { ¬ IsErrOf result HttpRefusal.ReadFault → S.faults source.new ≡ S.faults source.old }
    ensures counted { S.faults source.old ≤ S.faults source.new }
{
    let mut passed = 0;
    'lines: loop {
        let len = hold_line(intake, source, passed)?;
        let ended = ends_trailers(&intake.bytes()[..len])?;
        intake.skip(len);
        passed += len;
        if ended {
            return Ok(());
        }
    }
}

// Reads until the intake holds a whole line, and returns its length with its LF. With `passed` bytes before it, the
// line leaves the trailers within their limit.
fn hold_line<S: Source>(
    intake: &mut Intake,
    source: &mut S,
    passed: usize,
) -> Result<usize, HttpRefusal>
    requires { passed ≤ MAX_TRAILERS }
    ensures ok { IfOk result (BeginsWithLine intake.new) }
    ensures within { IfOk result (λ n. passed + n ≤ MAX_TRAILERS) }
    ensures whole { before intake.old (S.left source.old) ≡ before intake.new (S.left source.new) }
    ensures asks { AsksOnlyAsNeeded (HasNoTrailers passed the_limits) intake.old (S.left source.old) (S.left source.new) }
    ensures refused { IfErr result (Refuses (HasNoTrailers passed) (MayBecome (AreTrailers passed)) (before intake.old (S.left source.old)) (S.left source.new)) }
    ensures passed { IsErrOf result HttpRefusal.TooLong → Shows (GoesOver ReadsTrailers (IsLongTrailers passed)) (before intake.old (S.left source.old)) (S.left source.new) }
    ensures cut { IsErrOf result HttpRefusal.Cut → Told (S.left source.new) (λ bytes. bytes ≡ []) }
    ensures fault { IsErrOf result HttpRefusal.ReadFault → Rose (S.faults source.old) (S.faults source.new) }
    ensures quiet { ¬ IsErrOf result HttpRefusal.ReadFault → S.faults source.new ≡ S.faults source.old }
    ensures counted { S.faults source.old ≤ S.faults source.new }
{
    let most = MAX_TRAILERS - passed;
    let mut scanned = 0;
    'pieces: loop {
        match line_in(intake.bytes(), scanned) {
            Some(len) if len <= most => return Ok(len),
            Some(_) => return Err(endless(&intake.bytes()[..most])),
            None => {}
        }
        scanned = intake.len();
        if scanned >= most {
            return Err(endless(&intake.bytes()[..most]));
        }
        match intake.fill(source) {
            Ok(_) => {}
            Err(HttpRefusal::Cut) => return Err(unended_line(intake.bytes(), passed)),
            Err(refusal) => return Err(refusal),
        }
    }
}

// How unended trailers at the end of the source are refused, of which this is the last line: as cut, where their
// shortest end leaves them within the limit.
fn unended_line(line: &[u8], passed: usize) -> HttpRefusal
    requires within { passed ≤ MAX_TRAILERS }
    requires none { HasNoLf line.now }
    ensures denial { IsDenial result }
    ensures denied { Denies (HasNoTrailers passed) line.now result }
    ensures cut { result ≡ HttpRefusal.Cut → MayBecome (AreTrailers passed) line.now }
    ensures passed { result ≡ HttpRefusal.TooLong → GoesOver ReadsTrailers (IsLongTrailers passed) line.now }
{
    if !may_end(line) {
        return HttpRefusal::Bad;
    }
    if line.len().saturating_add(missing(line)) > MAX_TRAILERS - passed {
        return HttpRefusal::TooLong;
    }
    HttpRefusal::Cut
}

// How trailers that go on past their limit are refused, of which this is the last line as far as the limit.
fn endless(line: &[u8]) -> HttpRefusal
    requires { HasNoLf line.now }
    ensures either { (result ≡ HttpRefusal.Bad) ⊎ (result ≡ HttpRefusal.TooLong) }
    ensures bad { result ≡ HttpRefusal.Bad → NeverHasSection line.now }
    ensures too_long { result ≡ HttpRefusal.TooLong → MayBecomeSection line.now }
{
    if may_end(line) {
        HttpRefusal::TooLong
    } else {
        HttpRefusal::Bad
    }
}

// Whether more bytes make trailers of an unended line.
fn may_end(line: &[u8]) -> bool
    requires { HasNoLf line.now }
    ensures may { result ≡ true → MayBecomeSection line.now }
    ensures never { result ≡ false → NeverHasSection line.now }
{
    parse_headers(line, &mut [EMPTY_HEADER_SPAN; 1]).is_ok()
}

// The least number of bytes that end an unended line and the trailers.
fn missing(line: &[u8]) -> usize
    requires { HasNoLf line.now }
    ensures least { LeavesMissing line.now result }
    ensures enough { MayBecomeSection line.now → MissesOnly line.now result }
{
    if line.is_empty() {
        return 1;
    }
    if line == b"\r".as_slice() {
        return 1;
    }
    if memchr(b':', line).is_some() {
        return 2;
    }
    3
}

// The length of the first line with its LF, where the first `scanned` bytes have no LF.
fn line_in(bytes: &[u8], scanned: usize) -> Option<usize>
    requires within { scanned ≤ length bytes.now }
    requires none { HasNoLf (take scanned bytes.now) }
    ensures some { IfSome result (BeginsWithLine bytes.now) }
    ensures none { IfNone result (HasNoLf bytes.now) }
{
    match memchr(b'\n', &bytes[scanned..]) {
        Some(at) => Some(scanned + at + 1),
        None => None,
    }
}

// Whether the line is the empty one, or else a field line.
fn ends_trailers(line: &[u8]) -> Result<bool, HttpRefusal>
    requires { IsLine line.now }
    ensures ok { IfOk result (EndsTrailers line.now) }
    ensures none { OnErr result (BeginsNoLine line.now) }
    ensures bad { IfErr result (λ refusal. refusal ≡ HttpRefusal.Bad) }
{
    match parse_headers(line, &mut [EMPTY_HEADER_SPAN; 1]) {
        Ok(Status::Complete(_)) => Ok(true),
        Ok(Status::Partial) => Ok(false),
        Err(_) => Err(HttpRefusal::Bad),
    }
}

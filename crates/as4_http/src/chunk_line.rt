//! The line before a chunk, and the CRLF after it (RFC 9112, section 7.1).
ghost use Rattle.std.specs.Prelude.{◌≡◌, ◌≢◌, ℕ, ◌+◌, ◌<◌, ◌≤◌, List, [], ◌∷◌, ◌++◌, length, IfOk, OnOk, IfErr, IsErrOf};
ghost use Rattle.httparse.specs.Grammar.{HasNoChunkLine, MayBecomeChunkLine};
ghost use Rattle.as4_flow.specs.Flow.{Rose, Told, before};
ghost use Rattle.as4_http.specs.Asked.{AsksOnlyAsNeeded};
ghost use Rattle.as4_http.specs.ChunkLines.{TakesLine, HasNoLine, IsWholeLine, IsCrlf, HasNoCrlf, shortest_end};
ghost use Rattle.as4_http.specs.Limits.{the_limits};
ghost use Rattle.as4_http.specs.Passed.{PassesNext, Shows};
ghost use Rattle.as4_http.specs.Refused.{IsDenial, MayBecome, Refuses, Denies};

use crate::intake::Intake;
use crate::{HttpRefusal, MAX_BODY, MAX_CHUNK_LINE};
use as4_flow::Source;
use httparse::{Status, parse_chunk_size};

/// Takes the line before a chunk off the stream, and returns the size that it says. With `passed` bytes before it,
/// the chunk leaves the body within its limit.
pub(crate) fn take_line<S: Source>(
    intake: &mut Intake,
    source: &mut S,
    passed: usize,
) -> Result<usize, HttpRefusal>
    requires { passed ≤ MAX_BODY }
    ensures ok { IfOk result (TakesLine
        (before intake.old (S.left source.old)) (before intake.new (S.left source.new))) }
    ensures within { IfOk result (λ size. passed + size ≤ MAX_BODY) }
    ensures asks { AsksOnlyAsNeeded (HasNoLine passed the_limits) intake.old (S.left source.old) (S.left source.new) }
    ensures refused { IfErr result (Refuses (HasNoLine passed) (MayBecome (IsWholeLine passed)) (before intake.old (S.left source.old)) (S.left source.new)) }
    ensures passed { IsErrOf result HttpRefusal.TooLong → Shows (PassesNext passed) (before intake.old (S.left source.old)) (S.left source.new) }
    ensures cut { IsErrOf result HttpRefusal.Cut → Told (S.left source.new) (λ bytes. bytes ≡ []) }
    ensures fault { IsErrOf result HttpRefusal.ReadFault → Rose (S.faults source.old) (S.faults source.new) }
    ensures quiet { ¬ IsErrOf result HttpRefusal.ReadFault → S.faults source.new ≡ S.faults source.old }
    ensures counted { S.faults source.old ≤ S.faults source.new }
{
    let room = MAX_BODY - passed;
    'pieces: loop {
        match parse_chunk_size(intake.bytes()) {
            Ok(Status::Complete((len, _))) if len > MAX_CHUNK_LINE => {
                return Err(HttpRefusal::TooLong);
            }
            Ok(Status::Complete((_, size))) if size > room as u64 => {
                return Err(HttpRefusal::TooLong);
            }
            Ok(Status::Complete((len, size))) => {
                intake.skip(len);
                return Ok(size as usize);
            }
            Ok(Status::Partial) => {}
            Err(_) => return Err(HttpRefusal::Bad),
        }
        if intake.len() > MAX_CHUNK_LINE {
            return Err(HttpRefusal::TooLong);
        }
        match intake.fill(source) {
            Ok(_) => {}
            Err(HttpRefusal::Cut) => return Err(unended_line(intake.bytes(), passed)),
            Err(refusal) => return Err(refusal),
        }
    }
}

// How an unended line at the end of the source is refused: as too long, where even its shortest end leaves it past
// its limit, or where it says more bytes than the body has room for; and else as cut.
fn unended_line(line: &[u8], passed: usize) -> HttpRefusal
    requires within { passed ≤ MAX_BODY }
    requires none { HasNoChunkLine line.now }
    requires may { MayBecomeChunkLine line.now }
    requires short { length line.now ≤ MAX_CHUNK_LINE }
    ensures denial { IsDenial result }
    ensures denied { Denies (HasNoLine passed) line.now result }
    ensures cut { result ≡ HttpRefusal.Cut → MayBecome (IsWholeLine passed) line.now }
    ensures passed { result ≡ HttpRefusal.TooLong → PassesNext passed line.now }
{
    let room = MAX_BODY - passed;
    let mut room_for_line = [0; MAX_CHUNK_LINE + 3];
    match parse_chunk_size(end_line(&mut room_for_line, line, shortest_end(line))) {
        Ok(Status::Complete((len, _))) if len > MAX_CHUNK_LINE => HttpRefusal::TooLong,
        Ok(Status::Complete((_, size))) if size > room as u64 => HttpRefusal::TooLong,
        Ok(Status::Complete(_)) => HttpRefusal::Cut,
        Ok(Status::Partial) => HttpRefusal::Cut,
        Err(_) => HttpRefusal::Cut,
    }
}

// Writes a line and its end into the room, and returns both.
fn end_line<'b>(room: &'b mut [u8], line: &[u8], end: &[u8]) -> &'b [u8]
    requires { length line.now + length end.now ≤ length room.old }
    ensures { result.now ≡ line.now ++ end.now }
{
    let len = line.len() + end.len();
    room[..line.len()].copy_from_slice(line);
    room[line.len()..len].copy_from_slice(end);
    &room[..len]
}

// The fewest bytes that end a line.
fn shortest_end(line: &[u8]) -> &'static [u8]
    ensures { result.now ≡ shortest_end line.now }
{
    if line.is_empty() {
        return b"0\r\n";
    }
    if line[line.len() - 1] == b'\r' {
        return b"\n";
    }
    b"\r\n"
}

/// Takes the CRLF after a chunk off the stream.
pub(crate) fn take_crlf<S: Source>(intake: &mut Intake, source: &mut S) -> Result<(), HttpRefusal>
    ensures ok { OnOk result
        (before intake.old (S.left source.old) ≡ before (13 ∷ 10 ∷ []) (before intake.new (S.left source.new))) }
    ensures asks { AsksOnlyAsNeeded HasNoCrlf intake.old (S.left source.old) (S.left source.new) }
    ensures refused { IfErr result (Refuses (λ _. HasNoCrlf) (MayBecome IsCrlf) (before intake.old (S.left source.old)) (S.left source.new)) }
    ensures within { ¬ IsErrOf result HttpRefusal.TooLong }
    ensures cut { IsErrOf result HttpRefusal.Cut → Told (S.left source.new) (λ bytes. bytes ≡ []) }
    ensures fault { IsErrOf result HttpRefusal.ReadFault → Rose (S.faults source.old) (S.faults source.new) }
    ensures quiet { ¬ IsErrOf result HttpRefusal.ReadFault → S.faults source.new ≡ S.faults source.old }
    ensures counted { S.faults source.old ≤ S.faults source.new }
{
    'pieces: while intake.len() < 2 {
        if intake.len() == 1 && intake.bytes()[0] != b'\r' {
            return Err(HttpRefusal::Bad);
        }
        intake.fill(source)?;
    }
    if intake.bytes()[0] != b'\r' || intake.bytes()[1] != b'\n' {
        return Err(HttpRefusal::Bad);
    }
    intake.skip(2);
    Ok(())
}

//! A body, as its head frames it (RFC 9112, section 6.3).
ghost use Rattle.std.specs.Prelude.{◌≡◌, [], ◌≤◌, ◌⊎◌, IfOk, OnOk, IfErr, IsErrOf};
ghost use Rattle.as4_flow.specs.Flow.{Rose, Told, before};
ghost use Rattle.as4_http.specs.Asked.{AsksForBody, GivesToLimit};
ghost use Rattle.as4_http.specs.Bodies.{TakesBody, HasNoBody, IsBody, TakesRest, IsLong};
ghost use Rattle.as4_http.specs.Passed.{PassesBody, Shows};
ghost use Rattle.as4_http.specs.Refused.{Refuses, MayBecome};

use crate::chunks::take_chunks;
use crate::counted::take_bytes;
use crate::framing::Framing;
use crate::gathered::Gathered;
use crate::intake::Intake;
use crate::{HttpRefusal, MAX_BODY};
use as4_flow::Source;
use as4_values::Octets;

/// Takes a body off the stream.
pub(crate) fn take_body<S: Source>(
    intake: &mut Intake,
    source: &mut S,
    framing: Framing,
) -> Result<Octets, HttpRefusal>
    ensures ok { IfOk result (λ body. TakesBody framing body
        (before intake.old (S.left source.old)) (before intake.new (S.left source.new))) }
    ensures asks { AsksForBody framing intake.old (S.left source.old) (S.left source.new) }
    ensures refused { IfErr result (Refuses (HasNoBody framing) (MayBecome (IsBody framing)) (before intake.old (S.left source.old)) (S.left source.new)) }
    ensures passed { IsErrOf result HttpRefusal.TooLong → Shows (PassesBody framing) (before intake.old (S.left source.old)) (S.left source.new) }
    ensures cut { IsErrOf result HttpRefusal.Cut → Told (S.left source.new) (λ bytes. bytes ≡ []) }
    ensures fault { IsErrOf result HttpRefusal.ReadFault → Rose (S.faults source.old) (S.faults source.new) }
    ensures quiet { ¬ IsErrOf result HttpRefusal.ReadFault → S.faults source.new ≡ S.faults source.old }
    ensures counted { S.faults source.old ≤ S.faults source.new }
{
    let mut body = Gathered::new(intake.alloc());
    match framing {
        Framing::Empty => {}
        Framing::Counted(n) if n > MAX_BODY as u64 => return Err(HttpRefusal::TooLong),
        Framing::Counted(n) => take_bytes(intake, source, &mut body, n as usize)?,
        Framing::Chunked => take_chunks(intake, source, &mut body)?,
        Framing::ToEnd => take_rest(intake, source, &mut body)?,
    }
    Ok(body.into_octets())
}

// Takes all that is left of the stream.
fn take_rest<S: Source>(
    intake: &mut Intake,
    source: &mut S,
    body: &mut Gathered,
) -> Result<(), HttpRefusal>
    requires { body.old ≡ [] }
    ensures ok { OnOk result (TakesRest body.new
        (before intake.old (S.left source.old)) (before intake.new (S.left source.new))) }
    ensures asks { (S.left source.old ≡ S.left source.new) ⊎ GivesToLimit intake.old (S.left source.old) (S.left source.new) }
    ensures refused { IfErr result (Refuses IsLong (λ _. ⊥) (before intake.old (S.left source.old)) (S.left source.new)) }
    ensures cut { IsErrOf result HttpRefusal.Cut → Told (S.left source.new) (λ bytes. bytes ≡ []) }
    ensures fault { IsErrOf result HttpRefusal.ReadFault → Rose (S.faults source.old) (S.faults source.new) }
    ensures quiet { ¬ IsErrOf result HttpRefusal.ReadFault → S.faults source.new ≡ S.faults source.old }
    ensures counted { S.faults source.old ≤ S.faults source.new }
{
    body.append(intake.bytes())?;
    intake.skip(body.len());
    'pieces: while body.len() <= MAX_BODY {
        match body.fill(source, MAX_BODY + 1 - body.len()) {
            Ok(_) => {}
            Err(HttpRefusal::Cut) => return Ok(()),
            Err(refusal) => return Err(refusal),
        }
    }
    Err(HttpRefusal::TooLong)
}

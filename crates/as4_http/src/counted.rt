//! A known number of bytes of the stream, read straight into the buffer of a body.
ghost use Rattle.std.specs.Prelude.{◌≡◌, [], ◌≤◌, OnOk, IfErr, IsErrOf};
ghost use Rattle.as4_flow.specs.Flow.{Rose, Told, before, LosesFront};
ghost use Rattle.as4_http.specs.Asked.{AsksOnlyAsNeeded};
ghost use Rattle.as4_http.specs.Came.{Came, IsShorter};
ghost use Rattle.as4_http.specs.Refused.{IsStop, OnRefused};

use crate::HttpRefusal;
use crate::gathered::Gathered;
use crate::intake::Intake;
use as4_flow::Source;

/// Takes the next n bytes off the stream, and appends them to the body.
pub(crate) fn take_bytes<S: Source>(
    intake: &mut Intake,
    source: &mut S,
    body: &mut Gathered,
    n: usize,
) -> Result<(), HttpRefusal>
    ensures ok { OnOk result (Came n body.old body.new
        (before intake.old (S.left source.old)) (before intake.new (S.left source.new))) }
    ensures asks { AsksOnlyAsNeeded (IsShorter n) intake.old (S.left source.old) (S.left source.new) }
    ensures none { OnRefused result (Told (before intake.old (S.left source.old)) (IsShorter n)) }
    ensures stop { IfErr result IsStop }
    ensures cut { IsErrOf result HttpRefusal.Cut → Told (S.left source.new) (λ bytes. bytes ≡ []) }
    ensures fault { IsErrOf result HttpRefusal.ReadFault → Rose (S.faults source.old) (S.faults source.new) }
    ensures quiet { ¬ IsErrOf result HttpRefusal.ReadFault → S.faults source.new ≡ S.faults source.old }
    ensures counted { S.faults source.old ≤ S.faults source.new }
{
    let at_hand = intake.len().min(n);
    body.append(&intake.bytes()[..at_hand])?;
    intake.skip(at_hand);
    read_bytes(source, body, n - at_hand)
}

// Reads n bytes of the source, and appends them to the body.
fn read_bytes<S: Source>(source: &mut S, body: &mut Gathered, n: usize) -> Result<(), HttpRefusal>
    ensures ok { OnOk result (Came n body.old body.new (S.left source.old) (S.left source.new)) }
    ensures asks { LosesFront n (S.left source.old) (S.left source.new) }
    ensures none { OnRefused result (Told (S.left source.old) (IsShorter n)) }
    ensures stop { IfErr result IsStop }
    ensures cut { IsErrOf result HttpRefusal.Cut → Told (S.left source.new) (λ bytes. bytes ≡ []) }
    ensures fault { IsErrOf result HttpRefusal.ReadFault → Rose (S.faults source.old) (S.faults source.new) }
    ensures quiet { ¬ IsErrOf result HttpRefusal.ReadFault → S.faults source.new ≡ S.faults source.old }
    ensures counted { S.faults source.old ≤ S.faults source.new }
{
    let mut wanted = n;
    'pieces: while wanted > 0 {
        wanted -= body.fill(source, wanted)?;
    }
    Ok(())
}

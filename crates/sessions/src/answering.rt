//! How an office answers an event, with the response.
ghost use Rattle.std.specs.Prelude.{◌≡◌, Bool, Err, ℕ, List};
ghost use Rattle.as4_doors.specs.Responses.{IsResponse};
ghost use Rattle.as4_doors.specs.WrittenText.{written_text};
ghost use Rattle.office.specs.Preparing.{Prepares};
ghost use Rattle.office.specs.State.{OfficeState};
ghost use Rattle.sessions.specs.Answering.{Answers, IsSamePass, Tells, TellsReply};

use crate::ended::Ended;
use as4_disk::Disk;
use as4_doors::{Fixed, Written, response};
use exchange_model::{Event, Reply};
use office::{Call, Office, OfficeFault, Ready};
use pass_book::Pass;
use std::alloc::Global;

/// Makes the event's step and its response. The response is made before the step is enacted: if there is no memory for it,
/// nothing is entered.
pub(crate) fn answer_on<D: Disk>(
    alloc: Global,
    office: &mut Office<'_, D>,
    pass: &mut Pass<'_, Call>,
    event: Event,
    kept: bool,
) -> (Ended, Written)
    requires book { pass.old.book ≡ office.old.book }
    ensures answers { Answers D.Disk office.old office.new pass.old pass.new kept event result.0 (written_text result.1) }
    ensures book { office.new.book ≡ office.old.book }
    ensures pass { IsSamePass pass.old pass.new }
{
    match office.prepare(event) {
        Ok(ready) => answer_ready(alloc, office, pass, ready, kept),
        Err(_) => unavailable(Ended::NoMemory),
    }
}

fn answer_ready<D: Disk>(
    alloc: Global,
    office: &mut Office<'_, D>,
    pass: &mut Pass<'_, Call>,
    ready: Ready,
    kept: bool,
) -> (Ended, Written)
    requires book { pass.old.book ≡ office.old.book }
    requires ready { (first : OfficeState D) × Prepares D.Disk first office.old ready }
    ensures answers { (first : OfficeState D) → Prepares D.Disk first office.old ready
        → Answers D.Disk first office.new pass.old pass.new kept ready.event result.0 (written_text result.1) }
{
    match response(alloc, kept, ready.reply()) {
        Ok(written) => enact_answered(office, pass, ready, kept, written),
        Err(_) => halted(office.abandon(pass, ready)),
    }
}

// Makes the step whose response is made.
fn enact_answered<D: Disk>(
    office: &mut Office<'_, D>,
    pass: &mut Pass<'_, Call>,
    ready: Ready,
    kept: bool,
    written: Written,
) -> (Ended, Written)
    requires book { pass.old.book ≡ office.old.book }
    requires ready { (first : OfficeState D) × Prepares D.Disk first office.old ready }
    requires response { IsResponse kept ready.plan.outcome.reply (written_text written) }
    ensures answers { (first : OfficeState D) → Prepares D.Disk first office.old ready
        → Answers D.Disk first office.new pass.old pass.new kept ready.event result.0 (written_text result.1) }
{
    match office.enact(pass, ready) {
        Ok(reply) => (ended_by(reply), written),
        Err(fault) => {
            drop(written);
            halted(fault)
        }
    }
}

// How a session ends that was replied to.
fn ended_by(reply: Reply) -> Ended
    ensures { (kept : Bool) (bytes : List ℕ) → IsResponse kept reply bytes → TellsReply kept reply result bytes }
{
    match reply {
        Reply::Full { size, need } => Ended::Full { size, need },
        other => {
            drop(other);
            Ended::Answered
        }
    }
}

// How a session ends without a reply.
fn halted(fault: OfficeFault) -> (Ended, Written)
    ensures { (kept : Bool) → Tells kept (Err fault) result.0 (written_text result.1) }
{
    match fault {
        OfficeFault::Disk { before, after } => unavailable(Ended::DiskFault { before, after }),
        OfficeFault::Stopped { before, after } => unavailable(Ended::Stopped { before, after }),
        OfficeFault::Worn => unavailable(Ended::Worn),
        OfficeFault::NoMemory => unavailable(Ended::NoMemory),
    }
}

/// This end, with the response 503.
pub(crate) fn unavailable(ended: Ended) -> (Ended, Written)
    ensures { result ≡ (ended, Written.Fixed Fixed.Unavailable) }
{
    (ended, Written::Fixed(Fixed::Unavailable))
}

//! The lines that a drill writes: END is a or b, or f, h or l of a chain, and each line ends with LF.
//!
//!     END submitted NUMBER ID
//!     END no-mode, outbox-full or too-large
//!     END ticked FAILED
//!     END sent PACKAGE MESSAGE             MESSAGE is user ID, receipt ID, error CODE, pull CHANNEL or
//!                                          pair ID CHANNEL
//!     END lost MESSAGE
//!     END nothing or quiet
//!     END no-package
//!     END entry NUMBER ID PAYLOADS BYTES
//!     END no-entry or gone
//!     END confirmed NUMBER
//!     END status NUMBER STATUS             STATUS is pending TRIES, receipted, failed EBMS:0301,
//!                                          refused CODE or unknown
//!     END full or stopped
//!     END reopened
//!     END folded
//!     END end SUBMITTED RECEIPTED FAILED REFUSED INBOX

ghost use Rattle.std.specs.Prelude.{◌≡◌, ◌++◌, ℕ, IfOk, OnOk, codes};
ghost use Rattle.std.specs.Fmt.{decimal};
ghost use Rattle.drill_texts.specs.Texts.{end_line, reply_text, said_line, status_text};
ghost use Rattle.msh_state.specs.Totals.{AreTotals};
ghost use Rattle.exchange_model.specs.End.{End};

use crate::messages::{add_entry, add_message};
use crate::pieces::{add, add_counted, add_named, add_number, begun_line, ended_line};
use as4_values::{Code, MessageId, NoMemory, Octets};
use drill_script::EndName;
use exchange_model::Reply;
use msh_state::Totals;
use std::alloc::Global;

/// The line for a reply to a line that names `number`, at an endpoint that has sent `packages` packages.
pub fn reply_line(
    alloc: Global,
    end: EndName,
    number: u64,
    lost: bool,
    packages: u64,
    reply: &Reply,
) -> Result<Octets, NoMemory>
    ensures { IfOk result (λ text. text ≡ said_line end (reply_text number lost packages reply.now)) }
{
    let mut line = begun_line(alloc, end)?;
    add_reply(&mut line, number, lost, packages, reply)?;
    ended_line(line)
}

/// The line for a package number that the other endpoint hasn't sent.
pub fn no_package_line(alloc: Global, end: EndName) -> Result<Octets, NoMemory>
    ensures { IfOk result (λ text. text ≡ said_line end (codes "no-package")) }
{
    word_line(alloc, end, b"no-package")
}

/// The line for a mode that the endpoint doesn't have.
pub fn no_mode_line(alloc: Global, end: EndName) -> Result<Octets, NoMemory>
    ensures { IfOk result (λ text. text ≡ said_line end (codes "no-mode")) }
{
    word_line(alloc, end, b"no-mode")
}

/// The line for an endpoint whose disk was opened again.
pub fn reopened_line(alloc: Global, end: EndName) -> Result<Octets, NoMemory>
    ensures { IfOk result (λ text. text ≡ said_line end (codes "reopened")) }
{
    word_line(alloc, end, b"reopened")
}

/// The line for an endpoint whose journal was compacted, if that made it shorter.
pub fn folded_line(alloc: Global, end: EndName) -> Result<Octets, NoMemory>
    ensures { IfOk result (λ text. text ≡ said_line end (codes "folded")) }
{
    word_line(alloc, end, b"folded")
}

// A line of one word.
fn word_line(alloc: Global, end: EndName, word: &[u8]) -> Result<Octets, NoMemory>
    ensures { IfOk result (λ text. text ≡ said_line end word.now) }
{
    let mut line = begun_line(alloc, end)?;
    add(&mut line, word)?;
    ended_line(line)
}

/// The line for a number that no submission has.
pub fn unknown_line(alloc: Global, end: EndName, number: u64) -> Result<Octets, NoMemory>
    ensures { IfOk result (λ text. text ≡ said_line end (status_text number (codes "unknown"))) }
{
    let mut line = begun_line(alloc, end)?;
    add_status(&mut line, number, b"unknown")?;
    ended_line(line)
}

/// The totals of an endpoint, at the end of a script.
#[tactic(auto, unfolding(crate::specs::Texts::end_line))]
pub fn end_line(alloc: Global, name: EndName, totals: Totals) -> Result<Octets, NoMemory>
    ensures { (end : End) → AreTotals end totals → IfOk result (λ text. text ≡ end_line name end) }
{
    let mut line = begun_line(alloc, name)?;
    add_totals(&mut line, &totals)?;
    ended_line(line)
}

/// Adds the totals of an endpoint.
fn add_totals(out: &mut Vec<u8>, totals: &Totals) -> Result<(), NoMemory>
    ensures { OnOk result (out.new.items ≡ out.old.items
        ++ (codes "end " ++ decimal totals.now.submitted ++ (codes " " ++ decimal totals.now.receipted)
        ++ (codes " " ++ decimal totals.now.failed) ++ (codes " " ++ decimal totals.now.refused)
        ++ codes " " ++ decimal totals.now.inbox)) }
{
    add_counted(out, b"end ", totals.submitted)?;
    add_counted(out, b" ", totals.receipted)?;
    add_counted(out, b" ", totals.failed)?;
    add_counted(out, b" ", totals.refused)?;
    add_counted(out, b" ", totals.inbox)
}

/// Adds the text of a reply.
#[tactic(auto, unfolding(crate::specs::Texts::reply_text))]
fn add_reply(
    out: &mut Vec<u8>,
    number: u64,
    lost: bool,
    packages: u64,
    reply: &Reply,
) -> Result<(), NoMemory>
    ensures { OnOk result (out.new.items ≡ out.old.items ++ reply_text number lost packages reply.now) }
{
    match reply {
        Reply::Submitted { number, id } => add_submitted(out, *number, id),
        Reply::NoMode => add(out, b"no-mode"),
        Reply::OutboxFull => add(out, b"outbox-full"),
        Reply::TooLarge => add(out, b"too-large"),
        Reply::Ticked { failed } => add_counted(out, b"ticked ", *failed),
        Reply::Push { message, .. } => add_message(out, lost, packages, message),
        Reply::Nothing => add(out, b"nothing"),
        Reply::Request { message, .. } => add_message(out, lost, packages, message),
        Reply::Answer(message) => add_message(out, lost, packages, message),
        Reply::Quiet => add(out, b"quiet"),
        Reply::Entry { header, payloads } => add_entry(out, number, header, payloads.items()),
        Reply::NoEntry => add(out, b"no-entry"),
        Reply::Gone => add(out, b"gone"),
        Reply::Confirmed { upto } => add_counted(out, b"confirmed ", *upto),
        Reply::Pending { tries } => add_pending(out, number, *tries),
        Reply::Receipted => add_status(out, number, b"receipted"),
        Reply::Failed => add_status(out, number, b"failed EBMS:0301"),
        Reply::RefusedWith { code } => add_refused(out, number, code),
        Reply::Unknown => add_status(out, number, b"unknown"),
        Reply::Full { .. } => add(out, b"full"),
        Reply::Stopped { .. } => add(out, b"stopped"),
    }
}

fn add_submitted(out: &mut Vec<u8>, number: u64, id: &MessageId) -> Result<(), NoMemory>
    ensures { OnOk result (out.new.items ≡ out.old.items ++ (codes "submitted " ++ decimal number ++ codes " " ++ id.now)) }
{
    add_counted(out, b"submitted ", number)?;
    add_named(out, b" ", id.bytes())
}

fn add_status(out: &mut Vec<u8>, number: u64, status: &[u8]) -> Result<(), NoMemory>
    ensures { OnOk result (out.new.items ≡ out.old.items ++ status_text number status.now) }
{
    add_counted(out, b"status ", number)?;
    add_named(out, b" ", status)
}

fn add_pending(out: &mut Vec<u8>, number: u64, tries: u32) -> Result<(), NoMemory>
    ensures { OnOk result (out.new.items ≡ out.old.items ++ status_text number (codes "pending " ++ decimal tries)) }
{
    add_status(out, number, b"pending ")?;
    add_number(out, u64::from(tries))
}

fn add_refused(out: &mut Vec<u8>, number: u64, code: &Code) -> Result<(), NoMemory>
    ensures { OnOk result (out.new.items ≡ out.old.items ++ status_text number (codes "refused " ++ code.now)) }
{
    add_status(out, number, b"refused ")?;
    add(out, code.bytes())
}

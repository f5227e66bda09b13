//! The responses to replies and to refused requests.

ghost use Rattle.std.specs.Prelude.{◌≡◌, ◌≤◌, IfOk, IsOk, IsSome, IsTrue};
ghost use Rattle.as4_codes.specs.ErrorCodes.{error_row};
ghost use Rattle.as4_codes.specs.Signals.{IsErrorSignalOf};
ghost use Rattle.as4_doors.specs.Responses.{Carries, IsRefusalResponse, IsResponse, is_fixed};
ghost use Rattle.as4_doors.specs.WrittenText.{written_text};

use crate::lines::{counted, line, made, submitted, words};
use crate::written::{Fixed, Written};
use as4_codes::error_signal;
use as4_http::write_kept;
use as4_message::{Refusal, write_message, write_user};
use as4_values::{MAX_MOMENT, Message, NoMemory, Payload, Seq, Signal, UserHeader};
use exchange_model::Reply;
use std::alloc::Global;

/// The response to a reply of the endpoint. `kept` says whether the connection is kept. The fixed responses close it.
pub fn response(alloc: Global, kept: bool, reply: &Reply) -> Result<Written, NoMemory>
    ensures response { IfOk result (λ written. IsResponse kept reply.now (written_text written)) }
    ensures free { IsTrue (is_fixed kept reply.now) → IsOk result }
{
    match reply {
        Reply::Answer(message) => carried(alloc, kept, message),
        Reply::Quiet => quiet(alloc, kept),
        Reply::Submitted { number, id } => submitted(alloc, kept, *number, id),
        Reply::NoMode => words(alloc, kept, 404, b"no mode"),
        Reply::OutboxFull => words(alloc, kept, 409, b"outbox full"),
        Reply::TooLarge => words(alloc, kept, 409, b"too large"),
        Reply::Entry { header, payloads } => entry(alloc, kept, header, payloads),
        Reply::NoEntry => words(alloc, kept, 404, b"no entry"),
        Reply::Gone => words(alloc, kept, 410, b"gone"),
        Reply::Confirmed { upto } => counted(alloc, kept, b"confirmed ", *upto),
        Reply::Pending { tries } => counted(alloc, kept, b"pending ", u64::from(*tries)),
        Reply::Receipted => words(alloc, kept, 200, b"receipted"),
        Reply::Failed => words(alloc, kept, 200, b"failed EBMS:0301"),
        Reply::RefusedWith { code } => line(alloc, kept, 200, b"refused ", code.bytes()),
        Reply::Unknown => words(alloc, kept, 404, b"unknown"),
        Reply::Full { .. }
        | Reply::Stopped { .. }
        | Reply::Ticked { .. }
        | Reply::Push { .. }
        | Reply::Nothing
        | Reply::Request { .. } => Ok(Written::Fixed(Fixed::Unavailable)),
    }
}

// The response where there is no answer to a message that came.
fn quiet(alloc: Global, kept: bool) -> Result<Written, NoMemory>
    ensures response { IfOk result (λ written. IsResponse kept Reply.Quiet (written_text written)) }
    ensures free { IsTrue (is_fixed kept Reply.Quiet) → IsOk result }
{
    if kept {
        return Ok(Written::Made(write_kept(alloc, 202, None, b"")?));
    }
    Ok(Written::Fixed(Fixed::Accepted))
}

// The response that carries a message.
fn carried(alloc: Global, kept: bool, message: &Message) -> Result<Written, NoMemory>
    ensures { IfOk result (λ written. Carries kept message.now (written_text written)) }
{
    let wire = write_message(alloc, message)?;
    made(alloc, kept, 200, wire.media.bytes(), wire.body.bytes())
}

// The response that carries a message of the inbox.
fn entry(
    alloc: Global,
    kept: bool,
    header: &UserHeader,
    payloads: &Seq<Payload>,
) -> Result<Written, NoMemory>
    ensures { IfOk result (λ written. Carries kept (Message.User header.now payloads.now) (written_text written)) }
{
    let wire = write_user(alloc, header, payloads)?;
    made(alloc, kept, 200, wire.media.bytes(), wire.body.bytes())
}

/// The response to a request that is refused: 200 with the error signal of the refusal, made at the moment `stamp`, in
/// milliseconds since 1970-01-01T00:00:00Z. The nonce makes the signal's identifier.
pub fn refusal_response(
    alloc: Global,
    kept: bool,
    refusal: &Refusal,
    stamp: u64,
    nonce: u128,
) -> Result<Written, NoMemory>
    requires known { IsSome (error_row refusal.now.code) }
    requires moment { stamp ≤ MAX_MOMENT }
    ensures { IfOk result (λ written. IsRefusalResponse kept refusal.now stamp nonce (written_text written)) }
{
    let signal = error_of(alloc, refusal, stamp, nonce)?;
    signal_response(alloc, kept, signal)
}

// The error signal of a refusal.
fn error_of(alloc: Global, refusal: &Refusal, stamp: u64, nonce: u128) -> Result<Signal, NoMemory>
    requires known { IsSome (error_row refusal.now.code) }
    requires moment { stamp ≤ MAX_MOMENT }
    ensures { IfOk result (λ signal. IsErrorSignalOf refusal.now.code refusal.now.about stamp nonce signal) }
{
    error_signal(alloc, refusal.code, refusal.about.as_ref(), stamp, nonce)
}

// The response that carries a signal.
fn signal_response(alloc: Global, kept: bool, signal: Signal) -> Result<Written, NoMemory>
    ensures { IfOk result (λ written. Carries kept (Message.Signal signal) (written_text written)) }
{
    let message = Message::Signal(signal);
    let written = carried(alloc, kept, &message);
    drop(message);
    written
}

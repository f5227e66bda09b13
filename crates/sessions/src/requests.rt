//! What a request makes of a session: an event, or an end without one.
ghost use Rattle.std.specs.Prelude.{◌≡◌, ◌≤◌, IfErr, IfOk, IsSome};
ghost use Rattle.as4_codes.specs.ErrorCodes.{error_row};
ghost use Rattle.as4_flow.specs.Draws.{Draws};
ghost use Rattle.as4_doors.specs.WrittenText.{written_text};
ghost use Rattle.sessions.specs.Sessions.{IsEventOf, Refuses, TurnsAway};

use crate::answering::unavailable;
use crate::ended::Ended;
use as4_doors::{DoorKind, DoorRefusal, Fixed, Written, ask, refusal_response};
use as4_flow::{Clock, Nonces};
use as4_http::Request;
use as4_message::Refusal;
use as4_values::MAX_MOMENT;
use exchange_model::Event;
use std::alloc::Global;

/// The event that a request asks for, with a moment and a nonce that are drawn; or how the session ends without an event,
/// and its response. The request is dropped.
pub(crate) fn drawn_event<C: Clock, N: Nonces>(
    alloc: Global,
    door: DoorKind,
    request: Request,
    kept: bool,
    clock: &mut C,
    nonces: &mut N,
) -> Result<Event, (Ended, Written)>
    ensures event { IfOk result (λ event. IsEventOf door request (C.last clock.new) (N.last nonces.new) event) }
    ensures turned { IfErr result (λ turned. TurnsAway door request kept (C.last clock.new) (N.last nonces.new) turned.0 (written_text turned.1)) }
    ensures moment { Draws (C.last clock.new) (C.to_come clock.old) (C.to_come clock.new) }
    ensures nonce { Draws (N.last nonces.new) (N.to_come nonces.old) (N.to_come nonces.new) }
{
    let stamp = clock.now();
    let nonce = nonces.next();
    let event = event_of(alloc, door, &request, kept, stamp, nonce);
    drop(request);
    event
}

// The event that a request asks for, with this moment and nonce; or how the session ends without an event, and its
// response.
fn event_of(
    alloc: Global,
    door: DoorKind,
    request: &Request,
    kept: bool,
    stamp: u64,
    nonce: u128,
) -> Result<Event, (Ended, Written)>
    requires dated { stamp ≤ MAX_MOMENT }
    ensures event { IfOk result (λ event. IsEventOf door request.now stamp nonce event) }
    ensures turned { IfErr result (λ turned. TurnsAway door request.now kept stamp nonce turned.0 (written_text turned.1)) }
{
    match ask(alloc, door, request) {
        Ok(what) => Ok(Event { stamp, nonce, what }),
        Err(DoorRefusal::Stranger) => Err((Ended::Bad, Written::Fixed(Fixed::BadRequest))),
        Err(DoorRefusal::Refused(refusal)) => Err(refuse(alloc, refusal, kept, stamp, nonce)),
        Err(DoorRefusal::NoMemory) => Err(unavailable(Ended::NoMemory)),
    }
}

// How a session ends whose message is refused.
fn refuse(alloc: Global, refusal: Refusal, kept: bool, stamp: u64, nonce: u128) -> (Ended, Written)
    requires known { IsSome (error_row refusal.code) }
    requires dated { stamp ≤ MAX_MOMENT }
    ensures { Refuses refusal kept stamp nonce result.0 (written_text result.1) }
{
    match refusal_response(alloc, kept, &refusal, stamp, nonce) {
        Ok(written) => (Ended::Refused(refusal), written),
        Err(_) => {
            drop(refusal);
            unavailable(Ended::NoMemory)
        }
    }
}

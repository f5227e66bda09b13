//! The requests of the peer's door: messages of the other endpoint.

ghost use Rattle.std.specs.Prelude.{◌≡◌, [], Err, IfOk, IsSome, IsTrue, unwrap_or};
ghost use Rattle.as4_codes.specs.ErrorCodes.{error_row};
ghost use Rattle.as4_message.specs.Meaning.{Means};
ghost use Rattle.as4_message.specs.declared.received.Refusal.{Refusal as RefusalValue};
ghost use Rattle.exchange_model.specs.Coming.{may_come};
ghost use Rattle.as4_doors.specs.Asking.{Asks, MeansWhat};
ghost use Rattle.as4_doors.specs.declared.door.DoorKind.TheVariants.{Peer};

use crate::door::DoorRefusal;
use as4_http::{MAX_BODY, Method, Request};
use as4_message::{MessageRefusal, read_message};
use coming_laws::a_read_message_may_come;
use exchange_model::What;
use std::alloc::Global;

/// What a request at the peer's door asks for.
pub(crate) fn ask_as_peer(alloc: Global, request: &Request) -> Result<What, DoorRefusal>
    ensures asks { Asks Peer request.now result }
    ensures known { (refusal : RefusalValue) → result ≡ Err (DoorRefusal.Refused refusal) → IsSome (error_row refusal.code) }
    ensures comes { IfOk result (λ what. IsTrue (may_come what)) }
{
    match request.method {
        Method::Get => Err(DoorRefusal::Stranger),
        Method::Post => posted(alloc, media_of(request), request.body.bytes()),
    }
}

// The media text of a request, which is empty where the request has none.
fn media_of(request: &Request) -> &[u8]
    ensures { result.now ≡ unwrap_or request.now.media [] }
{
    match &request.media {
        Some(media) => media.bytes(),
        None => b"",
    }
}

// What a message with this media text and this body asks for. No reader of HTTP gives a longer body.
fn posted(alloc: Global, media: &[u8], body: &[u8]) -> Result<What, DoorRefusal>
    ensures means { MeansWhat (Means media.now body.now) result }
    ensures known { (refusal : RefusalValue) → result ≡ Err (DoorRefusal.Refused refusal) → IsSome (error_row refusal.code) }
    ensures comes { IfOk result (λ what. IsTrue (may_come what)) }
{
    if body.len() > MAX_BODY {
        return Err(DoorRefusal::NoMemory);
    }
    // Laws: a message that is read from such a body may come.
    a_read_message_may_come();
    match read_message(alloc, media, body) {
        Ok(message) => Ok(What::Came(message)),
        Err(MessageRefusal::Refused(refusal)) => Err(DoorRefusal::Refused(refusal)),
        Err(MessageRefusal::NoMemory) => Err(DoorRefusal::NoMemory),
    }
}

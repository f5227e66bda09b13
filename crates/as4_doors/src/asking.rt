//! What a request asks for.

ghost use Rattle.std.specs.Prelude.{◌≡◌, Err, IfOk, IsSome, IsTrue};
ghost use Rattle.as4_codes.specs.ErrorCodes.{error_row};
ghost use Rattle.as4_message.specs.declared.received.Refusal.{Refusal as RefusalValue};
ghost use Rattle.exchange_model.specs.Coming.{may_come};
ghost use Rattle.as4_doors.specs.Asking.{Asks};

use crate::door::{DoorKind, DoorRefusal};
use crate::local::ask_locally;
use crate::peer::ask_as_peer;
use as4_http::Request;
use exchange_model::What;
use std::alloc::Global;

/// What a request at a door asks the endpoint for. A payload is copied once.
pub fn ask(alloc: Global, door: DoorKind, request: &Request) -> Result<What, DoorRefusal>
    ensures asks { Asks door request.now result }
    ensures known { (refusal : RefusalValue) → result ≡ Err (DoorRefusal.Refused refusal) → IsSome (error_row refusal.code) }
    ensures comes { IfOk result (λ what. IsTrue (may_come what)) }
{
    match door {
        DoorKind::Peer => ask_as_peer(alloc, request),
        DoorKind::Local => ask_locally(alloc, request),
    }
}

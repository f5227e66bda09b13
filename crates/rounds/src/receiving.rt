//! The message that a response brings.
ghost use Rattle.std.specs.Prelude.{◌≡◌, IfOk, IsTrue};
ghost use Rattle.exchange_model.specs.Coming.{may_come};
ghost use Rattle.rounds.specs.Receiving.{Brings, end_bare};

use as4_doors::{DoorKind, DoorRefusal, ask};
use as4_http::{Method, Request, Response};
use as4_values::Octets;
use exchange_model::What;
use sessions::RoundEnd;
use std::alloc::Global;

/// What is received with a response; or how the round ends, if there is no body or no message in it. A body is read as that
/// of a request at the peer's door.
pub(crate) fn brought(alloc: Global, response: Response) -> Result<What, RoundEnd>
    ensures brings { Brings response result }
    ensures comes { IfOk result (λ what. IsTrue (may_come what)) }
{
    let Response {
        status,
        media,
        body,
    } = response;
    if body.bytes().is_empty() {
        drop(media);
        drop(body);
        return Err(bare(status));
    }
    let request = Request {
        method: Method::Post,
        target: Octets::of(Vec::new(alloc)),
        media,
        body,
    };
    let asked = ask(alloc, DoorKind::Peer, &request);
    drop(request);
    match asked {
        Ok(what) => Ok(what),
        Err(DoorRefusal::Refused(refusal)) => Err(RoundEnd::Odd(refusal)),
        Err(DoorRefusal::Stranger) => Err(RoundEnd::NoMemory),
        Err(DoorRefusal::NoMemory) => Err(RoundEnd::NoMemory),
    }
}

// How a round ends with a response of this status that has no body.
fn bare(status: u16) -> RoundEnd
    ensures { result ≡ end_bare status }
{
    if status == 200 || status == 202 {
        RoundEnd::Done
    } else {
        RoundEnd::Status { status }
    }
}

//! The request that carries a message.
ghost use Rattle.std.specs.Prelude.{◌≡◌, IfOk, true};
ghost use Rattle.as4_http.specs.ReadBack.{IsWithinLimits};
ghost use Rattle.carrier.specs.Carrying.{IsRequestOf};
ghost use Rattle.drill_texts.specs.Modes.{drill_address};

use as4_http::{MAX_BODY, MAX_HEAD, write_request};
use as4_message::write_message;
use as4_values::{Message, NoMemory, Octets, Text};
use std::alloc::Global;

/// The request that carries a message. There is none if it would be longer than HTTP allows here.
pub(crate) fn request_of(alloc: Global, message: &Message) -> Result<Octets, NoMemory>
    ensures { IfOk result (IsRequestOf message.now) }
{
    let address = address(alloc)?;
    let wire = write_message(alloc, message)?;
    let body = wire.body.bytes();
    let request = write_request(alloc, &address, Some(wire.media.bytes()), body)?;
    if !is_within(request.bytes(), body) {
        return Err(NoMemory);
    }
    Ok(request)
}

/// The address of both ends of a drill.
#[tactic(auto, using(crate::proofs::MediaLemmas::address_is_plain))]
fn address(alloc: Global) -> Result<Text, NoMemory>
    ensures { IfOk result (λ text. text ≡ drill_address) }
{
    Text::plain(alloc, b"http://drill/")
}

/// Whether the request of a body is within the limits.
fn is_within(request: &[u8], body: &[u8]) -> bool
    ensures { result ≡ true → IsWithinLimits request.now body.now }
{
    body.len() <= MAX_BODY && request.len() <= MAX_HEAD + body.len()
}

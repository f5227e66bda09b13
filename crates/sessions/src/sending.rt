//! How an office makes a step whose reply sends a message to the partner.
ghost use Rattle.std.specs.Prelude.{◌≡◌, ℕ, IfOk, List, Option};
ghost use Rattle.std.specs.Option.{option_copied};
ghost use Rattle.office.specs.Preparing.{Prepares};
ghost use Rattle.office.specs.State.{OfficeState};
ghost use Rattle.sessions.specs.Answering.{IsSamePass};
ghost use Rattle.sessions.specs.Sending.{IsRequestOf, IsRequestTo, Sends};

use as4_disk::Disk;
use as4_http::write_request;
use as4_message::write_message;
use as4_values::{Message, NoMemory, Octets, Text, has_address_form};
use exchange_model::{Event, Reply};
use office::{Call, Office, OfficeFault, Ready};
use pass_book::Pass;
use std::alloc::Global;

/// A reply, and the request that carries its message to the partner. A reply that sends nothing has no request.
#[derive(Drop)]
pub struct Sending {
    pub reply: Reply,
    pub request: Option<Octets>,
}

/// Makes the event's step, and the request of its reply. The request is made before the step is enacted: if there is no
/// memory for it, nothing is entered. An answer goes back to the address `back`.
pub(crate) fn send_on<D: Disk>(
    alloc: Global,
    office: &mut Office<'_, D>,
    pass: &mut Pass<'_, Call>,
    event: Event,
    back: Option<&Text>,
) -> Result<Sending, OfficeFault>
    requires book { pass.old.book ≡ office.old.book }
    ensures sends { Sends D.Disk (option_copied back.entry) office.old office.new pass.old pass.new event result }
    ensures book { office.new.book ≡ office.old.book }
    ensures pass { IsSamePass pass.old pass.new }
{
    match office.prepare(event) {
        Ok(ready) => send_ready(alloc, office, pass, ready, back),
        Err(_) => Err(OfficeFault::NoMemory),
    }
}

fn send_ready<D: Disk>(
    alloc: Global,
    office: &mut Office<'_, D>,
    pass: &mut Pass<'_, Call>,
    ready: Ready,
    back: Option<&Text>,
) -> Result<Sending, OfficeFault>
    requires book { pass.old.book ≡ office.old.book }
    requires ready { (first : OfficeState D) × Prepares D.Disk first office.old ready }
    ensures sends { (first : OfficeState D) → Prepares D.Disk first office.old ready
        → Sends D.Disk (option_copied back.entry) first office.new pass.old pass.new ready.event result }
{
    match request_of(alloc, ready.reply(), back) {
        Ok(request) => enact_sent(office, pass, ready, request),
        Err(_) => Err(office.abandon(pass, ready)),
    }
}

// Makes the step whose request is made.
fn enact_sent<D: Disk>(
    office: &mut Office<'_, D>,
    pass: &mut Pass<'_, Call>,
    ready: Ready,
    request: Option<Octets>,
) -> Result<Sending, OfficeFault>
    requires book { pass.old.book ≡ office.old.book }
    requires ready { (first : OfficeState D) × Prepares D.Disk first office.old ready }
    ensures sends { (first : OfficeState D) (back : Option (List ℕ)) → Prepares D.Disk first office.old ready
        → IsRequestOf back ready.plan.outcome.reply request
        → Sends D.Disk back first office.new pass.old pass.new ready.event result }
{
    match office.enact(pass, ready) {
        Ok(reply) => Ok(Sending { reply, request }),
        Err(fault) => {
            drop(request);
            Err(fault)
        }
    }
}

// The request of a reply.
fn request_of(alloc: Global, reply: &Reply, back: Option<&Text>) -> Result<Option<Octets>, NoMemory>
    ensures { IfOk result (λ request. IsRequestOf (option_copied back.entry) reply.now request) }
{
    match reply {
        Reply::Push { address, message } | Reply::Request { address, message } => {
            Ok(Some(request_to(alloc, address, message)?))
        }
        Reply::Answer(message) => match back {
            Some(address) => Ok(Some(request_to(alloc, address, message)?)),
            None => Ok(None),
        },
        _ => Ok(None),
    }
}

// The request that carries a message to an address. The addresses of P-Modes have the form of one.
fn request_to(alloc: Global, address: &Text, message: &Message) -> Result<Octets, NoMemory>
    ensures { IfOk result (IsRequestTo address.now message.now) }
{
    if !has_address_form(address.bytes()) {
        return Err(NoMemory);
    }
    let wire = write_message(alloc, message)?;
    let media = wire.media.bytes();
    let request = write_request(alloc, address, Some(media), wire.body.bytes());
    drop(wire);
    request
}

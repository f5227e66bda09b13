//! The submission of a document.
ghost use Rattle.std.specs.Prelude.{◌≡◌, ℕ, List, All, IfOk};
ghost use Rattle.as4_flow.specs.Flow.{Told};
ghost use Rattle.as4_host.specs.Lists.{first_of};
ghost use Rattle.clients.specs.Answered.{IsAnswerTo};
ghost use Rattle.clients.specs.Causes.{RisesIf, submit_faults, submit_reads, submit_writes};
ghost use Rattle.clients.specs.Endings.{submit_end};
ghost use Rattle.clients.specs.Requests.{submit_request};
ghost use Rattle.clients.specs.Runs.{Submits};
ghost use Rattle.clients.specs.Sent.{SendsOnce};

use crate::ending::{SubmitEnd, submit_lost};
use crate::exchange::exchange_made;
use crate::requests::submit_request;
use as4_host::Host;
use as4_http::Response;
use as4_values::{NoMemory, Octets};
use link_exchange::Lost;
use std::alloc::Global;

/// Submits a document to the service at an address, by a mode. An empty conversation is none, and an empty media text
/// isn't sent.
pub fn submit<H: Host>(
    alloc: Global,
    host: &mut H,
    address: &str,
    mode: &[u8],
    conversation: &[u8],
    media: &[u8],
    document: &[u8],
) -> SubmitEnd
    ensures submits { Submits H.Host H.Dialer.Link address.now
        (submit_request address.now mode.now conversation.now media.now document.now) host.old host.new result }
    ensures reads { RisesIf (submit_reads result) (H.reads host.old) (H.reads host.new) }
    ensures writes { RisesIf (submit_writes result) (H.writes host.old) (H.writes host.new) }
    ensures faults { RisesIf (submit_faults result) (H.fault_count host.old) (H.fault_count host.new) }
    ensures answered { Told (first_of (H.answers host.old)) (IsAnswerTo result) }
    ensures sent { SendsOnce (submit_request address.now mode.now conversation.now media.now document.now) (H.sent host.new) result }
    ensures addresses { Told (H.addresses host.new) (All (λ a. a ≡ address.now)) }
{
    let request = submit_request(alloc, address, mode, conversation, media, document);
    submit_made(alloc, host, address, request)
}

// Submits a document by its request, if there was memory to make it.
fn submit_made<H: Host>(
    alloc: Global,
    host: &mut H,
    address: &str,
    request: Result<Octets, NoMemory>,
) -> SubmitEnd
    ensures { (text : List ℕ) → IfOk request (λ r. r ≡ text)
        → Submits H.Host H.Dialer.Link address.now text host.old host.new result }
{
    let mut link = host.dialer();
    let told = exchange_made(alloc, &mut link, address, request);
    host.settle_dialer(link);
    submitted(told)
}

// How a submission ends with this response.
fn submitted(told: Result<Response, Lost>) -> SubmitEnd
    ensures { result ≡ submit_end told }
{
    match told {
        Ok(response) => {
            let Response {
                status,
                media,
                body,
            } = response;
            drop(media);
            if status == 200 {
                SubmitEnd::Accepted(body)
            } else {
                SubmitEnd::Refused { status, text: body }
            }
        }
        Err(lost) => submit_lost(lost),
    }
}

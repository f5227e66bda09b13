//! One exchange over a link: a request goes out, and its response comes back.
ghost use Rattle.std.specs.Prelude.{◌≡◌};
ghost use Rattle.as4_flow.specs.Flow.{between, flow};
ghost use Rattle.link_exchange.specs.Exchanges.{Exchanges, Talks};

use as4_flow::{Sink, Source, send_all};
use as4_host::{Link, LinkRefusal};
use as4_http::{HttpRefusal, Intake, Response};
use std::alloc::Global;

/// Why no response came.
#[derive(Clone, Copy, Debug, PartialEq, Eq)]
pub enum Lost {
    /// No connection was opened.
    Unreached,
    /// The request wasn't sent whole.
    Unsent,
    /// No response was read.
    Unread(HttpRefusal),
    /// Memory ran out, and nobody was asked.
    NoMemory,
}

/// Sends the request over a connection to the address, and reads the response. Then the connection closes.
pub fn exchange<L: Link>(
    alloc: Global,
    link: &mut L,
    address: &str,
    request: &[u8],
) -> Result<Response, Lost>
    ensures { Exchanges L.Link link.old link.new address.now request.now result }
{
    match link.open(address) {
        Ok((source, sink)) => {
            let (mut source, mut sink) = (source, sink);
            let response = talk(alloc, &mut source, &mut sink, request);
            link.settle(source, sink);
            response
        }
        Err(LinkRefusal::LinkFailed) => Err(Lost::Unreached),
        Err(LinkRefusal::NoMemory) => Err(Lost::NoMemory),
    }
}

// Writes the request, and reads the response.
fn talk<S: Source, K: Sink>(
    alloc: Global,
    source: &mut S,
    sink: &mut K,
    request: &[u8],
) -> Result<Response, Lost>
    ensures { Talks request.now result (between (flow (S.left source.old) (K.taken sink.old) (S.faults source.old) (K.faults sink.old))
        (flow (S.left source.new) (K.taken sink.new) (S.faults source.new) (K.faults sink.new))) }
{
    match send_all(sink, request) {
        Ok(()) => match Intake::new(alloc).read_response(source) {
            Ok((response, intake)) => {
                drop(intake);
                Ok(response)
            }
            Err(refusal) => Err(Lost::Unread(refusal)),
        },
        Err(_) => Err(Lost::Unsent),
    }
}

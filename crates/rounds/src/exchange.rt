//! An exchange with the address of a message.
ghost use Rattle.std.specs.Prelude.{◌≡◌};
ghost use Rattle.link_exchange.specs.Exchanges.{Exchanges};

use as4_host::Link;
use as4_http::Response;
use as4_values::Text;
use link_exchange::Lost;
use std::alloc::Global;

/// Sends the request over a connection to the address, and reads the response. Then the connection closes.
pub(crate) fn exchange<L: Link>(
    alloc: Global,
    link: &mut L,
    address: &Text,
    request: &[u8],
) -> Result<Response, Lost>
    ensures { Exchanges L.Link link.old link.new address.now request.now result }
{
    let Ok(place) = str::from_utf8(address.bytes()) else {
        return Err(Lost::NoMemory);
    };
    link_exchange::exchange(alloc, link, place, request)
}

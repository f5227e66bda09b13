//! A request that may not have been made, and its response.
ghost use Rattle.std.specs.Prelude.{◌≡◌, ℕ, List, IfOk};
ghost use Rattle.link_exchange.specs.Exchanges.{Exchanges};

use as4_host::Link;
use as4_http::Response;
use as4_values::{NoMemory, Octets};
use link_exchange::{Lost, exchange};
use std::alloc::Global;

/// Sends a request, if there was memory to make it.
pub(crate) fn exchange_made<L: Link>(
    alloc: Global,
    link: &mut L,
    address: &str,
    made: Result<Octets, NoMemory>,
) -> Result<Response, Lost>
    ensures { (request : List ℕ) → IfOk made (λ text. text ≡ request)
        → Exchanges L.Link link.old link.new address.now request result }
{
    match made {
        Ok(request) => {
            let told = exchange(alloc, link, address, request.bytes());
            drop(request);
            told
        }
        Err(_) => Err(Lost::NoMemory),
    }
}

//! A message is sent, and its response is handled.
ghost use Rattle.std.specs.Prelude.{◌≡◌, IsTrue};
ghost use Rattle.std.specs.Option.{option_copied};
ghost use Rattle.as4_flow.specs.Draws.{Draws};
ghost use Rattle.exchange_model.specs.Coming.{may_come};
ghost use Rattle.sessions.specs.Answering.{IsSamePass};
ghost use Rattle.sessions.specs.Shared.{IsLegal, SendsUnder};
ghost use Rattle.rounds.specs.Rounds.{Delivers, using};

use crate::ending::{halted, lost};
use crate::exchange::exchange;
use crate::receiving::brought;
use as4_disk::Disk;
use as4_flow::{Clock, Nonces};
use as4_host::Link;
use as4_values::{Octets, Text};
use exchange_model::{Event, What};
use office::{Call, OfficeFault};
use pass_book::Pass;
use sessions::{Opening, RoundEnd, Sending, SharedOffice};
use std::alloc::Global;
use std::sync::{Mutex, Wait};

/// Makes an event's step under the lock, and the request of its reply.
pub(crate) fn send_under<R: Wait, D: Disk, J: Opening>(
    rt: &R,
    alloc: Global,
    office: &Mutex<SharedOffice<'_, D, J>>,
    pass: &mut Pass<'_, Call>,
    event: Event,
    back: Option<&Text>,
) -> Result<Sending, OfficeFault>
    requires book { pass.old.book ≡ J.book }
    ensures sends { SendsUnder D.Disk J.Opening (option_copied back.entry) pass.old pass.new event result }
    ensures legal { IsLegal J.Opening pass.old.list → IsLegal J.Opening pass.new.list }
    ensures pass { IsSamePass pass.old pass.new }
{
    office.lock(rt).send(alloc, pass, event, back)
}

/// Sends a request to the address, and handles the message of its response. An answer to that message goes back to the
/// address `back`.
pub(crate) fn deliver<R: Wait, D: Disk, J: Opening, L: Link, C: Clock, N: Nonces>(
    rt: &R,
    alloc: Global,
    office: &Mutex<SharedOffice<'_, D, J>>,
    pass: &mut Pass<'_, Call>,
    link: &mut L,
    address: &Text,
    request: Octets,
    back: Option<&Text>,
    clock: &mut C,
    nonces: &mut N,
) -> Result<Sending, RoundEnd>
    requires book { pass.old.book ≡ J.book }
    ensures delivers { Delivers D.Disk J.Opening L.Link C.Clock N.Nonces address.now request (option_copied back.entry)
        (using pass.old link.old clock.old nonces.old) (using pass.new link.new clock.new nonces.new) result }
    ensures legal { IsLegal J.Opening pass.old.list → IsLegal J.Opening pass.new.list }
    ensures pass { IsSamePass pass.old pass.new }
{
    let told = exchange(alloc, link, address, request.bytes());
    drop(request);
    let response = match told {
        Ok(response) => response,
        Err(why) => return Err(lost(why)),
    };
    let what = match brought(alloc, response) {
        Ok(what) => what,
        Err(end) => return Err(end),
    };
    let event = drawn(clock, nonces, what);
    match send_under(rt, alloc, office, pass, event, back) {
        Ok(sending) => Ok(sending),
        Err(fault) => Err(halted(fault)),
    }
}

/// The event of this kind, with the moment and a nonce.
pub(crate) fn drawn<C: Clock, N: Nonces>(clock: &mut C, nonces: &mut N, what: What) -> Event
    requires comes { IsTrue (may_come what) }
    ensures what { result.what ≡ what }
    ensures moment { Draws result.stamp (C.to_come clock.old) (C.to_come clock.new) }
    ensures nonce { Draws result.nonce (N.to_come nonces.old) (N.to_come nonces.new) }
{
    let stamp = clock.now();
    let nonce = nonces.next();
    Event { stamp, nonce, what }
}

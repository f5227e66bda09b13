//! The round that pushes.
ghost use Rattle.std.specs.Prelude.{◌≡◌};
ghost use Rattle.sessions.specs.Answering.{IsSamePass};
ghost use Rattle.sessions.specs.Shared.{IsLegal};
ghost use Rattle.rounds.specs.Rounds.{EndsAs, Pushes, Sends, using};

use crate::delivering::{deliver, drawn, send_under};
use crate::ending::{ended_by, halted};
use as4_disk::Disk;
use as4_flow::{Clock, Nonces};
use as4_host::Link;
use as4_values::{Octets, Text};
use exchange_model::{Reply, What};
use office::Call;
use pass_book::Pass;
use sessions::{Opening, RoundEnd, Sending, SharedOffice};
use std::alloc::Global;
use std::sync::{Mutex, Wait};

/// Takes the message that is due first, sends it to its address, and handles the response. `Nothing` comes if none is due.
#[tactic(auto, unfolding(exchange_model::specs::Coming::may_come))]
pub fn push_round<R: Wait, D: Disk, J: Opening, L: Link, C: Clock, N: Nonces>(
    rt: &R,
    alloc: Global,
    office: &Mutex<SharedOffice<'_, D, J>>,
    pass: &mut Pass<'_, Call>,
    link: &mut L,
    clock: &mut C,
    nonces: &mut N,
) -> RoundEnd
    requires book { pass.old.book ≡ J.book }
    ensures pushes { Pushes D.Disk J.Opening L.Link C.Clock N.Nonces
        (using pass.old link.old clock.old nonces.old) (using pass.new link.new clock.new nonces.new) result }
    ensures legal { IsLegal J.Opening pass.old.list → IsLegal J.Opening pass.new.list }
    ensures pass { IsSamePass pass.old pass.new }
{
    let event = drawn(clock, nonces, What::Take);
    let Sending { reply, request } = match send_under(rt, alloc, office, pass, event, None) {
        Ok(sending) => sending,
        Err(fault) => return halted(fault),
    };
    match reply {
        Reply::Push { address, message } => {
            drop(message);
            let without = RoundEnd::Done;
            let end = send_out(
                rt, alloc, office, pass, link, &address, request, without, clock, nonces,
            );
            drop(address);
            end
        }
        other => {
            drop(request);
            ended_by(other)
        }
    }
}

/// Sends the request to the address, if there is one, and handles the response. Without a request the round ends as given.
pub(crate) fn send_out<R: Wait, D: Disk, J: Opening, L: Link, C: Clock, N: Nonces>(
    rt: &R,
    alloc: Global,
    office: &Mutex<SharedOffice<'_, D, J>>,
    pass: &mut Pass<'_, Call>,
    link: &mut L,
    address: &Text,
    request: Option<Octets>,
    without: RoundEnd,
    clock: &mut C,
    nonces: &mut N,
) -> RoundEnd
    requires book { pass.old.book ≡ J.book }
    ensures sends { Sends D.Disk J.Opening L.Link C.Clock N.Nonces address.now request without
        (using pass.old link.old clock.old nonces.old) (using pass.new link.new clock.new nonces.new) result }
    ensures legal { IsLegal J.Opening pass.old.list → IsLegal J.Opening pass.new.list }
    ensures pass { IsSamePass pass.old pass.new }
{
    let Some(request) = request else {
        return without;
    };
    drop(without);
    ended(deliver(
        rt, alloc, office, pass, link, address, request, None, clock, nonces,
    ))
}

// How a round ends after its last exchange.
fn ended(sent: Result<Sending, RoundEnd>) -> RoundEnd
    ensures { EndsAs sent result }
{
    match sent {
        Ok(Sending { reply, request }) => {
            drop(request);
            ended_by(reply)
        }
        Err(end) => end,
    }
}

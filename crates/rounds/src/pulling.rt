//! The round that pulls.
ghost use Rattle.std.specs.Prelude.{◌≡◌, Bool, false};
ghost use Rattle.sessions.specs.Answering.{IsSamePass};
ghost use Rattle.sessions.specs.Shared.{IsLegal};
ghost use Rattle.rounds.specs.Rounds.{PullsBy, PullsWith, pulled, using};

use crate::delivering::{deliver, drawn, send_under};
use crate::ending::{ended_by, halted};
use crate::pushing::send_out;
use as4_disk::Disk;
use as4_flow::{Clock, Nonces};
use as4_host::Link;
use as4_values::{Octets, PlainData, Text};
use exchange_model::{Reply, What};
use office::Call;
use pass_book::Pass;
use sessions::{Opening, RoundEnd, Sending, SharedOffice};
use std::alloc::Global;
use std::sync::{Mutex, Wait};

/// How a round that pulls ended, and whether its response had a message that was answered: if it had, the channel may
/// have more.
#[derive(Drop)]
pub struct Pulled {
    pub end: RoundEnd,
    pub received: bool,
}

/// Sends a pull request by the mode of this name, handles the response, and sends the answer that this gets to the same
/// address. `NoMode` comes if there is no pull mode of this name.
pub fn pull_round<R: Wait, D: Disk, J: Opening, L: Link, C: Clock, N: Nonces>(
    rt: &R,
    alloc: Global,
    office: &Mutex<SharedOffice<'_, D, J>>,
    pass: &mut Pass<'_, Call>,
    mode: &Text,
    link: &mut L,
    clock: &mut C,
    nonces: &mut N,
) -> RoundEnd
    requires book { pass.old.book ≡ J.book }
    ensures pulls { (received : Bool) × PullsBy D.Disk J.Opening L.Link C.Clock N.Nonces mode.now
        (using pass.old link.old clock.old nonces.old) (using pass.new link.new clock.new nonces.new)
        (pulled result received) }
    ensures legal { IsLegal J.Opening pass.old.list → IsLegal J.Opening pass.new.list }
    ensures pass { IsSamePass pass.old pass.new }
{
    pull_one(rt, alloc, office, pass, mode, link, clock, nonces).end
}

/// The same round, which also says whether it received a message.
#[tactic(auto, unfolding(exchange_model::specs::Coming::may_come))]
pub fn pull_one<R: Wait, D: Disk, J: Opening, L: Link, C: Clock, N: Nonces>(
    rt: &R,
    alloc: Global,
    office: &Mutex<SharedOffice<'_, D, J>>,
    pass: &mut Pass<'_, Call>,
    mode: &Text,
    link: &mut L,
    clock: &mut C,
    nonces: &mut N,
) -> Pulled
    requires book { pass.old.book ≡ J.book }
    ensures pulls { PullsBy D.Disk J.Opening L.Link C.Clock N.Nonces mode.now
        (using pass.old link.old clock.old nonces.old) (using pass.new link.new clock.new nonces.new) result }
    ensures legal { IsLegal J.Opening pass.old.list → IsLegal J.Opening pass.new.list }
    ensures pass { IsSamePass pass.old pass.new }
{
    let Ok(mode) = mode.try_clone(alloc) else {
        return unanswered(RoundEnd::NoMemory);
    };
    let event = drawn(clock, nonces, What::Ask { mode });
    let Sending { reply, request } = match send_under(rt, alloc, office, pass, event, None) {
        Ok(sending) => sending,
        Err(fault) => return unanswered(halted(fault)),
    };
    match reply {
        Reply::Request { address, message } => {
            drop(message);
            let end = pull(
                rt, alloc, office, pass, link, &address, request, clock, nonces,
            );
            drop(address);
            end
        }
        other => {
            drop(request);
            unanswered(ended_by(other))
        }
    }
}

// Sends a pull request, and then the answer to what it brings.
fn pull<R: Wait, D: Disk, J: Opening, L: Link, C: Clock, N: Nonces>(
    rt: &R,
    alloc: Global,
    office: &Mutex<SharedOffice<'_, D, J>>,
    pass: &mut Pass<'_, Call>,
    link: &mut L,
    address: &Text,
    request: Option<Octets>,
    clock: &mut C,
    nonces: &mut N,
) -> Pulled
    requires book { pass.old.book ≡ J.book }
    ensures pulls { PullsWith D.Disk J.Opening L.Link C.Clock N.Nonces address.now request
        (using pass.old link.old clock.old nonces.old) (using pass.new link.new clock.new nonces.new) result }
    ensures legal { IsLegal J.Opening pass.old.list → IsLegal J.Opening pass.new.list }
    ensures pass { IsSamePass pass.old pass.new }
{
    let Some(request) = request else {
        return unanswered(RoundEnd::Done);
    };
    let first = deliver(
        rt,
        alloc,
        office,
        pass,
        link,
        address,
        request,
        Some(address),
        clock,
        nonces,
    );
    let Sending { reply, request } = match first {
        Ok(sending) => sending,
        Err(end) => return unanswered(end),
    };
    let received = request.is_some();
    let without = ended_by(reply);
    let end = send_out(
        rt, alloc, office, pass, link, address, request, without, clock, nonces,
    );
    Pulled { end, received }
}

// The round ended without a message.
fn unanswered(end: RoundEnd) -> Pulled
    ensures { result ≡ pulled end false }
{
    Pulled {
        end,
        received: false,
    }
}

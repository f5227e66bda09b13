//! How a handler gives back what its workers had.
ghost use Rattle.std.specs.Prelude.{◌≡◌, false, [], ◌∷◌, All};
ghost use Rattle.handler.specs.Crews.{IsOfBook};
ghost use Rattle.handler.specs.Dismissal.{AllRetire, Retires, SettlesDoorIf, address_of, gathering};
ghost use Rattle.handler.specs.Hosts.{Knows, doors_of};

use crate::setup::Setup;
use as4_host::Host;
use office::Call;
use pass_book::Pass;
use workers::{Job, Worker};

/// Gives back what the workers had, the last one's first, and joins their passes. True if memory ran out for a turn of
/// one of them.
pub(crate) fn dismiss<'a, H: Host>(
    host: &mut H,
    setup: Setup<'_>,
    pass: &mut Pass<'a, Call>,
    crew: Vec<Worker<'a, H::Entrance, H::Dialer, H::Time, H::Dice>>,
) -> bool
    requires names { Knows H.Host (doors_of setup) host.old }
    requires books { All (IsOfBook pass.old.book) crew.items }
    ensures retire { AllRetire H.Host H.Entrance.Door H.Dialer.Link setup.entry crew.entry.items
        (gathering host.old pass.old false) (gathering host.new pass.new result) }
    ensures names { H.names host.new ≡ H.names host.old }
    ensures book { pass.new.book ≡ pass.old.book }
{
    let mut crew = crew;
    let mut is_starved = false;
    while let Some(worker) = crew.pop() {
        is_starved |= retire(host, setup, pass, worker);
    }
    drop(crew);
    is_starved
}

// Gives back what one worker had. True if memory ran out for one of its turns.
fn retire<'a, H: Host>(
    host: &mut H,
    setup: Setup<'_>,
    pass: &mut Pass<'a, Call>,
    worker: Worker<'a, H::Entrance, H::Dialer, H::Time, H::Dice>,
) -> bool
    requires names { Knows H.Host (doors_of setup) host.old }
    requires book { worker.pass.book ≡ pass.old.book }
    ensures retires { Retires H.Host H.Entrance.Door H.Dialer.Link setup.entry worker.entry
        (gathering host.old pass.old false) (gathering host.new pass.new result) }
    ensures names { H.names host.new ≡ H.names host.old }
    ensures book { pass.new.book ≡ pass.old.book }
{
    let Worker {
        job,
        pass: other,
        door,
        link,
        clock,
        nonces,
        turns: _,
        starved,
    } = worker;
    pass.join(other);
    settle_door(host, address_of(&job, setup), door);
    host.settle_dialer(link);
    drop((job, clock, nonces));
    starved != 0
}

// The address of the door at which a worker with this job serves.
fn address_of<'a>(job: &Job, setup: Setup<'a>) -> &'a str
    ensures { result.now ≡ address_of setup.entry job.now }
{
    match job {
        Job::Local => setup.local,
        _ => setup.peer,
    }
}

// Gives a door back, if there is one.
fn settle_door<H: Host>(host: &mut H, address: &str, door: Option<H::Entrance>)
    requires names { Knows H.Host (address.now ∷ []) host.old }
    ensures { SettlesDoorIf H.Host H.Entrance.Door H.Dialer.Link address.now door host.old host.new }
{
    if let Some(door) = door {
        host.settle_door(address, door);
    }
}

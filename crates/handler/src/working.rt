//! What a handler does with what it opened.
ghost use Rattle.std.specs.Prelude.{◌≡◌, ◌≤◌, ◌^◌, List, [], length, vec_capacity};
ghost use Rattle.handler.specs.Announcing.{head_of};
ghost use Rattle.handler.specs.Hosts.{AreOf, Knows, doors_of, files_of};
ghost use Rattle.handler.specs.Opening.{OpensOffice};
ghost use Rattle.handler.specs.Crews.{IsNew};
ghost use Rattle.handler.specs.Working.{Works, end_of};
ghost use Rattle.mode_values.specs.declared.mode.Mode.{Mode};

use crate::crew::recruit;
use crate::dismissing::dismiss;
use crate::ending::HandlerEnd;
use crate::opening::Opened;
use crate::running::{Ran, run_if};
use crate::setup::Setup;
use as4_disk::Paths;
use as4_flow::Sink;
use as4_host::{Door, Host, Link};
use as4_values::Text;
use std::alloc::Global;
use std::sync::Wait;
use std::thread::Threads;
use workers::Worker;

/// What a handler takes memory for before it opens anything.
#[derive(Drop)]
pub(crate) struct Kit<'a, W: Drop, L: Drop, C: Drop, N: Drop> {
    /// The names of the modes by which it pulls.
    pub(crate) pulls: Vec<Text>,
    /// The beginning of its line, with room for the rest.
    pub(crate) head: Vec<u8>,
    /// Room for its workers.
    pub(crate) crew: Vec<Worker<'a, W, L, C, N>>,
}

/// Hires the workers, runs them, and gives everything back. If not all are hired, none begins.
pub(crate) fn work<'a, R: Threads + Wait + Sync, H: Host, E: Sink>(
    rt: &R,
    alloc: Global,
    host: &mut H,
    setup: Setup<'_>,
    journal: Paths<'_>,
    kit: Kit<'a, H::Entrance, H::Dialer, H::Time, H::Dice>,
    opened: Opened<'a, H::Entrance, H::Store>,
    errors: &mut E,
) -> HandlerEnd
where
    H::Store: Send,
    H::Entrance: Send,
    <H::Entrance as Door>::In: Send,
    <H::Entrance as Door>::Out: Send,
    H::Dialer: Send,
    <H::Dialer as Link>::In: Send,
    <H::Dialer as Link>::Out: Send,
    H::Time: Send,
    H::Dice: Send,
    requires paths { AreOf setup.journal.now journal }
    requires head { kit.head.items ≡ head_of setup }
    requires kit { (length kit.pulls.items ≤ 2) × (kit.crew.items ≡ []) × (16 ≤ vec_capacity kit.crew) }
    requires peers { (1 ≤ setup.workers) × (setup.workers ≤ 11) }
    requires keep { (1 ≤ setup.keep) × (setup.keep ≤ 1000) }
    requires names { Knows H.Host (doors_of setup) host.old × Knows H.Host (files_of setup.journal.now) host.old }
    requires doors { IsNew H.Entrance.Door opened.doors.peer × IsNew H.Entrance.Door opened.doors.local }
    requires office { (modes : List Mode) × (disk : H.Store) × OpensOffice H.Store.Disk disk modes opened.office opened.pass × (H.Store.fault_count disk ≡ 0) }
    ensures works { Works H.Host H.Entrance.Door H.Dialer.Link H.Store.Disk H.Time.Clock H.Dice.Nonces setup.entry (E.taken errors.old) (E.taken errors.new) kit.entry.pulls.items opened.entry.doors.peer opened.entry.doors.local
        opened.entry.office host.old host.new result }
    ensures counted { E.faults errors.old ≤ E.faults errors.new }
{
    let Kit { pulls, head, crew } = kit;
    let mut crew = crew;
    let Opened {
        doors,
        office,
        pass,
    } = opened;
    let mut pass = pass;
    let is_whole = recruit(
        host,
        &mut pass,
        &mut crew,
        pulls,
        doors,
        setup.workers,
        setup.turns,
    );
    let (office, ran) = run_if(
        rt, alloc, office, &mut pass, &mut crew, errors, head, is_whole, setup.keep,
    );
    let is_starved = dismiss(host, setup, &mut pass, crew);
    let mut office = office;
    office.show(&mut pass);
    drop(pass);
    host.settle_disk(journal, office.into_disk());
    end_of(ran, is_starved)
}

// How a handler ends that came so far.
fn end_of(ran: Ran, is_starved: bool) -> HandlerEnd
    ensures { result ≡ end_of ran is_starved }
{
    match ran {
        Ran::Served if is_starved => HandlerEnd::NoMemory,
        Ran::Served => HandlerEnd::Served,
        Ran::NoMemory => HandlerEnd::NoMemory,
        Ran::DiskFault => HandlerEnd::HostFault,
    }
}

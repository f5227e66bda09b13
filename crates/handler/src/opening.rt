//! What a handler opens. If something isn't opened, it gives back what it opened before.
ghost use Rattle.std.specs.Prelude.{IfErr, IfOk};
ghost use Rattle.handler.specs.Hosts.{AreOf, Knows, doors_of, files_of};
ghost use Rattle.handler.specs.Opening.{FailsToOpen, OpensAll, OpensDoors, OpensOfficeOn};

use crate::ending::{HandlerEnd, refused, unopened};
use crate::setup::Setup;
use as4_disk::{Disk, Paths};
use as4_host::Host;
use office::{Call, Office};
use pass_book::Pass;
use pmodes::Modes;
use std::alloc::Global;

/// The doors at which partners and local applications are served.
pub(crate) struct Doors<W> {
    pub(crate) peer: W,
    pub(crate) local: W,
}

/// What was opened.
pub(crate) struct Opened<'a, W, D: Disk> {
    pub(crate) doors: Doors<W>,
    pub(crate) office: Office<'a, D>,
    pub(crate) pass: Pass<'a, Call>,
}

/// Opens the doors, and then the office. If the office isn't opened, the doors are given back with their guests.
pub(crate) fn open_all<'a, H: Host>(
    alloc: Global,
    host: &mut H,
    setup: Setup<'_>,
    journal: Paths<'_>,
    modes: Modes,
) -> Result<Opened<'a, H::Entrance, H::Store>, HandlerEnd>
    requires paths { AreOf setup.journal.now journal }
    ensures opens { IfOk result (λ o. OpensAll H.Host H.Store.Disk H.Entrance.Door setup.entry modes host.old host.new
        o.doors.peer o.doors.local o.office o.pass) }
    ensures fails { IfErr result (FailsToOpen H.Host setup.entry host.old host.new) }
    ensures names { IfOk result (λ _. Knows H.Host (doors_of setup.entry) host.new × Knows H.Host (files_of setup.entry.journal.now) host.new) }
{
    let doors = match open_doors(host, setup) {
        Ok(doors) => doors,
        Err(end) => {
            drop(modes);
            return Err(end);
        }
    };
    match open_office(alloc, host, setup, journal, modes) {
        Ok((office, pass)) => Ok(Opened {
            doors,
            office,
            pass,
        }),
        Err(end) => {
            let Doors { peer, local } = doors;
            host.settle_door(setup.local, local);
            host.settle_door(setup.peer, peer);
            Err(end)
        }
    }
}

// Opens both doors, or none.
fn open_doors<H: Host>(host: &mut H, setup: Setup<'_>) -> Result<Doors<H::Entrance>, HandlerEnd>
    ensures opens { IfOk result (λ doors. OpensDoors H.Host H.Entrance.Door setup.entry host.old host.new doors.peer doors.local) }
    ensures fails { IfErr result (FailsToOpen H.Host setup.entry host.old host.new) }
    ensures names { IfOk result (λ _. Knows H.Host (doors_of setup.entry) host.new) }
{
    let peer = match host.open_door(setup.peer) {
        Ok(peer) => peer,
        Err(refusal) => return Err(refused(refusal)),
    };
    match host.open_door(setup.local) {
        Ok(local) => Ok(Doors { peer, local }),
        Err(refusal) => {
            host.settle_door(setup.peer, peer);
            Err(refused(refusal))
        }
    }
}

// Opens the store, and the office on it. If the office isn't opened, the store is given back with what its disk reads.
fn open_office<'a, H: Host>(
    alloc: Global,
    host: &mut H,
    setup: Setup<'_>,
    journal: Paths<'_>,
    modes: Modes,
) -> Result<(Office<'a, H::Store>, Pass<'a, Call>), HandlerEnd>
    requires paths { AreOf setup.journal.now journal }
    ensures opens { IfOk result (λ o. OpensOfficeOn H.Host H.Store.Disk setup.entry.journal.now modes host.old host.new o.0 o.1) }
    ensures fails { IfErr result (FailsToOpen H.Host setup.entry host.old host.new) }
    ensures names { IfOk result (λ _. Knows H.Host (files_of setup.entry.journal.now) host.new) }
{
    let disk = match host.open_disk(journal) {
        Ok(disk) => disk,
        Err(refusal) => {
            drop(modes);
            return Err(refused(refusal));
        }
    };
    match Office::open(alloc, disk, modes) {
        Ok(opened) => Ok(opened),
        Err((fault, disk)) => {
            host.settle_disk(journal, disk);
            Err(unopened(fault))
        }
    }
}

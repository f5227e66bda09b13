//! The relaying of the messages of the journal at a path.
ghost use Rattle.std.specs.Prelude.{◌≡◌, ◌⊎◌, ◌∷◌, []};
ghost use Rattle.handler.specs.Hosts.{AreOf, files_of};
ghost use Rattle.handler.specs.Stores.{AreModesOf, LeavesStore};
ghost use Rattle.relayer.specs.Ends.{IsJudged};
ghost use Rattle.relayer.specs.Relaying.{TellsFaults, moment};
ghost use Rattle.relayer.specs.Running.{LacksMemory, OpensAndRelays, RelaysBy, RelaysWith, Touches, Works};

use crate::ending::{RelayRefusal, RelayerEnd, judged, refused, unopened, unread};
use crate::relaying::relay_all;
use as4_disk::{Disk, Paths};
use as4_flow::{Clock, Nonces, Sink};
use as4_host::Host;
use as4_values::{Text, TextRefusal};
use handler::read_modes;
use office::{Call, Office};
use pass_book::Pass;
use pmodes::Modes;
use std::alloc::Global;
use std::time::Duration;

/// Relays the messages that the endpoint of a journal has received, at most `count` of them, onwards by the mode of this
/// name. It writes a line for each. No handler may run on the journal meanwhile: who opens it second fails.
pub fn relay_journal<H: Host, O: Sink>(
    alloc: Global,
    host: &mut H,
    modes: &str,
    journal: &str,
    mode: &str,
    count: u64,
    output: &mut O,
) -> RelayerEnd
    ensures relays { (end : RelayerEnd) × RelaysBy H.Host H.Store.Disk H.Time.Clock H.Dice.Nonces modes.now journal.now mode.now count host.old host.new
        (O.taken output.old) (O.taken output.new) end × IsJudged end (H.fault_count host.old) (H.fault_count host.new) result }
    ensures touches { Touches H.Host (modes.now ∷ files_of journal.now) journal.now host.old host.new }
    ensures store { LeavesStore H.Host (AreModesOf (H.file host.old modes.now)) journal.now host.old host.new }
    ensures faults { TellsFaults result (O.faults output.old) (O.faults output.new) }
{
    let before = host.faults();
    let end = match read_modes(alloc, host, modes) {
        Ok(modes) => prepare(alloc, host, modes, journal, mode, count, output),
        Err(end) => unread(end),
    };
    judged(end, before, host.faults())
}

// Reads the name of the mode, and then relays. No mode has a name that is no text.
fn prepare<H: Host, O: Sink>(
    alloc: Global,
    host: &mut H,
    modes: Modes,
    journal: &str,
    mode: &str,
    count: u64,
    output: &mut O,
) -> RelayerEnd
    ensures relays { RelaysWith H.Host H.Store.Disk H.Time.Clock H.Dice.Nonces journal.now mode.now count modes host.old host.new (O.taken output.old) (O.taken output.new) result }
    ensures faults { TellsFaults result (O.faults output.old) (O.faults output.new) }
{
    match Text::read(alloc, mode.as_bytes()) {
        Ok(name) => {
            let end = relay_by(alloc, host, modes, journal, &name, count, output);
            drop(name);
            end
        }
        Err(TextRefusal::BadText { .. }) => {
            drop(modes);
            RelayerEnd::Refused(RelayRefusal::NoMode)
        }
        Err(TextRefusal::NoMemory) => {
            drop(modes);
            RelayerEnd::NoMemory
        }
    }
}

// Takes the memory for the paths, and then opens the journal and relays.
fn relay_by<H: Host, O: Sink>(
    alloc: Global,
    host: &mut H,
    modes: Modes,
    journal: &str,
    mode: &Text,
    count: u64,
    output: &mut O,
) -> RelayerEnd
    ensures relays { LacksMemory host.old host.new (O.taken output.old) (O.taken output.new) result
        ⊎ OpensAndRelays H.Host H.Store.Disk H.Time.Clock H.Dice.Nonces journal.now mode.now count modes host.old host.new (O.taken output.old) (O.taken output.new) result }
    ensures faults { TellsFaults result (O.faults output.old) (O.faults output.new) }
{
    match (
        format!(in alloc; "{journal}.1"),
        format!(in alloc; "{journal}.s"),
    ) {
        (Ok(leaf1), Ok(selector)) => {
            let paths = Paths {
                selector: selector.as_str(),
                leaf0: journal,
                leaf1: leaf1.as_str(),
            };
            let end = open_and_relay(alloc, host, modes, journal, paths, mode, count, output);
            drop(leaf1);
            drop(selector);
            end
        }
        (leaf1, selector) => {
            drop(leaf1);
            drop(selector);
            drop(modes);
            RelayerEnd::NoMemory
        }
    }
}

// Opens the journal, relays, and gives the journal back.
fn open_and_relay<H: Host, O: Sink>(
    alloc: Global,
    host: &mut H,
    modes: Modes,
    journal: &str,
    paths: Paths<'_>,
    mode: &Text,
    count: u64,
    output: &mut O,
) -> RelayerEnd
    requires paths { AreOf journal.now paths }
    ensures relays { OpensAndRelays H.Host H.Store.Disk H.Time.Clock H.Dice.Nonces journal.now mode.now count modes host.old host.new (O.taken output.old) (O.taken output.new) result }
    ensures faults { TellsFaults result (O.faults output.old) (O.faults output.new) }
{
    let disk = match host.open_disk(paths) {
        Ok(disk) => disk,
        Err(refusal) => {
            drop(modes);
            return refused(refusal);
        }
    };
    match Office::open(alloc, disk, modes) {
        Ok((office, pass)) => {
            let mut clock = host.time(Duration::ZERO);
            let mut nonces = host.dice();
            let (disk, end) = work(
                alloc,
                office,
                pass,
                &mut clock,
                &mut nonces,
                mode,
                count,
                output,
            );
            drop(clock);
            drop(nonces);
            host.settle_disk(paths, disk);
            end
        }
        Err((fault, unused)) => {
            host.settle_disk(paths, unused);
            unopened(fault)
        }
    }
}

// Relays the messages of an office that was just opened, and closes it.
fn work<'a, D: Disk, C: Clock, N: Nonces, O: Sink>(
    alloc: Global,
    office: Office<'a, D>,
    pass: Pass<'a, Call>,
    clock: &mut C,
    nonces: &mut N,
    mode: &Text,
    count: u64,
    output: &mut O,
) -> (D, RelayerEnd)
    requires book { pass.book ≡ office.book }
    requires list { office.list ≡ [] }
    ensures works { Works D.Disk C.Clock N.Nonces mode.now count (moment office.entry pass.entry clock.old nonces.old) result.0 (O.taken output.old) (O.taken output.new) result.1 }
    ensures faults { TellsFaults result.1 (O.faults output.old) (O.faults output.new) }
{
    let (mut office, mut pass) = (office, pass);
    let end = relay_all(
        alloc,
        &mut office,
        &mut pass,
        clock,
        nonces,
        mode,
        count,
        output,
    );
    drop(pass);
    (office.into_disk(), end)
}

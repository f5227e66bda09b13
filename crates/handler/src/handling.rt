//! The handler, from its modes file to its end.
ghost use Rattle.std.specs.Prelude.{◌≡◌, ◌≢◌, ◌≤◌, ◌^◌, ℕ, List, [], Some, IfOk, length, vec_capacity};
ghost use Rattle.as4_disk.specs.Image.{Image};
ghost use Rattle.as4_flow.specs.Flow.{TakesFront, Told};
ghost use Rattle.as4_host.specs.Counts.{HasNotRisen};
ghost use Rattle.exchange_model.specs.End.{End};
ghost use Rattle.handler.specs.Announcing.{head_of, line_of};
ghost use Rattle.handler.specs.Endings.{IsCause, IsJudged, IsUnserved};
ghost use Rattle.handler.specs.Handling.{Ends, Handles, Serves, pulled};
ghost use Rattle.handler.specs.Hosts.{Touches};
ghost use Rattle.handler.specs.Served.{Delivers, IsQuiet};
ghost use Rattle.handler.specs.Stores.{AreModesOf, LeavesStore, Stores};

use crate::announcing::begin_line;
use crate::crew::MOST_WORKERS;
use crate::ending::{HandlerEnd, judged};
use crate::modes_file::{pulled_modes, read_modes};
use crate::opening::open_all;
use crate::setup::{Setup, other_paths};
use crate::working::{Kit, work};
use as4_disk::Disk;
use as4_doors::one_request;
use as4_flow::Sink;
use as4_host::{Door, Host, Link};
use as4_values::NoMemory;
use history_laws::{calls_split, what_came_stays_from_any_start};
use pmodes::Modes;
use std::alloc::Global;
use std::sync::Wait;
use std::thread::Threads;
use stranger_laws::{what_comes_is_taken, what_is_sent_belongs_to_its_event};

/// Runs a message handler on a host. It reads the modes, opens its two doors and its store, compacts the journal,
/// serves by workers until each has made its turns or found its door closed, and gives everything back to the host.
///
/// The workers: one pulls by each of the first two modes with `collect`, one pushes, one sets the clock, one serves
/// local applications, and `setup.workers` serve partners. A guest who sends several requests on one connection gets at
/// most `setup.keep` answers.
///
/// Once the journal is compacted, it writes one line to `errors`: the addresses, the journal and its size, and how many
/// messages are pending and how many were received. It writes nothing else. If `errors` fails, it serves all the same.
///
/// `delivers` says where the messages of the guests are after a handler that `Served`. Its premises: the host is
/// observable (its guests and its store can be named); none of the host's counts has risen, so no door, link, stream or
/// disk has failed; the addresses are different, since at one address the second door gets no guests; `setup.turns` is
/// at most 2^49, so that the history can't become full.
///
/// Every other end is an error, and [`HandlerEnd`] has its cause. What was opened is given back then, too. With
/// `ModesRefused` and `NotJournal` no worker began. With `NoMemory` and `HostFault` the workers may have served: what
/// they answered is in the store, and a new handler goes on from there.
pub fn handle<R: Threads + Wait + Sync, H: Host, E: Sink>(
    rt: &R,
    alloc: Global,
    host: &mut H,
    setup: Setup<'_>,
    errors: &mut E,
) -> HandlerEnd
where
    H::Store: Send,
    H::Entrance: Send,
    <H::Entrance as Door>::In: Send,
    <H::Entrance as Door>::Out: Send,
    H::Dialer: Send,
    <H::Dialer as Link>::In: Send,
    <H::Dialer as Link>::Out: Send,
    H::Time: Send,
    H::Dice: Send,
    requires peers { (1 ≤ setup.workers) × (setup.workers ≤ 11) }
    requires keep { (1 ≤ setup.keep) × (setup.keep ≤ 1000) }
    // What was done, and how it ended, before the machine's failures are counted.
    ensures ends { (end : HandlerEnd) × Ends H.Host H.Entrance.Door H.Dialer.Link H.Store.Disk H.Time.Clock H.Dice.Nonces setup.entry
        (E.taken errors.old) (E.taken errors.new) host.old host.new end × IsJudged end (H.fault_count host.old) (H.fault_count host.new) result }
    ensures touches { Touches H.Host setup.entry host.old host.new }
    ensures store { LeavesStore H.Host (AreModesOf (H.file host.old setup.entry.modes.now)) setup.entry.journal.now host.old host.new }
    ensures cause { IsCause (H.file host.old setup.entry.modes.now) (Stores H.Host setup.entry.journal.now host.old)
        (H.fault_count host.old) (H.fault_count host.new) result }
    ensures calm { result ≢ HandlerEnd.NoMemory → result ≢ HandlerEnd.HostFault → HasNotRisen (H.fault_count host.old) (H.fault_count host.new) }
    // What was opened is given back: if no worker began, each address has the guests that it had.
    ensures guests { IsUnserved result → (a : List ℕ) → H.guests host.new a ≡ H.guests host.old a }
    ensures serves { result ≡ HandlerEnd.Served → Serves H.Host H.Entrance.Door H.Dialer.Link H.Store.Disk H.Time.Clock H.Dice.Nonces setup.entry
        (E.taken errors.old) (E.taken errors.new) host.old host.new }
    // Over an observable host on which nothing failed: the messages of the partners who were served are in the inbox.
    ensures delivers { result ≡ HandlerEnd.Served → IsQuiet H.Host host.old host.new → setup.entry.turns ≤ 2 ^ 49
        → setup.entry.peer.now ≢ setup.entry.local.now → (peers locals : List (List ℕ)) (before : Image)
        → H.guests host.old setup.entry.peer.now ≡ Some peers → H.guests host.old setup.entry.local.now ≡ Some locals
        → Stores H.Host setup.entry.journal.now host.old before → Delivers H.Host setup.entry host.old host.new peers locals before }
    ensures line { (end : End) × TakesFront (line_of setup.entry end) (E.taken errors.old) (E.taken errors.new) }
    ensures silent { IsUnserved result → E.taken errors.new ≡ E.taken errors.old }
    ensures counted { E.faults errors.old ≤ E.faults errors.new }
{
    // Laws that the proofs of `store` and `delivers` cite. They do nothing.
    one_request();
    calls_split();
    what_came_stays_from_any_start();
    what_comes_is_taken();
    what_is_sent_belongs_to_its_event();
    a_disk_reads_what_a_crash_may_leave::<H::Store>();
    let before = host.faults();
    let end = match read_modes(alloc, host, setup.modes) {
        Ok(modes) => prepare(rt, alloc, host, setup, modes, errors),
        Err(end) => end,
    };
    judged(end, before, host.faults())
}

// Takes the memory that the handler needs, and then opens and serves. Without that memory nothing is opened.
fn prepare<R: Threads + Wait + Sync, H: Host, E: Sink>(
    rt: &R,
    alloc: Global,
    host: &mut H,
    setup: Setup<'_>,
    modes: Modes,
    errors: &mut E,
) -> HandlerEnd
where
    H::Store: Send,
    H::Entrance: Send,
    <H::Entrance as Door>::In: Send,
    <H::Entrance as Door>::Out: Send,
    H::Dialer: Send,
    <H::Dialer as Link>::In: Send,
    <H::Dialer as Link>::Out: Send,
    H::Time: Send,
    H::Dice: Send,
    requires peers { (1 ≤ setup.workers) × (setup.workers ≤ 11) }
    requires keep { (1 ≤ setup.keep) × (setup.keep ≤ 1000) }
    ensures ends { Handles H.Host H.Entrance.Door H.Dialer.Link H.Store.Disk H.Time.Clock H.Dice.Nonces setup.entry modes
        (E.taken errors.old) (E.taken errors.new) host.old host.new result }
    ensures counted { E.faults errors.old ≤ E.faults errors.new }
{
    match (
        kit_of(alloc, &modes, setup),
        other_paths(alloc, setup.journal),
    ) {
        (Ok(kit), Ok(paths)) => {
            let journal = paths.paths(setup.journal);
            let end = match open_all(alloc, host, setup, journal, modes) {
                Ok(opened) => work(rt, alloc, host, setup, journal, kit, opened, errors),
                Err(end) => {
                    drop(kit);
                    end
                }
            };
            drop(paths);
            end
        }
        (kit, paths) => {
            drop(kit);
            drop(paths);
            drop(modes);
            HandlerEnd::NoMemory
        }
    }
}

// What a handler takes memory for before it opens anything. `work` uses it and takes no memory for these things.
fn kit_of<'a, W: Drop, L: Drop, C: Drop, N: Drop>(
    alloc: Global,
    modes: &Modes,
    setup: Setup<'_>,
) -> Result<Kit<'a, W, L, C, N>, NoMemory>
    ensures pulls { IfOk result (λ kit. kit.pulls.items ≡ pulled modes.now) }
    ensures head { IfOk result (λ kit. kit.head.items ≡ head_of setup.entry) }
    ensures crew { IfOk result (λ kit. (kit.crew.items ≡ []) × (16 ≤ vec_capacity kit.crew)) }
{
    match (
        pulled_modes(alloc, modes),
        begin_line(alloc, setup),
        Vec::with_capacity(alloc, MOST_WORKERS),
    ) {
        (Ok(pulls), Ok(head), Ok(crew)) => Ok(Kit { pulls, head, crew }),
        (pulls, head, crew) => {
            drop(pulls);
            drop(head);
            drop(crew);
            Err(NoMemory)
        }
    }
}

// A law: what a disk reads is one of the images that a crash may leave.
fn a_disk_reads_what_a_crash_may_leave<D: Disk>()
    ensures { (disk : D) → Told (D.seen disk) (D.may_leave disk) }
{}

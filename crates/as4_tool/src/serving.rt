//! The whole program, whose handler needs threads:
//!
//!     handler MODES JOURNAL PEER LOCAL [--workers N] [--turns T] [--keep L]   serves both addresses   0, 5, 8, 9, 10
//!     any other words                                              as a run without threads
ghost use Rattle.std.specs.Prelude.{◌≡◌, ◌≢◌, ◌⊎◌, ◌≤◌};
ghost use Rattle.as4_tool.specs.Command.{AsksForText};
ghost use Rattle.as4_tool.specs.Service.{ObeysAny, RunsHandler, SpellTask};
ghost use Rattle.as4_tool.specs.Status.{Tells, code_of, line_of};

use crate::command::{Command, Service, command_of, texts_of};
use crate::running::{obey, refused, text_asked};
use crate::status::Status;
use as4_flow::{Sink, Source};
use as4_host::{Door, Host, Link};
use as4_values::{Octets, Seq};
use handler::{Setup, handle};
use std::alloc::Global;
use std::sync::Wait;
use std::thread::Threads;

/// Runs the program, and returns the exit status. The words are those after the program's name.
pub fn run<R: Threads + Wait + Sync, I: Source, O: Sink, E: Sink, H: Host>(
    rt: &R,
    alloc: Global,
    words: &Seq<Octets>,
    input: &mut I,
    output: &mut O,
    errors: &mut E,
    host: &mut H,
) -> u8
where
    H::Store: Send,
    H::Entrance: Send,
    <H::Entrance as Door>::In: Send,
    <H::Entrance as Door>::Out: Send,
    H::Dialer: Send,
    <H::Dialer as Link>::In: Send,
    <H::Dialer as Link>::Out: Send,
    H::Time: Send,
    H::Dice: Send,
    // Whether the words spell a command.
    ensures bad_words { result ≡ code_of Status.BadWords → ¬ SpellTask words.now }
    ensures command { result ≢ code_of Status.BadWords → SpellTask words.now ⊎ (result ≡ code_of Status.NoMemory) }

    // A request for the help or the version needs no memory.
    ensures shows { AsksForText words.now → result ≢ code_of Status.NoMemory }

    // The exit status is that of some end, the run of the words has that end, and then the errors get the line of that end.
    ensures ends { (status : Status) × (result ≡ code_of status) × (told : E)
        × ObeysAny H.Host H.Entrance.Door H.Dialer.Link H.Store.Disk H.Time.Clock H.Dice.Nonces I.Source O.Sink E.Sink words.now status
        input.old input.new output.old output.new errors.old told host.old host.new
        × Tells (line_of status) (E.taken told) (E.taken errors.new) (E.faults told) (E.faults errors.new) }
    ensures counted { E.faults errors.old ≤ E.faults errors.new }
{
    let status = read_and_serve(rt, alloc, words, input, output, errors, host);
    status.tell(errors);
    status.code()
}

// Reads the words, and executes their command.
fn read_and_serve<R: Threads + Wait + Sync, I: Source, O: Sink, E: Sink, H: Host>(
    rt: &R,
    alloc: Global,
    words: &Seq<Octets>,
    input: &mut I,
    output: &mut O,
    errors: &mut E,
    host: &mut H,
) -> Status
where
    H::Store: Send,
    H::Entrance: Send,
    <H::Entrance as Door>::In: Send,
    <H::Entrance as Door>::Out: Send,
    H::Dialer: Send,
    <H::Dialer as Link>::In: Send,
    <H::Dialer as Link>::Out: Send,
    H::Time: Send,
    H::Dice: Send,
    ensures bad_words { code_of result ≡ code_of Status.BadWords → ¬ SpellTask words.now }
    ensures command { code_of result ≢ code_of Status.BadWords → SpellTask words.now ⊎ (code_of result ≡ code_of Status.NoMemory) }
    ensures shows { AsksForText words.now → code_of result ≢ code_of Status.NoMemory }
    ensures obeys { ObeysAny H.Host H.Entrance.Door H.Dialer.Link H.Store.Disk H.Time.Clock H.Dice.Nonces I.Source O.Sink E.Sink words.now result
        input.old input.new output.old output.new errors.old errors.new host.old host.new }
    ensures counted { E.faults errors.old ≤ E.faults errors.new }
{
    if let Some(command) = text_asked(words) {
        return obey(alloc, command, input, output, host);
    }
    let texts = match texts_of(alloc, words) {
        Ok(texts) => texts,
        Err(refusal) => return refused(refusal),
    };
    match command_of(alloc, &texts) {
        Ok(Command::Handler(service)) => serve(rt, alloc, service, errors, host),
        Ok(command) => obey(alloc, command, input, output, host),
        Err(refusal) => refused(refusal),
    }
}

// Runs a handler.
fn serve<R: Threads + Wait + Sync, E: Sink, H: Host>(
    rt: &R,
    alloc: Global,
    service: Service<'_>,
    errors: &mut E,
    host: &mut H,
) -> Status
where
    H::Store: Send,
    H::Entrance: Send,
    <H::Entrance as Door>::In: Send,
    <H::Entrance as Door>::Out: Send,
    H::Dialer: Send,
    <H::Dialer as Link>::In: Send,
    <H::Dialer as Link>::Out: Send,
    H::Time: Send,
    H::Dice: Send,
    requires workers { (1 ≤ service.workers) × (service.workers ≤ 11) }
    requires keep { (1 ≤ service.keep) × (service.keep ≤ 1000) }
    ensures runs { RunsHandler H.Host H.Entrance.Door H.Dialer.Link H.Store.Disk H.Time.Clock H.Dice.Nonces
        service.entry.modes.now service.entry.journal.now service.entry.peer.now service.entry.local.now service.entry.workers
        service.entry.turns service.entry.keep result (E.taken errors.old) (E.taken errors.new) host.old host.new }
    ensures counted { E.faults errors.old ≤ E.faults errors.new }
    ensures words { code_of result ≢ code_of Status.BadWords }
{
    let setup = Setup {
        modes: service.modes,
        journal: service.journal,
        peer: service.peer,
        local: service.local,
        workers: service.workers,
        turns: service.turns,
        keep: service.keep,
    };
    Status::of_handler(handle(rt, alloc, host, setup, errors))
}

//! The command `relay`.
ghost use Rattle.as4_tool.specs.Runs.{RunsRelay};

use crate::command::Relaying;
use crate::status::Status;
use as4_flow::Sink;
use as4_host::Host;
use relayer::relay_journal;
use std::alloc::Global;

/// Relays what the journal at a path has received, and writes its lines.
pub(crate) fn relay<O: Sink, H: Host>(
    alloc: Global,
    by: Relaying<'_>,
    output: &mut O,
    host: &mut H,
) -> Status
    ensures { RunsRelay H.Host O.Sink H.Store.Disk H.Time.Clock H.Dice.Nonces by.entry.from.modes.now by.entry.from.journal.now by.entry.mode.now by.entry.count result
        host.old host.new output.old output.new }
{
    let end = relay_journal(
        alloc,
        host,
        by.from.modes,
        by.from.journal,
        by.mode,
        by.count,
        output,
    );
    Status::of_relaying(end)
}

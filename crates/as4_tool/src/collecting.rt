//! The command `collect`.
ghost use Rattle.std.specs.Prelude.{◌≤◌, ◌+◌, ◌^◌};
ghost use Rattle.as4_tool.specs.Runs.{RunsCollect};

use crate::command::Collection;
use crate::status::Status;
use as4_flow::Sink;
use as4_host::Host;
use std::alloc::Global;

/// Collects what the handler at an address has received, and writes its lines.
pub(crate) fn collect<O: Sink, H: Host>(
    alloc: Global,
    from: Collection<'_>,
    output: &mut O,
    host: &mut H,
) -> Status
    requires { from.first + from.count ≤ 2 ^ 64 }
    ensures { RunsCollect H.Host H.Dialer.Link O.Sink from.entry.local.now from.entry.first from.entry.count from.entry.folder.now result
        host.old host.new output.old output.new }
{
    let end = clients::collect(
        alloc,
        host,
        from.local,
        from.first,
        from.count,
        from.folder,
        output,
    );
    Status::of_collection(end)
}

//! The command `audit`.
ghost use Rattle.std.specs.Prelude.{◌≡◌, if◌then◌else◌};
ghost use Rattle.as4_tool.specs.Runs.{RunsAudit};

use crate::command::Journal;
use crate::status::Status;
use as4_flow::Sink;
use as4_host::Host;
use auditor::{Form, audit_journal};
use std::alloc::Global;

/// Audits the journal at a path, and writes its lines or draws it.
pub(crate) fn audit<O: Sink, H: Host>(
    alloc: Global,
    of: Journal<'_>,
    draws: bool,
    output: &mut O,
    host: &mut H,
) -> Status
    ensures { RunsAudit H.Host O.Sink of.entry.modes.now of.entry.journal.now draws result host.old host.new output.old output.new }
{
    let form = form_of(draws);
    Status::of_audit(audit_journal(alloc, host, of.modes, of.journal, form, output))
}

// What is written of an audit.
fn form_of(draws: bool) -> Form
    ensures { result ≡ (if draws then Form.Drawing else Form.Lines) }
{
    if draws { Form::Drawing } else { Form::Lines }
}

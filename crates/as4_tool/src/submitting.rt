//! The command `submit`.
ghost use Rattle.std.specs.Prelude.{◌≤◌};
ghost use Rattle.as4_tool.specs.Runs.{RunsSubmit, Shows, ShowsFaults, ran};

use crate::command::Submission;
use crate::limit::LIMIT;
use crate::status::Status;
use crate::writing::write_as;
use as4_flow::{ReadRefusal, Sink, Source, read_all};
use as4_host::Host;
use clients::SubmitEnd;
use std::alloc::Global;

/// Reads the input to its end, submits it to the handler at an address, and writes the text of the response.
pub(crate) fn submit<I: Source, O: Sink, H: Host>(
    alloc: Global,
    to: Submission<'_>,
    input: &mut I,
    output: &mut O,
    host: &mut H,
) -> Status
    ensures { RunsSubmit H.Host H.Dialer.Link to.entry.local.now to.entry.mode.now to.entry.conversation.now to.entry.media.now result
        (ran I.Source O.Sink input.old input.new output.old output.new) host.old host.new }
{
    match read_all(alloc, input, LIMIT) {
        Ok(document) => {
            let end = clients::submit(
                alloc,
                host,
                to.local,
                to.mode.as_bytes(),
                to.conversation.as_bytes(),
                to.media.as_bytes(),
                &document,
            );
            let status = show(&end, output);
            drop(end);
            status
        }
        Err(ReadRefusal::Failed) => Status::ReadFault,
        Err(ReadRefusal::TooLong) => Status::TooLong,
        Err(ReadRefusal::NoMemory) => Status::NoMemory,
    }
}

// Writes the text of the response, if there is one.
fn show<O: Sink>(end: &SubmitEnd, output: &mut O) -> Status
    ensures shows { Shows end.now result (O.taken output.old) (O.taken output.new) }
    ensures faults { ShowsFaults end.now result (O.faults output.old) (O.faults output.new) }
    ensures counted { O.faults output.old ≤ O.faults output.new }
{
    match end {
        SubmitEnd::Accepted(text) => write_as(Status::Done, output, text.bytes()),
        SubmitEnd::Refused { text, .. } => write_as(Status::Refused, output, text.bytes()),
        other => Status::of_submission(other),
    }
}

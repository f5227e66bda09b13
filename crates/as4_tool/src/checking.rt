//! The command `check`.
ghost use Rattle.std.specs.Prelude.{◌≡◌, if◌then◌else◌};
ghost use Rattle.as4_tool.specs.Command.{Task};
ghost use Rattle.as4_tool.specs.Runs.{RunsOver, ran};

use crate::answers::check_file;
use crate::limit::LIMIT;
use crate::status::Status;
use crate::writing::write_as;
use as4_flow::{ReadRefusal, Sink, Source, read_all};
use as4_values::NoMemory;
use std::alloc::Global;

/// Reads the input to its end and writes its check line.
pub(crate) fn check<I: Source, O: Sink>(alloc: Global, input: &mut I, output: &mut O) -> Status
    ensures { RunsOver Task.check result (ran I.Source O.Sink input.old input.new output.old output.new) }
{
    match read_all(alloc, input, LIMIT) {
        Ok(file) => match check_file(alloc, &file) {
            Ok(line) => write_as(end_of(line.refused), output, line.text.bytes()),
            Err(NoMemory) => Status::NoMemory,
        },
        Err(ReadRefusal::Failed) => Status::ReadFault,
        Err(ReadRefusal::TooLong) => Status::TooLong,
        Err(ReadRefusal::NoMemory) => Status::NoMemory,
    }
}

// The end of a check.
fn end_of(refused: bool) -> Status
    ensures { result ≡ (if refused then Status.Refused else Status.Done) }
{
    if refused {
        Status::Refused
    } else {
        Status::Done
    }
}

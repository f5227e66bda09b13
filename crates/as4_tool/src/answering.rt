//! The command `answer`.
ghost use Rattle.std.specs.Prelude.{◌≤◌};
ghost use Rattle.as4_tool.specs.Command.{Task};
ghost use Rattle.as4_tool.specs.Runs.{RunsOver, ran};

use crate::answers::answer_file;
use crate::limit::LIMIT;
use crate::status::Status;
use crate::writing::write;
use as4_flow::{ReadRefusal, Sink, Source, read_all};
use as4_values::{MAX_MOMENT, NoMemory};
use std::alloc::Global;

/// Reads the input to its end and writes the answer.
pub(crate) fn answer<I: Source, O: Sink>(
    alloc: Global,
    stamp: u64,
    nonce: u128,
    input: &mut I,
    output: &mut O,
) -> Status
    requires { stamp ≤ MAX_MOMENT }
    ensures { RunsOver (Task.answer stamp nonce) result (ran I.Source O.Sink input.old input.new output.old output.new) }
{
    let file = match read_all(alloc, input, LIMIT) {
        Ok(file) => file,
        Err(ReadRefusal::Failed) => return Status::ReadFault,
        Err(ReadRefusal::TooLong) => return Status::TooLong,
        Err(ReadRefusal::NoMemory) => return Status::NoMemory,
    };
    match answer_file(alloc, stamp, nonce, &file) {
        Ok(Some(bytes)) => write(output, bytes.bytes()),
        Ok(None) => Status::NotUser,
        Err(NoMemory) => Status::NoMemory,
    }
}

//! The command `drill --draw`.
ghost use Rattle.std.specs.Prelude.{IfErr, IfOk};
ghost use Rattle.as4_tool.specs.Command.{Task};
ghost use Rattle.as4_tool.specs.Ends.{IsDrillOf, IsUndrawn};
ghost use Rattle.as4_tool.specs.Runs.{RunsOver, ran};

use crate::command::DrillKind;
use crate::limit::LIMIT;
use crate::status::Status;
use crate::writing::write;
use as4_draw::draw_drill;
use as4_flow::{MemorySink, MemorySource, ReadRefusal, Sink, Source, read_all};
use as4_values::NoMemory;
use drill::{DrillEnd, drill};
use std::alloc::Global;

/// Runs the script from the input, and draws it.
pub(crate) fn draw<I: Source, O: Sink>(alloc: Global, input: &mut I, output: &mut O) -> Status
    ensures { RunsOver (Task.drill DrillKind.Drawing) result (ran I.Source O.Sink input.old input.new output.old output.new) }
{
    match read_all(alloc, input, LIMIT) {
        Ok(script) => match drawing_of(alloc, &script) {
            Ok(drawing) => write(output, &drawing),
            Err(end) => end,
        },
        Err(ReadRefusal::Failed) => Status::ReadFault,
        Err(ReadRefusal::TooLong) => Status::TooLong,
        Err(ReadRefusal::NoMemory) => Status::NoMemory,
    }
}

// The drawing of a script, if it can be played to its end.
fn drawing_of(alloc: Global, script: &[u8]) -> Result<Vec<u8>, Status>
    ensures drawn { IfOk result (λ drawing. IsDrillOf script.now DrillEnd.Read) }
    ensures undrawn { IfErr result (IsUndrawn script.now) }
{
    let Ok((end, transcript)) = played(alloc, script) else {
        return Err(Status::NoMemory);
    };
    match end {
        DrillEnd::Read => match draw_drill(alloc, script, transcript.bytes()) {
            Ok(drawing) => Ok(drawing),
            Err(NoMemory) => Err(Status::NoMemory),
        },
        DrillEnd::Line { number } => Err(Status::WrongLine { number }),
        DrillEnd::TooMany => Err(Status::TooManyEvents),
        DrillEnd::ReadFault | DrillEnd::WriteFault | DrillEnd::NoMemory => Err(Status::NoMemory),
    }
}

// Plays a script: how its drill ends, and what it has written.
fn played(alloc: Global, script: &[u8]) -> Result<(DrillEnd, MemorySink), NoMemory>
    ensures { IfOk result (λ drilled. IsDrillOf script.now drilled.0) }
{
    let bytes = Vec::from_slice(alloc, script)?;
    let mut source = MemorySource::of(bytes, Vec::new(alloc), Vec::new(alloc));
    let mut transcript = MemorySink::of(alloc, Vec::new(alloc), Vec::new(alloc));
    let end = drill(alloc, &mut source, &mut transcript);
    Ok((end, transcript))
}

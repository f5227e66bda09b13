//! Texts on the output.
ghost use Rattle.std.specs.Prelude.{◌≡◌, ◌≢◌, ◌≤◌};
ghost use Rattle.as4_tool.specs.Status.{code_of};
ghost use Rattle.as4_tool.specs.Ends.{Writes, WritesAs, TellsFaults};

use crate::status::Status;
use as4_flow::{SendFailed, Sink, send_all};

/// Writes all the bytes.
pub(crate) fn write<O: Sink>(output: &mut O, bytes: &[u8]) -> Status
    ensures writes { Writes bytes.now result (O.taken output.old) (O.taken output.new) }
    ensures faults { TellsFaults Status.WriteFault (code_of result) (O.faults output.old) (O.faults output.new) }
    ensures counted { O.faults output.old ≤ O.faults output.new }
{
    write_as(Status::Done, output, bytes)
}

/// Writes all bytes, and returns this end unless the output fails.
pub(crate) fn write_as<O: Sink>(end: Status, output: &mut O, bytes: &[u8]) -> Status
    requires { code_of end ≢ code_of Status.WriteFault }
    ensures writes { WritesAs end bytes.now result (O.taken output.old) (O.taken output.new) }
    ensures faults { TellsFaults Status.WriteFault (code_of result) (O.faults output.old) (O.faults output.new) }
    ensures counted { O.faults output.old ≤ O.faults output.new }
{
    match send_all(output, bytes) {
        Ok(()) => end,
        Err(SendFailed) => Status::WriteFault,
    }
}

//! The command `drill`.
ghost use Rattle.std.specs.Prelude.{◌≤◌, ℕ, List, Option};
ghost use Rattle.as4_tool.specs.Command.{Task};
ghost use Rattle.as4_tool.specs.Runs.{RunsOver, ran, wrote};

use crate::command::DrillKind;
use crate::drawing::draw;
use crate::status::Status;
use as4_flow::{Sink, Source};
use std::alloc::Global;

/// Runs the script from the input.
pub(crate) fn play<I: Source, O: Sink>(
    alloc: Global,
    kind: DrillKind,
    input: &mut I,
    output: &mut O,
) -> Status
    ensures { RunsOver (Task.drill kind) result (ran I.Source O.Sink input.old input.new output.old output.new) }
{
    match kind {
        DrillKind::Pair => Status::of_drill(drill::drill(alloc, input, output)),
        DrillKind::Drawing => draw(alloc, input, output),
        DrillKind::Hub => Status::of_drill(drill::hub_drill(alloc, input, output)),
    }
}

/// Runs a generated script.
pub(crate) fn generate<O: Sink>(alloc: Global, seed: u64, count: u64, output: &mut O) -> Status
    requires { count ≤ 1000 }
    ensures { (left : Option (List ℕ)) (reads : ℕ) → RunsOver (Task.generate seed count) result (wrote O.Sink left reads output.old output.new) }
{
    Status::of_drill(drill::generate(alloc, seed, count, output))
}

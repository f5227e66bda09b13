//! The check lines of messages, compared with those that are wanted.
ghost use Rattle.std.specs.Prelude.{◌≤◌, None};
ghost use Rattle.as4_flow.specs.Flow.{between, flow};
ghost use Rattle.conformance.specs.Cases.{IsVectorLine};
ghost use Rattle.conformance.specs.Ran.{RunEnds};

use crate::Vector;
use crate::rows::{Row, RowLine, VectorEnd, run_rows, verdict};
use as4_flow::Sink;
use as4_message::{check_line, one_meaning};
use as4_values::NoMemory;
use std::alloc::Global;

/// Writes for each vector its name, and ` ok` if its case has the wanted check line, else ` differs`.
pub fn run_vectors<K: Sink>(alloc: Global, rows: &[Vector], sink: &mut K) -> VectorEnd
    ensures ends { RunEnds IsVectorLine rows.now result (between
        (flow None (K.taken sink.old) 0 (K.faults sink.old)) (flow None (K.taken sink.new) 0 (K.faults sink.new))) }
    ensures counted { K.faults sink.old ≤ K.faults sink.new }
{
    run_rows(alloc, rows, sink)
}

impl Row for Vector {
    ghost IsLine = { IsVectorLine };

    fn line(&self, alloc: Global) -> Result<RowLine, NoMemory> {
        one_meaning();
        let line = check_line(alloc, self.case.media, self.case.body)?;
        let is_right = line.text.bytes() == self.want;
        drop(line);
        verdict(alloc, self.case.name, is_right)
    }
}

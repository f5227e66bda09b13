//! The check lines of messages, written one after another.
ghost use Rattle.std.specs.Prelude.{◌≡◌, ◌≤◌, None};
ghost use Rattle.as4_flow.specs.Flow.{between, flow};
ghost use Rattle.conformance.specs.Cases.{IsCaseLine, SuiteEnds, suite_end};

use crate::Case;
use crate::rows::{Row, RowLine, VectorEnd, run_rows};
use as4_flow::Sink;
use as4_message::check_line;
use as4_values::{NoMemory, Octets};
use std::alloc::Global;

/// How a run of the suite ends.
#[derive(Clone, Copy, Debug, PartialEq, Eq)]
pub enum SuiteEnd {
    /// All lines were written.
    Done,
    /// The sink failed.
    WriteFault,
    /// There was no memory.
    NoMemory,
}

impl SuiteEnd {
    /// The end of a run whose rows can't differ.
    pub(crate) fn of_run(end: VectorEnd) -> SuiteEnd
        ensures { result ≡ suite_end end }
    {
        match end {
            VectorEnd::Done { .. } => SuiteEnd::Done,
            VectorEnd::WriteFault => SuiteEnd::WriteFault,
            VectorEnd::NoMemory => SuiteEnd::NoMemory,
        }
    }
}

/// Writes for each case its name, a space and its check line.
pub fn run_suite<K: Sink>(alloc: Global, cases: &[Case], sink: &mut K) -> SuiteEnd
    ensures ends { SuiteEnds cases.now result (between
        (flow None (K.taken sink.old) 0 (K.faults sink.old)) (flow None (K.taken sink.new) 0 (K.faults sink.new))) }
    ensures counted { K.faults sink.old ≤ K.faults sink.new }
{
    SuiteEnd::of_run(run_rows(alloc, cases, sink))
}

impl Row for Case {
    ghost IsLine = { IsCaseLine };

    fn line(&self, alloc: Global) -> Result<RowLine, NoMemory> {
        let mut text = Vec::new(alloc);
        text.extend_from_slice(self.name.as_bytes())?;
        text.extend_from_slice(b" ")?;
        let line = check_line(alloc, self.media, self.body)?;
        let appended = text.extend_from_slice(line.text.bytes());
        drop(line);
        appended?;
        Ok(RowLine {
            text: Octets::of(text),
            differs: false,
        })
    }
}

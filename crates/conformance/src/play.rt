//! Scripts of a drill, and the transcripts that are wanted of them.
ghost use Rattle.std.specs.Prelude.{◌≡◌, ◌≤◌, None, Ok, false, true};
ghost use Rattle.std.specs.Str.{bytes_eq};
ghost use Rattle.as4_flow.specs.Flow.{between, flow};
ghost use Rattle.conformance.specs.Plays.{IsPlayLine, IsTranscript};
ghost use Rattle.conformance.specs.Ran.{RunEnds};

use crate::rows::{Row, RowLine, VectorEnd, run_rows, verdict};
use as4_flow::{MemorySink, MemorySource, Sink};
use as4_values::NoMemory;
use drill::{DrillEnd, drill};
use std::alloc::Global;

/// A script with its transcript.
#[derive(Clone, Copy)]
pub struct Play {
    pub name: &'static str,
    pub script: &'static [u8],
    /// What the lines of the script write, and then the numbers of both endpoints; or what the lines before the first
    /// one write that isn't right.
    pub want: &'static [u8],
}

/// Writes for each play its name, and ` ok` if its script has the wanted transcript and makes at most 100,000 events, else
/// ` differs`.
pub fn run_plays<K: Sink>(alloc: Global, rows: &[Play], sink: &mut K) -> VectorEnd
    ensures ends { RunEnds IsPlayLine rows.now result (between
        (flow None (K.taken sink.old) 0 (K.faults sink.old)) (flow None (K.taken sink.new) 0 (K.faults sink.new))) }
    ensures counted { K.faults sink.old ≤ K.faults sink.new }
{
    run_rows(alloc, rows, sink)
}

impl Row for Play {
    ghost IsLine = { IsPlayLine };

    fn line(&self, alloc: Global) -> Result<RowLine, NoMemory> {
        let is_right = has_transcript(alloc, self.script, self.want)?;
        verdict(alloc, self.name, is_right)
    }
}

/// Whether this is the transcript of the script.
fn has_transcript(alloc: Global, script: &[u8], text: &[u8]) -> Result<bool, NoMemory>
    ensures right { result ≡ Ok true → IsTranscript script.now text.now }
    ensures wrong { result ≡ Ok false → ¬ IsTranscript script.now text.now }
{
    let bytes = Vec::from_slice(alloc, script)?;
    let mut source = MemorySource::of(bytes, Vec::new(alloc), Vec::new(alloc));
    let mut sink = MemorySink::of(alloc, Vec::new(alloc), Vec::new(alloc));
    match drill(alloc, &mut source, &mut sink) {
        DrillEnd::Read => Ok(has_taken(&sink, text)),
        DrillEnd::Line { .. } => Ok(has_taken(&sink, text)),
        DrillEnd::TooMany => Ok(false),
        DrillEnd::ReadFault | DrillEnd::WriteFault | DrillEnd::NoMemory => Err(NoMemory),
    }
}

fn has_taken(sink: &MemorySink, text: &[u8]) -> bool
    ensures { result ≡ bytes_eq sink.now.bytes text.now }
{
    sink.bytes() == text
}

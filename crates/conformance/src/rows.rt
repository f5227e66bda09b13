//! A run over rows: a line is written for each.
ghost use Rattle.std.specs.Prelude.{◌≡◌, ◌++◌, ◌≤◌, ℕ, List, Bool, None, IfOk, OnOk, OnErr, codes, not, if◌then◌else◌};
ghost use Rattle.as4_flow.specs.Flow.{Rose, TakesFront, appended, between, flow};
ghost use Rattle.conformance.specs.Ran.{RunEnds};

use as4_flow::{SendFailed, Sink, send_all};
use as4_values::{NoMemory, Octets};
use std::alloc::Global;

/// How a run over rows ends.
#[derive(Clone, Copy, Debug, PartialEq, Eq)]
pub enum VectorEnd {
    /// All lines were written, and this number of rows differ from what is wanted.
    Done { differ: u64 },
    /// The sink failed.
    WriteFault,
    /// There was no memory.
    NoMemory,
}

/// A line of the output.
#[derive(Drop)]
pub(crate) struct RowLine {
    /// Ends in LF.
    pub(crate) text: Octets,
    pub(crate) differs: bool,
}

pub(crate) trait Row {
    /// This is its line, and it differs or doesn't.
    ghost IsLine: { Self → List ℕ → Bool → Type 0 };

    fn line(&self, alloc: Global) -> Result<RowLine, NoMemory>
        ensures { IfOk result (λ line. IsLine self.now line.text line.differs) };
}

/// The line of a row that has a wanted text.
pub(crate) fn verdict(alloc: Global, name: &str, is_right: bool) -> Result<RowLine, NoMemory>
    ensures text { IfOk result (λ line. line.text ≡ name.now ++ (if is_right then codes " ok\n" else codes " differs\n")) }
    ensures differs { IfOk result (λ line. line.differs ≡ not is_right) }
{
    let mut text = Vec::new(alloc);
    text.extend_from_slice(name.as_bytes())?;
    let words: &[u8] = if is_right { b" ok\n" } else { b" differs\n" };
    text.extend_from_slice(words)?;
    Ok(RowLine {
        text: Octets::of(text),
        differs: !is_right,
    })
}

/// Writes the line of each row.
pub(crate) fn run_rows<R: Row, K: Sink>(alloc: Global, rows: &[R], sink: &mut K) -> VectorEnd
    ensures ends { RunEnds R.IsLine rows.now result (between
        (flow None (K.taken sink.old) 0 (K.faults sink.old)) (flow None (K.taken sink.new) 0 (K.faults sink.new))) }
    ensures counted { K.faults sink.old ≤ K.faults sink.new }
{
    let mut differ = 0;
    for row in rows {
        match row.line(alloc) {
            Ok(line) => {
                let differs = line.differs;
                match write_line(sink, line) {
                    Ok(()) => differ += u64::from(differs),
                    Err(SendFailed) => return VectorEnd::WriteFault,
                }
            }
            Err(NoMemory) => return VectorEnd::NoMemory,
        }
    }
    VectorEnd::Done { differ }
}

fn write_line<K: Sink>(sink: &mut K, line: RowLine) -> Result<(), SendFailed>
    ensures ok { OnOk result (K.taken sink.new ≡ appended (K.taken sink.old) line.text) }
    ensures quiet { OnOk result (K.faults sink.new ≡ K.faults sink.old) }
    ensures err { OnErr result (Rose (K.faults sink.old) (K.faults sink.new)) }
    ensures front { TakesFront line.text (K.taken sink.old) (K.taken sink.new) }
    ensures counted { K.faults sink.old ≤ K.faults sink.new }
{
    let sent = send_all(sink, line.text.bytes());
    drop(line);
    sent
}

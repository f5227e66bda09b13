//! Vectors written out, so that another program can read them.
ghost use Rattle.std.specs.Prelude.{◌≡◌, ◌++◌, ◌≤◌, None, OnOk, codes, length};
ghost use Rattle.std.specs.Fmt.{decimal};
ghost use Rattle.as4_flow.specs.Flow.{between, flow};
ghost use Rattle.conformance.specs.Cases.{IsListedLine, ListingEnds};

use crate::Vector;
use crate::rows::{Row, RowLine, run_rows};
use crate::suite::SuiteEnd;
use as4_flow::Sink;
use as4_values::{NoMemory, Octets};
use itoa::Buffer;
use std::alloc::Global;

/// A vector that is written out.
#[derive(Clone, Copy)]
pub struct Listed {
    pub vector: Vector,
}

/// Writes each vector so that a program can read it: a line of its name and the lengths of its media text, its body and
/// the wanted line, and then these three.
pub fn list_vectors<K: Sink>(alloc: Global, rows: &[Listed], sink: &mut K) -> SuiteEnd
    ensures ends { ListingEnds rows.now result (between
        (flow None (K.taken sink.old) 0 (K.faults sink.old)) (flow None (K.taken sink.new) 0 (K.faults sink.new))) }
    ensures counted { K.faults sink.old ≤ K.faults sink.new }
{
    SuiteEnd::of_run(run_rows(alloc, rows, sink))
}

impl Row for Listed {
    ghost IsLine = { IsListedLine };

    fn line(&self, alloc: Global) -> Result<RowLine, NoMemory> {
        let Vector { case, want } = self.vector;
        let mut text = Vec::new(alloc);
        text.extend_from_slice(case.name.as_bytes())?;
        add_length(&mut text, case.media)?;
        add_length(&mut text, case.body)?;
        add_length(&mut text, want)?;
        text.extend_from_slice(b"\n")?;
        text.extend_from_slice(case.media)?;
        text.extend_from_slice(case.body)?;
        text.extend_from_slice(want)?;
        Ok(RowLine {
            text: Octets::of(text),
            differs: false,
        })
    }
}

// Adds a space and the length of these bytes.
fn add_length(out: &mut Vec<u8>, bytes: &[u8]) -> Result<(), NoMemory>
    ensures { OnOk result (out.new.items ≡ out.old.items ++ (codes " " ++ decimal (length bytes.now))) }
{
    let mut buffer = Buffer::new();
    out.extend_from_slice(b" ")?;
    out.extend_from_slice(buffer.format(bytes.len()).as_bytes())?;
    Ok(())
}

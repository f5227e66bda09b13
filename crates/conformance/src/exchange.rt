//! HTTP streams, and the lines that are wanted of them.
ghost use Rattle.std.specs.Prelude.{◌≤◌, None};
ghost use Rattle.as4_flow.specs.Flow.{between, flow};
ghost use Rattle.conformance.specs.Exchanges.{IsExchangeLine};
ghost use Rattle.conformance.specs.Ran.{RunEnds};

use crate::rows::{Row, RowLine, VectorEnd, run_rows, verdict};
use crate::streams::stream_line;
use as4_flow::Sink;
use as4_http::one_request;
use as4_values::NoMemory;
use std::alloc::Global;

/// A stream with its line: `request`, the method and the length of the body of the request that it begins with; `cut` if
/// it is a proper prefix of a request; else `refused`.
#[derive(Clone, Copy)]
pub struct Exchange {
    pub name: &'static str,
    pub stream: &'static [u8],
    /// Ends in LF.
    pub want: &'static [u8],
}

/// Writes for each exchange its name, and ` ok` if its stream has the wanted line, else ` differs`.
pub fn run_exchanges<K: Sink>(alloc: Global, rows: &[Exchange], sink: &mut K) -> VectorEnd
    ensures ends { RunEnds IsExchangeLine rows.now result (between
        (flow None (K.taken sink.old) 0 (K.faults sink.old)) (flow None (K.taken sink.new) 0 (K.faults sink.new))) }
    ensures counted { K.faults sink.old ≤ K.faults sink.new }
{
    run_rows(alloc, rows, sink)
}

impl Row for Exchange {
    ghost IsLine = { IsExchangeLine };

    fn line(&self, alloc: Global) -> Result<RowLine, NoMemory> {
        one_request();
        let line = stream_line(alloc, self.stream)?;
        let is_right = line.bytes() == self.want;
        drop(line);
        verdict(alloc, self.name, is_right)
    }
}

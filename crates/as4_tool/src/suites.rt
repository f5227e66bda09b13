//! The command `suite`.
ghost use Rattle.std.specs.Prelude.{◌≤◌, ℕ, List, Option};
ghost use Rattle.as4_tool.specs.Command.{Task};
ghost use Rattle.as4_tool.specs.Runs.{RunsOver, wrote};
ghost use Rattle.as4_tool.specs.Suites.{Verifies, VerifiesExchanges, VerifiesPlays, output};

use crate::command::Suite;
use crate::status::Status;
use as4_flow::Sink;
use as4_vectors::{cases, exchanges, listed, plays, vectors};
use conformance::{VectorEnd, list_vectors, run_exchanges, run_plays, run_suite, run_vectors};
use std::alloc::Global;

/// Writes the check lines of the conformance suite, or holds the program against it, or writes its messages out.
pub(crate) fn suite<O: Sink>(alloc: Global, what: Suite, sink: &mut O) -> Status
    ensures { (left : Option (List ℕ)) (reads : ℕ) → RunsOver (Task.suite what) result (wrote O.Sink left reads sink.old sink.new) }
{
    match what {
        Suite::Check => Status::of_suite(run_suite(alloc, &cases(), sink)),
        Suite::Verify => verify(alloc, sink),
        Suite::List => Status::of_suite(list_vectors(alloc, &listed(), sink)),
    }
}

// Holds the program against the vectors, and then against the other tables.
fn verify<O: Sink>(alloc: Global, sink: &mut O) -> Status
    ensures verifies { Verifies result (output (O.taken sink.old) (O.faults sink.old)) (output (O.taken sink.new) (O.faults sink.new)) }
    ensures counted { O.faults sink.old ≤ O.faults sink.new }
{
    match run_vectors(alloc, &vectors(), sink) {
        VectorEnd::Done { differ } => verify_exchanges(alloc, differ, sink),
        VectorEnd::WriteFault => Status::WriteFault,
        VectorEnd::NoMemory => Status::NoMemory,
    }
}

// Holds the program against the exchanges, and then against the plays. This number of vectors differ.
fn verify_exchanges<O: Sink>(alloc: Global, vectors: u64, sink: &mut O) -> Status
    ensures verifies { VerifiesExchanges vectors result (output (O.taken sink.old) (O.faults sink.old)) (output (O.taken sink.new) (O.faults sink.new)) }
    ensures counted { O.faults sink.old ≤ O.faults sink.new }
{
    match run_exchanges(alloc, &exchanges(), sink) {
        VectorEnd::Done { differ } => verify_plays(alloc, vectors, differ, sink),
        VectorEnd::WriteFault => Status::WriteFault,
        VectorEnd::NoMemory => Status::NoMemory,
    }
}

// Holds the program against the plays. These numbers of vectors and exchanges differ.
fn verify_plays<O: Sink>(alloc: Global, vectors: u64, exchanges: u64, sink: &mut O) -> Status
    ensures verifies { VerifiesPlays vectors exchanges result (output (O.taken sink.old) (O.faults sink.old)) (output (O.taken sink.new) (O.faults sink.new)) }
    ensures counted { O.faults sink.old ≤ O.faults sink.new }
{
    match run_plays(alloc, &plays(), sink) {
        VectorEnd::Done { differ } if vectors == 0 && exchanges == 0 && differ == 0 => Status::Done,
        VectorEnd::Done { .. } => Status::Refused,
        VectorEnd::WriteFault => Status::WriteFault,
        VectorEnd::NoMemory => Status::NoMemory,
    }
}

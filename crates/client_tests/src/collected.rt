//! Collections, and what they leave.

use crate::failing_host::{Failing, FailingHost, NOTHING, has_sent, host_of};
use crate::samples::Sample;
use as4_flow::MemorySink;
use clients::{CollectEnd, collect};
use std::alloc::Global;

/// The number of entries that are asked for, from 0 on; the answers; what fails of the host; the number of the write of the
/// output that fails, 0 for none; how the collection ends; what it writes to the output; the bytes of the file `F/0.as4`;
/// the requests that were sent; and the host's counts of faults, reads and writes.
struct Row {
    count: u64,
    answers: &'static [Sample],
    failing: Failing,
    failing_output: u64,
    end: CollectEnd,
    output: &'static [u8],
    file: Option<Sample>,
    sent: &'static [Sample],
    counts: (u64, u64, u64),
}

/// A collection of nothing.
const NONE: Row = Row {
    count: 2,
    answers: &[],
    failing: NOTHING,
    failing_output: 0,
    end: CollectEnd::BadResponse,
    output: b"",
    file: None,
    sent: &[Sample::Fetch0],
    counts: (0, 0, 0),
};

const ROWS: [Row; 20] = [
    Row {
        answers: &[Sample::Message, Sample::Confirmed, Sample::NoEntry],
        end: CollectEnd::NoEntry,
        output: b"0 collected\n",
        file: Some(Sample::MessageFile),
        sent: &[Sample::Fetch0, Sample::Confirm0, Sample::Fetch1],
        ..NONE
    },
    Row {
        count: 1,
        answers: &[Sample::Message, Sample::Confirmed],
        end: CollectEnd::Done,
        output: b"0 collected\n",
        file: Some(Sample::MessageFile),
        sent: &[Sample::Fetch0, Sample::Confirm0],
        ..NONE
    },
    Row {
        count: 1,
        answers: &[Sample::Bare, Sample::Confirmed],
        end: CollectEnd::Done,
        output: b"0 collected\n",
        file: Some(Sample::BareFile),
        sent: &[Sample::Fetch0, Sample::Confirm0],
        ..NONE
    },
    Row {
        count: 0,
        end: CollectEnd::Done,
        sent: &[],
        ..NONE
    },
    Row {
        answers: &[Sample::NoEntry],
        end: CollectEnd::NoEntry,
        ..NONE
    },
    Row {
        answers: &[Sample::Gone, Sample::NoEntry],
        end: CollectEnd::NoEntry,
        output: b"0 gone\n",
        sent: &[Sample::Fetch0, Sample::Fetch1],
        ..NONE
    },
    Row {
        answers: &[Sample::Message, Sample::Gone, Sample::NoEntry],
        end: CollectEnd::NoEntry,
        output: b"0 gone\n",
        file: Some(Sample::MessageFile),
        sent: &[Sample::Fetch0, Sample::Confirm0, Sample::Fetch1],
        ..NONE
    },
    Row {
        answers: &[Sample::Message, Sample::NoEntry],
        end: CollectEnd::NoEntry,
        file: Some(Sample::MessageFile),
        sent: &[Sample::Fetch0, Sample::Confirm0],
        ..NONE
    },
    Row {
        answers: &[Sample::Unavailable],
        end: CollectEnd::Refused { status: 503 },
        ..NONE
    },
    Row {
        answers: &[Sample::Message, Sample::Unavailable],
        end: CollectEnd::Refused { status: 503 },
        file: Some(Sample::MessageFile),
        sent: &[Sample::Fetch0, Sample::Confirm0],
        ..NONE
    },
    NONE,
    Row {
        answers: &[Sample::Cut],
        ..NONE
    },
    Row {
        answers: &[Sample::NoResponse],
        ..NONE
    },
    Row {
        answers: &[Sample::Message],
        file: Some(Sample::MessageFile),
        sent: &[Sample::Fetch0, Sample::Confirm0],
        ..NONE
    },
    Row {
        answers: &[Sample::Message],
        failing: Failing { open: 1, ..NOTHING },
        end: CollectEnd::LinkFault,
        sent: &[],
        counts: (1, 0, 0),
        ..NONE
    },
    Row {
        answers: &[Sample::Message, Sample::Confirmed],
        failing: Failing { open: 2, ..NOTHING },
        end: CollectEnd::LinkFault,
        file: Some(Sample::MessageFile),
        counts: (1, 0, 0),
        ..NONE
    },
    Row {
        answers: &[Sample::Message],
        failing: Failing { read: 1, ..NOTHING },
        end: CollectEnd::ReadFault,
        counts: (0, 1, 0),
        ..NONE
    },
    Row {
        answers: &[Sample::Message],
        failing: Failing {
            write: 1,
            ..NOTHING
        },
        end: CollectEnd::WriteFault,
        sent: &[Sample::Nothing],
        counts: (0, 0, 1),
        ..NONE
    },
    Row {
        answers: &[Sample::Message, Sample::Confirmed],
        failing: Failing { call: 1, ..NOTHING },
        end: CollectEnd::FileFault,
        counts: (1, 0, 0),
        ..NONE
    },
    Row {
        answers: &[Sample::Message, Sample::Confirmed],
        failing_output: 2,
        end: CollectEnd::OutputFault,
        output: b"0",
        file: Some(Sample::MessageFile),
        sent: &[Sample::Fetch0, Sample::Confirm0],
        ..NONE
    },
];

// Whether the file of entry 0 has these bytes, or isn't there.
fn has_file(host: &FailingHost, sample: Option<Sample>) -> bool {
    match (host.host.file("F/0.as4"), sample) {
        (Some(file), Some(sample)) => file.bytes() == sample.bytes(),
        (None, None) => true,
        _ => false,
    }
}

// An output whose write of this number fails.
fn output_of(alloc: Global, failing: u64) -> Option<MemorySink> {
    let failing = vec![in alloc; failing].ok()?;
    Some(MemorySink::of(alloc, Vec::new(alloc), failing))
}

// Whether a collection ends and leaves what it should.
fn is_right(alloc: Global, row: &Row) -> Option<bool> {
    let host = host_of(alloc, row.answers, row.failing);
    match host.zip(output_of(alloc, row.failing_output)) {
        Some((host, output)) => Some(leaves(alloc, host, output, row)),
        None => None,
    }
}

fn leaves(alloc: Global, mut host: FailingHost, mut output: MemorySink, row: &Row) -> bool {
    let end = collect(
        alloc,
        &mut host,
        "http://h:1/",
        0,
        row.count,
        "F",
        &mut output,
    );
    let has_output = output.bytes() == row.output;
    drop(output);
    let are_counted = host.host.counts() == row.counts;
    let has_file = has_file(&host, row.file);
    let was_sent = has_sent(host, b"http://h:1/", row.sent);
    end == row.end && has_output && are_counted && has_file && was_sent
}

// The first row that leaves something else.
fn first_wrong(alloc: Global) -> Option<usize> {
    for (at, row) in ROWS.iter().enumerate() {
        if is_right(alloc, row) != Some(true) {
            return Some(at);
        }
    }
    None
}

#[test]
fn collections_leave_what_they_should(rt: HostRuntime) {
    assert_eq!(rt; first_wrong(rt.alloc()), None);
}

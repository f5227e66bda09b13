//! A handler by its words, over hosts in memory.

use crate::ended::{host_of, sink, words_of};
use as4_flow::MemorySource;
use as4_tool::run;
use as4_values::Octets;
use std::alloc::Global;
use std::sync::Wait;
use std::thread::Threads;

/// A mode that pushes.
const MODES: &[u8] = b"[[mode]]
name = \"invoice\"
from = { role = \"seller\", party = [ { id = \"acme\" } ] }
to = { role = \"buyer\", party = [ { id = \"bolt\" } ] }
service = \"orders\"
action = \"invoice\"
push = \"http://h:1/\"
retries = 10
period = 3000
";

/// The files of a host, the number of its call that fails, the words, and how the run ends: its status, and how the text on
/// the errors begins.
struct Row {
    modes: Option<&'static [u8]>,
    journal: Option<&'static [u8]>,
    failing: u64,
    line: &'static str,
    status: u8,
    told: &'static [u8],
}

const HANDLER: &str = "handler modes j http://p:1/ http://l:1/ --workers 1 --turns 0";

const ROWS: [Row; 7] = [
    Row {
        modes: Some(MODES),
        journal: None,
        failing: 0,
        line: HANDLER,
        status: 0,
        told: b"serving partners at http://p:1/ and applications at http://l:1/; journal j: ",
    },
    Row {
        modes: None,
        journal: None,
        failing: 0,
        line: HANDLER,
        status: 8,
        told: b"modes refused\n",
    },
    Row {
        modes: Some(b"[["),
        journal: None,
        failing: 0,
        line: HANDLER,
        status: 8,
        told: b"modes refused\n",
    },
    Row {
        modes: Some(MODES),
        journal: None,
        failing: 1,
        line: HANDLER,
        status: 9,
        told: b"host fault\n",
    },
    Row {
        modes: Some(MODES),
        journal: Some(b"7777777777"),
        failing: 0,
        line: HANDLER,
        status: 10,
        told: b"not a journal at 0\n",
    },
    Row {
        modes: Some(MODES),
        journal: None,
        failing: 0,
        line: "handler modes j http://p:1/ http://l:1/ --workers 12",
        status: 64,
        told: b"bad words\n",
    },
    Row {
        modes: None,
        journal: None,
        failing: 0,
        line: "--version",
        status: 0,
        told: b"",
    },
];

// Whether the run of a row ends as it says.
fn ends<R: Threads + Wait + Sync>(rt: &R, alloc: Global, row: &Row) -> Option<bool> {
    let mut host = host_of(alloc, &[])?;
    host.fail_at(vec![in alloc; row.failing].ok()?);
    for (path, file) in [("modes", row.modes), ("j", row.journal)] {
        if let Some(bytes) = file {
            host.put_file(path, Octets::of(bytes.to_vec(alloc).ok()?))
                .ok()?;
        }
    }
    let words = words_of(alloc, row.line).ok()?;
    let mut output = sink(alloc, 0).ok()?;
    let mut errors = sink(alloc, 0).ok()?;
    let mut input = MemorySource::of(Vec::new(alloc), Vec::new(alloc), Vec::new(alloc));
    let status = run(
        rt,
        alloc,
        &words,
        &mut input,
        &mut output,
        &mut errors,
        &mut host,
    );
    Some(status == row.status && errors.bytes().starts_with(row.told))
}

// The first row with another end.
fn first_other<R: Threads + Wait + Sync>(rt: &R, alloc: Global, rows: &[Row]) -> Option<usize> {
    for (at, row) in rows.iter().enumerate() {
        if ends(rt, alloc, row) != Some(true) {
            return Some(at);
        }
    }
    None
}

#[test]
fn a_handler_ends_with_its_status(rt: HostRuntime) {
    assert_eq!(rt; first_other(&rt, rt.alloc(), &ROWS), None);
}

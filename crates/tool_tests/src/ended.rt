//! Runs of the program, and their ends.

use as4_flow::{MemorySink, MemorySource};
use as4_host::{MemoryHost, Stack};
use as4_tool::run_alone;
use as4_values::{Octets, Seq};
use std::alloc::{AllocError, Global};

/// The result of a run.
#[derive(Drop)]
struct End {
    status: u8,
    written: Vec<u8>,
    told: Vec<u8>,
}

/// The numbers of the calls that fail; the first call is 1, and 0 means none.
#[derive(Clone, Copy)]
pub(crate) struct Failing {
    read: u64,
    write: u64,
    tell: u64,
}

pub(crate) const NOTHING_FAILS: Failing = Failing {
    read: 0,
    write: 0,
    tell: 0,
};

/// The first read fails.
pub(crate) const READ_FAILS: Failing = Failing {
    read: 1,
    write: 0,
    tell: 0,
};

/// The first write of the output fails.
pub(crate) const WRITE_FAILS: Failing = Failing {
    read: 0,
    write: 1,
    tell: 0,
};

/// The first write of the errors fails.
pub(crate) const TELL_FAILS: Failing = Failing {
    read: 0,
    write: 0,
    tell: 1,
};

/// The number of bytes that a sink takes without allocating. All texts that tests write are shorter, except the
/// longest.
const ROOM: usize = 8_192;

/// A sink with room for all that a test writes.
pub(crate) fn sink(alloc: Global, failing: u64) -> Result<MemorySink, AllocError> {
    let mut sink = MemorySink::of(alloc, Vec::new(alloc), vec![in alloc; failing]?);
    sink.reserve(ROOM)?;
    Ok(sink)
}

/// The words between single spaces.
pub(crate) fn words_of(alloc: Global, line: &str) -> Result<Seq<Octets>, AllocError> {
    let mut words = Vec::new(alloc);
    for word in line.split(' ') {
        words.push(Octets::of(Vec::from_slice(alloc, word.as_bytes())?))?;
    }
    Ok(Seq::of(words))
}

/// A host in memory with these answers, the first of which comes first.
pub(crate) fn host_of(alloc: Global, answers: &[&[u8]]) -> Option<MemoryHost> {
    let mut items = Vec::new(alloc);
    for answer in answers {
        items.push(Octets::of(answer.to_vec(alloc).ok()?)).ok()?;
    }
    let answers = Stack::of(alloc, Seq::of(items)).ok()?;
    Some(MemoryHost::of(alloc, answers, Vec::new(alloc)))
}

/// Runs the words over a host.
fn end_of(
    alloc: Global,
    words: &Seq<Octets>,
    file: &[u8],
    failing: Failing,
    host: &mut MemoryHost,
) -> Result<End, AllocError> {
    let mut output = sink(alloc, failing.write)?;
    let mut errors = sink(alloc, failing.tell)?;
    let fails = vec![in alloc; failing.read]?;
    let mut input = MemorySource::of(file.to_vec(alloc)?, Vec::new(alloc), fails);
    let status = run_alone(alloc, words, &mut input, &mut output, &mut errors, host);
    Ok(End {
        status,
        written: output.into_bytes(),
        told: errors.into_bytes(),
    })
}

/// A status, and the texts on the output and on the errors.
pub(crate) type Wanted<'a> = (u8, &'a [u8], &'a [u8]);

/// Whether the run of the words, with this input and without answers, ends so.
pub(crate) fn end_so(
    alloc: Global,
    words: &Seq<Octets>,
    file: &[u8],
    failing: Failing,
    wanted: Wanted,
) -> bool {
    match host_of(alloc, &[]) {
        Some(mut host) => end_over(alloc, words, file, failing, &mut host, wanted),
        None => false,
    }
}

/// Whether the run of the words over a host, with this input, ends so.
pub(crate) fn end_over(
    alloc: Global,
    words: &Seq<Octets>,
    file: &[u8],
    failing: Failing,
    host: &mut MemoryHost,
    wanted: Wanted,
) -> bool {
    let (status, written, told) = wanted;
    match end_of(alloc, words, file, failing, host) {
        Ok(end) => {
            end.status == status && end.written.as_slice() == written && end.told.as_slice() == told
        }
        Err(_) => false,
    }
}

/// Whether the run of the words over a host, with this input, has this status and these errors, and its output begins so.
pub(crate) fn begins_over(
    alloc: Global,
    words: &Seq<Octets>,
    file: &[u8],
    host: &mut MemoryHost,
    wanted: Wanted,
) -> bool {
    let (status, front, told) = wanted;
    match end_of(alloc, words, file, NOTHING_FAILS, host) {
        Ok(end) => {
            end.status == status
                && end.written.as_slice().starts_with(front)
                && end.told.as_slice() == told
        }
        Err(_) => false,
    }
}

/// The number of lines that a run of the words over a host writes, if it ends with success.
pub(crate) fn count_over(
    alloc: Global,
    words: &Seq<Octets>,
    host: &mut MemoryHost,
) -> Option<usize> {
    match end_of(alloc, words, b"", NOTHING_FAILS, host) {
        Ok(end) => {
            let lines = end.written.iter().filter(|byte| **byte == b'\n').count();
            let is_done = end.status == 0;
            drop(end);
            if is_done { Some(lines) } else { None }
        }
        Err(_) => None,
    }
}

/// Whether the run of this line's words, with this input, ends so.
pub(crate) fn ends(
    alloc: Global,
    line: &str,
    file: &[u8],
    failing: Failing,
    wanted: Wanted,
) -> bool {
    match words_of(alloc, line) {
        Ok(words) => end_so(alloc, &words, file, failing, wanted),
        Err(_) => false,
    }
}

//! What an audit says of a leaf, in short.
use as4_audit::{Audit, AuditRefusal, Finding, audit, check};
use exchange_model::{Event, What};
use pmodes::Modes;
use std::alloc::Global;

/// An answer, without the events.
#[derive(Clone, Copy, PartialEq, Eq)]
pub(crate) enum Said {
    /// The number of records of the start, and the number of events.
    Yes(u64, usize),
    No(u64),
    NotJournal(u64),
    NoMemory,
}

/// A mode by which messages are pushed, and one by which the channel `c` is pulled.
pub(crate) const MODES: &[u8] = b"[[mode]]
name = \"m\"
from = { role = \"r\", party = [ { id = \"a\" } ] }
to = { role = \"r\", party = [ { id = \"b\" } ] }
service = \"s\"
action = \"act\"
push = \"http://h/\"
retries = 3
period = 60000

[[mode]]
name = \"p\"
from = { role = \"r\", party = [ { id = \"a\" } ] }
to = { role = \"r\", party = [ { id = \"b\" } ] }
service = \"s\"
action = \"pulled\"
pull = \"c\"
address = \"http://h/\"
retries = 3
period = 60000
";

/// What is said of a leaf of an endpoint with the two modes.
pub(crate) fn said_of(alloc: Global, leaf: &[u8]) -> Option<Said> {
    let modes = Modes::read(alloc, MODES).ok()?;
    let said = match audit(alloc, &modes, leaf) {
        Ok(said) => short(said),
        Err(AuditRefusal::NotJournal { at }) => Said::NotJournal(at),
        Err(AuditRefusal::NoMemory) => Said::NoMemory,
    };
    drop(modes);
    Some(said)
}

/// What `check` finds of the same leaf.
pub(crate) fn found_of(alloc: Global, leaf: &[u8]) -> Option<Said> {
    let modes = Modes::read(alloc, MODES).ok()?;
    let found = match check(alloc, &modes, leaf) {
        Ok(Finding::Yes { start, events }) => Said::Yes(start, events as usize),
        Ok(Finding::No { index }) => Said::No(index),
        Err(AuditRefusal::NotJournal { at }) => Said::NotJournal(at),
        Err(AuditRefusal::NoMemory) => Said::NoMemory,
    };
    drop(modes);
    Some(found)
}

fn short(said: Audit) -> Said {
    match said {
        Audit::Yes { start, events } => {
            let count = events.items().len();
            drop(events);
            Said::Yes(start, count)
        }
        Audit::No { index } => Said::No(index),
    }
}

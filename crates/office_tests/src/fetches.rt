//! A disk that fails while an office reads payloads, and reads that are prepared first.
use crate::desk::{Desk, NEVER, after, after_a_stop};
use crate::disks::{EMPTY, PICKS, disk_of};
use crate::steps::{FAILED, STOPPED, Said, Step, Steps};
use as4_disk::{Disk, MemoryDisk, Pick};
use office::OfficeFault;
use std::alloc::Global;

/// A `Read` of the first message that is prepared, and then enacted or abandoned.
struct Row {
    what: &'static str,
    before: Steps,
    is_abandoned: bool,
    /// The reply that the prepared step shows, and what `enact` or `abandon` returns.
    says: [Said; 2],
    then: Steps,
    /// The disk's count of faults at the end.
    faults: u64,
}

const CAME: Steps = &[(Step::Came, Said::Receipt)];

/// The next device call fails.
const STOPS: Steps = &[(Step::Came, Said::Receipt), (Step::Stop(0), Said::Done)];

/// The office stopped at a read.
const STANDS_STILL: Steps = &[
    (Step::Came, Said::Receipt),
    (Step::Stop(0), Said::Done),
    (Step::Read(0), FAILED),
    (Step::Seen, Said::Count(2)),
];

/// The office stopped at a write.
const DIDNT_WRITE: Steps = &[
    (Step::Came, Said::Receipt),
    (Step::Stop(0), Said::Done),
    (Step::Tick(1000), FAILED),
    (Step::Seen, Said::Count(2)),
];

/// Two calls were entered. The office is stopped: it refuses each event without a device call.
const HALTED: Steps = &[
    (Step::Seen, Said::Count(2)),
    (Step::Read(0), STOPPED),
    (Step::Came, STOPPED),
    (Step::Tick(1000), STOPPED),
    (Step::Checkpoint, STOPPED),
    (Step::Seen, Said::Count(5)),
];

/// The refused `Read` was entered as the third call.
const STILL_HALTED: Steps = &[
    (Step::Seen, Said::Count(3)),
    (Step::Read(0), STOPPED),
    (Step::Read(1), STOPPED),
    (Step::Seen, Said::Count(5)),
];

const IS_READ: Steps = &[
    (Step::Seen, Said::Count(2)),
    (Step::Read(0), Said::Entry),
    (Step::Seen, Said::Count(3)),
];

/// The abandoned step wasn't entered, and the office goes on.
const GOES_ON: Steps = &[
    (Step::Seen, Said::Count(1)),
    (Step::Read(0), Said::Entry),
    (Step::Came, Said::Receipt),
    (Step::Tick(1000), Said::Ticked(0)),
    (Step::Seen, Said::Count(4)),
];

const NO_MEMORY: Said = Said::Fault(OfficeFault::NoMemory);

static ROWS: [Row; 7] = [
    Row {
        what: "enacted",
        before: CAME,
        is_abandoned: false,
        says: [Said::Entry, Said::Entry],
        then: IS_READ,
        faults: 0,
    },
    Row {
        what: "abandoned",
        before: CAME,
        is_abandoned: true,
        says: [Said::Entry, NO_MEMORY],
        then: GOES_ON,
        faults: 0,
    },
    Row {
        what: "the disk fails, and it is enacted",
        before: STOPS,
        is_abandoned: false,
        says: [STOPPED, FAILED],
        then: HALTED,
        faults: 1,
    },
    Row {
        what: "the disk fails, and it is abandoned",
        before: STOPS,
        is_abandoned: true,
        says: [STOPPED, FAILED],
        then: HALTED,
        faults: 1,
    },
    Row {
        what: "a stopped office, enacted",
        before: STANDS_STILL,
        is_abandoned: false,
        says: [STOPPED, STOPPED],
        then: STILL_HALTED,
        faults: 1,
    },
    Row {
        what: "a stopped office, abandoned",
        before: STANDS_STILL,
        is_abandoned: true,
        says: [STOPPED, NO_MEMORY],
        then: HALTED,
        faults: 1,
    },
    Row {
        what: "an office stopped at a write, enacted",
        before: DIDNT_WRITE,
        is_abandoned: false,
        says: [STOPPED, STOPPED],
        then: STILL_HALTED,
        faults: 1,
    },
];

/// The office is opened again, and reads the message.
const CAME_ONCE: Steps = &[
    (Step::Inbox, Said::Count(1)),
    (Step::Read(0), Said::Entry),
    (Step::Read(1), Said::NoEntry),
];

/// The disk after the row's steps, if each answer is the expected one.
fn disk_after(alloc: Global, row: &Row) -> Option<MemoryDisk> {
    match Desk::open(alloc, disk_of(alloc, EMPTY, &[])?) {
        Ok(mut desk) => {
            let before = desk.says(row.before);
            let says = desk.reads_in_two(row.is_abandoned);
            let then = desk.says(row.then);
            let disk = desk.into_disk();
            if before && then && says == Some(row.says) {
                Some(disk)
            } else {
                drop(disk);
                None
            }
        }
        Err((_, disk)) => {
            drop(disk);
            None
        }
    }
}

/// The disk's count of faults, if each answer is the expected one and the office reads the message when it is opened
/// again.
fn faults_after(alloc: Global, row: &Row) -> Option<u64> {
    let mut disk = disk_after(alloc, row)?;
    let faults = disk.faults();
    disk.stop_at(NEVER);
    let disk = after(alloc, disk, CAME_ONCE)?;
    drop(disk);
    Some(faults)
}

fn first_other_row(alloc: Global) -> Option<&'static str> {
    for row in &ROWS {
        if faults_after(alloc, row) != Some(row.faults) {
            return Some(row.what);
        }
    }
    None
}

#[test]
fn a_read_that_is_prepared_shows_what_is_answered(rt: HostRuntime) {
    assert_eq!(rt; first_other_row(rt.alloc()), None);
}

/// A read makes three device calls: for the leaf's length, the record's head and its body. The fourth call is made by
/// the second read.
const THREE_CALLS: Steps = &[
    (Step::Came, Said::Receipt),
    (Step::Stop(4), Said::Done),
    (Step::Read(0), Said::Entry),
    (Step::Read(0), FAILED),
];

fn has_three_calls(alloc: Global) -> Option<bool> {
    let disk = after(alloc, disk_of(alloc, EMPTY, &[])?, THREE_CALLS)?;
    drop(disk);
    Some(true)
}

/// Whether the message is read after a stop at this device call of a read, and a crash.
fn is_read_after(alloc: Global, call: u64, pick: Pick) -> Option<bool> {
    let disk = disk_of(alloc, EMPTY, &[])?;
    let disk = after_a_stop(alloc, disk, CAME, Step::Read(0), call, pick)?;
    let disk = after(alloc, disk, CAME_ONCE)?;
    drop(disk);
    Some(true)
}

/// The first device call of a read for which this isn't so; 4 if a read doesn't make three calls.
fn first_other_call(alloc: Global) -> Option<u64> {
    for call in 0..=3 {
        for pick in &PICKS {
            if is_read_after(alloc, call, *pick) != Some(true) {
                return Some(call);
            }
        }
    }
    if has_three_calls(alloc) == Some(true) {
        None
    } else {
        Some(4)
    }
}

#[test]
fn a_stop_in_a_read_leaves_the_message(rt: HostRuntime) {
    assert_eq!(rt; first_other_call(rt.alloc()), None);
}

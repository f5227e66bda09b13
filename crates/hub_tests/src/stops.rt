//! A disk that stops at each device call of a relaying, and what is relayed once the store is opened again.
use crate::desk::{after, left_after_stop};
use crate::disks::{PICKS, empty};
use crate::steps::{Said, Step, Steps};
use as4_disk::Pick;
use std::alloc::Global;

/// One message is received.
const COMES: Steps = &[(Step::Came(b"1@a"), Said::Receipt)];

/// The device calls of a relaying: three read the message, and four write the record of the submission.
const CALLS: u64 = 7;

/// The relaying meets the stop.
const FAILS: Steps = &[
    (Step::Relay(b"n"), Said::DiskFault),
    (Step::Relay(b"n"), Said::Stopped),
    (Step::Submissions, Said::Count(0)),
];

/// The call after the last isn't made.
const RELAYED: Steps = &[(Step::Relay(b"n"), Said::Relayed(0))];

/// Where the submission isn't on the disk, it is made now.
const RELAYED_NOW: Steps = &[
    (Step::Submissions, Said::Count(0)),
    (Step::Relay(b"n"), Said::Relayed(0)),
    (Step::Relay(b"n"), Said::Nothing),
    (Step::Submissions, Said::Count(1)),
];

/// Where it is, it isn't made again.
const RELAYED_BEFORE: Steps = &[
    (Step::Submissions, Said::Count(1)),
    (Step::Relay(b"n"), Said::Nothing),
    (Step::Submissions, Said::Count(1)),
];

/// The submission is on the disk once its gate was written, by the last call but one, where the crash leaves what was written
/// last.
fn steps_after(call: u64, pick: Pick) -> Steps {
    match pick {
        Pick::New => {
            if call < 6 {
                RELAYED_NOW
            } else {
                RELAYED_BEFORE
            }
        }
        Pick::Old | Pick::Other => RELAYED_NOW,
    }
}

/// Whether a relaying of one message that is stopped at that call leaves what the steps say.
fn is_so_after(alloc: Global, call: u64, pick: Pick) -> Option<bool> {
    let disk = after(alloc, empty(alloc), COMES)?;
    let disk = left_after_stop(alloc, disk, call, FAILS, pick)?;
    let disk = after(alloc, disk, steps_after(call, pick))?;
    drop(disk);
    Some(true)
}

/// The first call at which a stop leaves anything else.
fn first_other(alloc: Global) -> Option<u64> {
    for call in 1..=CALLS {
        for pick in &PICKS {
            if is_so_after(alloc, call, *pick) != Some(true) {
                return Some(call);
            }
        }
    }
    None
}

#[test]
fn a_stopped_relaying_submits_once(rt: HostRuntime) {
    assert_eq!(rt; first_other(rt.alloc()), None);
}

fn makes_seven_calls(alloc: Global) -> Option<bool> {
    let disk = after(alloc, empty(alloc), COMES)?;
    let disk = left_after_stop(alloc, disk, CALLS + 1, RELAYED, Pick::Old)?;
    let disk = after(alloc, disk, RELAYED_BEFORE)?;
    drop(disk);
    Some(true)
}

#[test]
fn a_relaying_makes_seven_device_calls(rt: HostRuntime) {
    assert_eq!(rt; makes_seven_calls(rt.alloc()), Some(true));
}

//! Runs of a handler.

use crate::rig::{Given, Left, Store, host_of, run_on};
use crate::samples::Sample;
use handler::HandlerEnd;
use std::alloc::Global;
use std::sync::Wait;
use std::test::Fail;
use std::thread::Threads;

const NOTHING: Given = Given {
    modes: Some(Sample::Pushes),
    leaf0: None,
    peers: &[],
    locals: &[],
    answers: &[],
    moments: &[],
    failing: [0, 0],
    workers: 1,
    turns: 1,
    keep: 1,
};

const EMPTY: Store = Store {
    submitted: 0,
    received: 0,
    moment: 0,
    second: false,
};

const SERVED: Left = Left {
    end: HandlerEnd::Served,
    counts: (0, 0, 0),
    line: true,
    peers: 0,
    locals: 0,
    store: Some(EMPTY),
    tries: 0,
};

/// What a handler leaves that ended before it served.
const ENDED: Left = Left {
    end: HandlerEnd::HostFault,
    counts: (0, 0, 0),
    line: false,
    peers: 0,
    locals: 0,
    store: Some(EMPTY),
    tries: 0,
};

const FAILED: Left = Left {
    counts: (1, 0, 0),
    ..ENDED
};

const ROWS: [(Given, Left); 19] = [
    (NOTHING, SERVED),
    (
        Given {
            peers: &[Sample::Package],
            ..NOTHING
        },
        Left {
            store: Some(Store {
                received: 1,
                ..EMPTY
            }),
            ..SERVED
        },
    ),
    // a repeated message is received once, and a guest for whom there is no turn stays
    (
        Given {
            peers: &[Sample::Package, Sample::Package, Sample::Package],
            turns: 2,
            ..NOTHING
        },
        Left {
            store: Some(Store {
                received: 1,
                ..EMPTY
            }),
            peers: 1,
            ..SERVED
        },
    ),
    (
        Given {
            peers: &[Sample::Package, Sample::NoRequest],
            workers: 11,
            turns: 2,
            ..NOTHING
        },
        Left {
            store: Some(Store {
                received: 1,
                ..EMPTY
            }),
            ..SERVED
        },
    ),
    (
        Given {
            locals: &[Sample::Submission],
            ..NOTHING
        },
        Left {
            store: Some(Store {
                submitted: 1,
                ..EMPTY
            }),
            ..SERVED
        },
    ),
    (
        Given {
            locals: &[Sample::Submission, Sample::Submission],
            ..NOTHING
        },
        Left {
            store: Some(Store {
                submitted: 1,
                ..EMPTY
            }),
            locals: 1,
            ..SERVED
        },
    ),
    // one guest submits twice on one connection
    (
        Given {
            locals: &[Sample::TwoSubmissions],
            keep: 10,
            ..NOTHING
        },
        Left {
            store: Some(Store {
                submitted: 2,
                ..EMPTY
            }),
            ..SERVED
        },
    ),
    // the connection is closed after the first answer
    (
        Given {
            locals: &[Sample::TwoSubmissions],
            ..NOTHING
        },
        Left {
            store: Some(Store {
                submitted: 1,
                ..EMPTY
            }),
            ..SERVED
        },
    ),
    (
        Given {
            modes: Some(Sample::Collects),
            answers: &[Sample::User],
            ..NOTHING
        },
        Left {
            store: Some(Store {
                received: 1,
                ..EMPTY
            }),
            ..SERVED
        },
    ),
    // the journal is compacted when it is opened
    (
        Given {
            leaf0: Some(Sample::TickedTwice),
            ..NOTHING
        },
        Left {
            store: Some(Store {
                moment: 2_000,
                second: true,
                ..EMPTY
            }),
            ..SERVED
        },
    ),
    (
        Given {
            modes: None,
            ..NOTHING
        },
        Left {
            end: HandlerEnd::ModesRefused,
            ..ENDED
        },
    ),
    (
        Given {
            modes: Some(Sample::BadModes),
            ..NOTHING
        },
        Left {
            end: HandlerEnd::ModesRefused,
            ..ENDED
        },
    ),
    // an empty file has no modes, which is no fault
    (
        Given {
            modes: Some(Sample::NoModes),
            ..NOTHING
        },
        SERVED,
    ),
    (
        Given {
            leaf0: Some(Sample::NoJournal),
            peers: &[Sample::Package],
            locals: &[Sample::Submission],
            ..NOTHING
        },
        Left {
            end: HandlerEnd::NotJournal { at: 0 },
            store: None,
            peers: 1,
            locals: 1,
            ..ENDED
        },
    ),
    // a call of the host fails: reading the file, opening a door, the other door, and the store
    (
        Given {
            failing: [1, 0],
            peers: &[Sample::Package],
            ..NOTHING
        },
        Left { peers: 1, ..FAILED },
    ),
    (
        Given {
            failing: [2, 0],
            peers: &[Sample::Package],
            ..NOTHING
        },
        Left { peers: 1, ..FAILED },
    ),
    (
        Given {
            failing: [3, 0],
            peers: &[Sample::Package],
            ..NOTHING
        },
        Left { peers: 1, ..FAILED },
    ),
    (
        Given {
            failing: [4, 0],
            peers: &[Sample::Package],
            ..NOTHING
        },
        Left { peers: 1, ..FAILED },
    ),
    // the disk fails while the journal is opened
    (
        Given {
            failing: [0, 1],
            peers: &[Sample::Package],
            ..NOTHING
        },
        Left { peers: 1, ..FAILED },
    ),
];

fn runs_as<R: Threads + Wait + Sync>(rt: &R, alloc: Global, given: &Given, wanted: &Left) -> bool {
    let Some(mut host) = host_of(alloc, given) else {
        return false;
    };
    let left = run_on(rt, alloc, &mut host, given);
    drop(host);
    // A submission may have been tried already: its worker and the one that pushes run side by side.
    match left {
        Some(left) => Left { tries: 0, ..left } == *wanted,
        None => false,
    }
}

// The first row that leaves something else.
fn first_wrong<R: Threads + Wait + Sync>(rt: &R, alloc: Global) -> Option<usize> {
    for (at, (given, wanted)) in ROWS.iter().enumerate() {
        if !runs_as(rt, alloc, given, wanted) {
            return Some(at);
        }
    }
    None
}

#[test]
fn a_handler_leaves_this(rt: HostRuntime) -> Result<(), Fail> {
    assert_eq!(rt; first_wrong(&rt, rt.alloc()), None);
    Ok(())
}

// Whether a store has one submission and nothing else. Where the first handler has tried it already, the second one
// compacts the journal, so either leaf may be current.
fn has_one_submission(store: Option<Store>) -> bool {
    match store {
        Some(store) => {
            store
                == Store {
                    submitted: 1,
                    second: store.second,
                    ..EMPTY
                }
        }
        None => false,
    }
}

// A message is submitted, and a second handler on the same host tries to send it: exactly one try was made.
fn is_tried_once<R: Threads + Wait + Sync>(rt: &R, alloc: Global) -> bool {
    let given = Given {
        locals: &[Sample::Submission],
        ..NOTHING
    };
    let Some(mut host) = host_of(alloc, &given) else {
        return false;
    };
    let first = run_on(rt, alloc, &mut host, &given);
    let again = run_on(rt, alloc, &mut host, &given);
    drop(host);
    match (first, again) {
        (Some(first), Some(again)) => {
            first.end == HandlerEnd::Served
                && again.end == HandlerEnd::Served
                && has_one_submission(again.store)
                && again.tries == 1
        }
        _ => false,
    }
}

#[test]
fn what_is_submitted_is_tried_by_the_next_handler(rt: HostRuntime) -> Result<(), Fail> {
    assert_eq!(rt; is_tried_once(&rt, rt.alloc()), true);
    Ok(())
}

// The number of the first device call whose failure leaves a store that doesn't open, or an end that is no host fault. A
// handler with one guest at each door makes at most `calls` device calls that may fail.
fn first_lost<R: Threads + Wait + Sync>(rt: &R, alloc: Global, calls: u64) -> Option<u64> {
    for call in 0..calls {
        let given = Given {
            leaf0: Some(Sample::TickedTwice),
            peers: &[Sample::Package],
            locals: &[Sample::Submission],
            failing: [0, call.saturating_add(1)],
            ..NOTHING
        };
        let Some(mut host) = host_of(alloc, &given) else {
            return Some(call);
        };
        let left = run_on(rt, alloc, &mut host, &given);
        drop(host);
        match left {
            Some(left) if left.end == HandlerEnd::HostFault && left.store.is_some() => {}
            _ => return Some(call),
        }
    }
    None
}

#[test]
fn a_failing_disk_leaves_a_store(rt: HostRuntime) -> Result<(), Fail> {
    assert_eq!(rt; first_lost(&rt, rt.alloc(), 24), None);
    Ok(())
}

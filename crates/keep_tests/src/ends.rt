//! How connections end, each with an office of its own.
ghost use Rattle.std.specs.Prelude.{◌≡◌, ◌≤◌};
ghost use Rattle.as4_disk.specs.MemoryMeaning.{memory_meaning};
ghost use Rattle.sessions.specs.Shared.{IsOpened};

use crate::rig::{BreakKind, Connection, EndKind, Left, Shared, gives, opened};
use crate::samples::{Text, bytes_of};
use as4_disk::MemoryDisk;
use office::{Call, Office};
use pass_book::Pass;
use sessions::{Opening, SharedOffice};
use std::alloc::{AllocError, Global};
use std::marker::Brand;
use std::sync::{Mutex, Wait};
use std::test::Fail;

/// The requests; how many bytes of the last are missing; the limit; the numbers of the read and of the write that fail, 0 for
/// none;
/// how the connection ends, and the responses; the share, and the number of received messages.
type Row = (
    &'static [Text],
    usize,
    u64,
    [u64; 2],
    EndKind,
    &'static [Text],
    [u64; 2],
);

const NONE: [u64; 2] = [0, 0];

const ROWS: [Row; 17] = [
    (
        &[Text::Invoice, Text::Invoice],
        0,
        10,
        NONE,
        EndKind::Closed(2),
        &[Text::FirstKept, Text::SecondKept],
        [2, 1],
    ),
    (
        &[Text::Closing, Text::Closing],
        0,
        10,
        NONE,
        EndKind::Closed(1),
        &[Text::FirstClosed],
        [1, 1],
    ),
    (
        &[Text::Invoice, Text::Closing],
        0,
        10,
        NONE,
        EndKind::Closed(2),
        &[Text::FirstKept, Text::SecondClosed],
        [2, 1],
    ),
    (
        &[Text::Invoice, Text::Invoice],
        1,
        10,
        NONE,
        EndKind::Broken(1, BreakKind::Cut),
        &[Text::FirstKept],
        [1, 1],
    ),
    (
        &[Text::Invoice, Text::Invoice],
        0,
        1,
        NONE,
        EndKind::Closed(1),
        &[Text::FirstClosed],
        [1, 1],
    ),
    (
        &[Text::Invoice, Text::Invoice],
        0,
        2,
        NONE,
        EndKind::Closed(2),
        &[Text::FirstKept, Text::SecondClosed],
        [2, 1],
    ),
    (&[], 0, 10, NONE, EndKind::Closed(0), &[], [0, 0]),
    (
        &[Text::Invoice],
        0,
        1000,
        NONE,
        EndKind::Closed(1),
        &[Text::FirstKept],
        [1, 1],
    ),
    // a message that is refused makes no call, and the connection goes on
    (
        &[Text::NoMessage, Text::Invoice],
        0,
        10,
        NONE,
        EndKind::Closed(2),
        &[Text::ErrorKept, Text::SecondKept],
        [1, 1],
    ),
    // a message without an answer gets a response that keeps the connection, too
    (
        &[Text::Failure, Text::Invoice],
        0,
        10,
        NONE,
        EndKind::Closed(2),
        &[Text::AcceptedKept, Text::SecondKept],
        [2, 1],
    ),
    (
        &[Text::Invoice, Text::Stranger],
        0,
        10,
        NONE,
        EndKind::Broken(1, BreakKind::Bad),
        &[Text::FirstKept, Text::BadRequest],
        [1, 1],
    ),
    (
        &[Text::Invoice, Text::Nonsense, Text::Invoice],
        0,
        10,
        NONE,
        EndKind::Broken(1, BreakKind::Bad),
        &[Text::FirstKept, Text::BadRequest],
        [1, 1],
    ),
    (
        &[Text::Invoice, Text::Invoice],
        0,
        10,
        [1, 0],
        EndKind::Broken(0, BreakKind::ReadFault),
        &[],
        [0, 0],
    ),
    // a further read finds the end, or fails
    (
        &[Text::Invoice, Text::Invoice],
        0,
        10,
        [2, 0],
        EndKind::Broken(2, BreakKind::ReadFault),
        &[Text::FirstKept, Text::SecondKept],
        [2, 1],
    ),
    (
        &[Text::Invoice, Text::Invoice],
        0,
        10,
        [0, 1],
        EndKind::Broken(0, BreakKind::WriteFault),
        &[],
        [1, 1],
    ),
    (
        &[Text::Invoice, Text::Invoice],
        0,
        10,
        [0, 2],
        EndKind::Broken(1, BreakKind::WriteFault),
        &[Text::FirstKept],
        [2, 1],
    ),
    (
        &[Text::Invoice, Text::NoMessage],
        0,
        10,
        [0, 2],
        EndKind::Broken(1, BreakKind::WriteFault),
        &[Text::FirstKept],
        [1, 1],
    ),
];

/// The bytes of the requests, without the last ones.
fn stream_of(alloc: Global, row: &Row) -> Result<Vec<u8>, AllocError> {
    let mut bytes = Vec::new(alloc);
    for request in row.0 {
        bytes.extend_from_slice(bytes_of(*request))?;
    }
    let len = bytes.len().saturating_sub(row.1);
    bytes.truncate(len);
    Ok(bytes)
}

/// What is left after a connection on which these bytes come.
fn after<R: Wait, J: Opening>(
    rt: &R,
    alloc: Global,
    office: Office<'_, MemoryDisk>,
    mut pass: Pass<'_, Call>,
    row: &Row,
    bytes: &[u8],
) -> Left
    requires opened { IsOpened memory_meaning J.Opening office }
    requires book { pass.book ≡ J.book }
{
    let connection = Connection {
        bytes,
        limit: row.2.clamp(1, 1000),
        pieces: &[],
        failing_reads: &row.3[..1],
        failing_writes: &row.3[1..],
    };
    let shared: Shared<'_, J> = Mutex::new(SharedOffice::new(office));
    let is_right = gives(rt, alloc, &shared, &mut pass, connection, row.4, row.5);
    let share = pass.share();
    drop(pass);
    let office = shared.into_inner().into_office();
    let inbox = office.totals().inbox;
    drop(office);
    Left {
        is_right,
        share,
        inbox,
    }
}

fn is_right<R: Wait>(rt: &R, alloc: Global, row: &Row) -> Result<bool, AllocError> {
    let left = Left {
        is_right: true,
        share: row.6[0],
        inbox: row.6[1],
    };
    let bytes = stream_of(alloc, row)?;
    let (office, pass) = opened(alloc, &[])?;
    Ok(after::<_, Brand>(rt, alloc, office, pass, row, bytes.as_slice()) == left)
}

// The first row that leaves something else.
fn first_wrong<R: Wait>(rt: &R, alloc: Global) -> Option<usize> {
    for (at, row) in ROWS.iter().enumerate() {
        if is_right(rt, alloc, row) != Ok(true) {
            return Some(at);
        }
    }
    None
}

#[test]
fn connections_end_as_they_should(rt: HostRuntime) -> Result<(), Fail> {
    assert_eq!(rt; first_wrong(&rt, rt.alloc()), None);
    Ok(())
}

//! Disks that stop, and sinks that fail.

use crate::desk::{Connection, Desk, whole};
use crate::samples::{COUNTED, GET_0, NO_ENTRY, PACKAGE, RECEIPT, UNAVAILABLE};
use crate::shown::EndKind;
use sessions::DoorKind;
use std::alloc::{AllocError, Global};

/// The device call at which the disk stops, the next being 1; how a session of a request ends, and how a second one ends; and
/// how many messages the office has that is opened again from the disk.
type Row = (u64, EndKind, EndKind, u64);

const FAILED: EndKind = EndKind::DiskFault(0, 1);

const STOPPED: EndKind = EndKind::Stopped(0, 1);

// The invoice comes. Its record makes four device calls, of which the third writes its gate.
const ARRIVALS: [Row; 5] = [
    (1, FAILED, STOPPED, 0),
    (2, FAILED, STOPPED, 0),
    (3, FAILED, STOPPED, 1),
    (4, FAILED, STOPPED, 1),
    (5, EndKind::Answered, EndKind::Answered, 1),
];

// The invoice has come, and is read, which makes three device calls.
const READS: [Row; 4] = [
    (1, FAILED, STOPPED, 1),
    (2, FAILED, STOPPED, 1),
    (3, FAILED, STOPPED, 1),
    (4, EndKind::Answered, FAILED, 1),
];

/// What is asked for.
#[derive(Clone, Copy)]
enum Asked {
    /// The invoice comes.
    Arrival,
    /// The first message of the inbox.
    First,
}

// Whether the session ends so, with the response of that.
fn ends(desk: &mut Desk<'_>, asked: Asked, ended: EndKind) -> bool {
    let (door, request, answer) = match asked {
        Asked::Arrival => (DoorKind::Peer, COUNTED, RECEIPT),
        Asked::First => (DoorKind::Local, GET_0, PACKAGE),
    };
    let response = match ended {
        EndKind::Answered => answer,
        _ => UNAVAILABLE,
    };
    desk.answers(door, request, ended, response)
}

// Whether the office has that many invoices, 0 or 1, and one after it comes again.
fn keeps(desk: &mut Desk<'_>, inbox: u64) -> bool {
    let first = if inbox == 0 { NO_ENTRY } else { PACKAGE };
    desk.office.totals().inbox == inbox
        && desk.answers(DoorKind::Local, GET_0, EndKind::Answered, first)
        && ends(desk, Asked::Arrival, EndKind::Answered)
        && ends(desk, Asked::First, EndKind::Answered)
        && desk.office.totals().inbox == 1
}

// Whether two sessions end so, and the office that is opened again has that many messages.
fn stops(desk: Desk<'_>, asked: Asked, row: &Row) -> Result<bool, AllocError> {
    let mut desk = desk;
    desk.office.stop_at(row.0);
    let is_so = ends(&mut desk, asked, row.1) && ends(&mut desk, asked, row.2);
    let mut desk = desk.reopened()?;
    let is_kept = keeps(&mut desk, row.3);
    drop(desk);
    Ok(is_so && is_kept)
}

fn arrives(alloc: Global, row: &Row) -> Result<bool, AllocError> {
    stops(Desk::new(alloc, &[])?, Asked::Arrival, row)
}

fn is_read(alloc: Global, row: &Row) -> Result<bool, AllocError> {
    let mut desk = Desk::new(alloc, &[])?;
    if ends(&mut desk, Asked::Arrival, EndKind::Answered) {
        stops(desk, Asked::First, row)
    } else {
        drop(desk);
        Ok(false)
    }
}

fn first_wrong_arrival(alloc: Global) -> Option<usize> {
    for (at, row) in ARRIVALS.iter().enumerate() {
        if arrives(alloc, row) != Ok(true) {
            return Some(at);
        }
    }
    None
}

fn first_wrong_read(alloc: Global) -> Option<usize> {
    for (at, row) in READS.iter().enumerate() {
        if is_read(alloc, row) != Ok(true) {
            return Some(at);
        }
    }
    None
}

#[test]
fn a_disk_stops_while_a_message_comes(rt: HostRuntime) {
    assert_eq!(rt; first_wrong_arrival(rt.alloc()), None);
}

#[test]
fn a_disk_stops_while_a_message_is_read(rt: HostRuntime) {
    assert_eq!(rt; first_wrong_read(rt.alloc()), None);
}

/// The sizes of the pieces in which the receipt is taken, the numbers of the writes that fail, how the session ends, and how
/// many bytes of the receipt are written.
type Write = (&'static [usize], &'static [u64], EndKind, usize);

// The receipt has 1,158 bytes.
const WRITES: [Write; 6] = [
    (&[], &[1], EndKind::WriteFault, 0),
    (&[], &[2], EndKind::Answered, 1158),
    (&[7], &[2], EndKind::WriteFault, 7),
    (&[7, 1150], &[3], EndKind::WriteFault, 1157),
    (&[1157], &[2], EndKind::WriteFault, 1157),
    (&[7, 1], &[], EndKind::Answered, 1158),
];

// Whether the invoice is served so.
fn writes(desk: &mut Desk<'_>, row: &Write) -> Result<bool, AllocError> {
    let connection = Connection {
        write_pieces: row.0,
        failing_writes: row.1,
        ..whole(DoorKind::Peer, COUNTED)
    };
    let served = desk.serves(connection)?;
    let written = served.written.bytes();
    let is_so = served.ended == row.2 && RECEIPT.starts_with(written) && written.len() == row.3;
    drop(served);
    Ok(is_so)
}

// Whether it is, and the invoice has come all the same.
fn comes(alloc: Global, row: &Write) -> Result<bool, AllocError> {
    let mut desk = Desk::new(alloc, &[])?;
    let is_so = writes(&mut desk, row) == Ok(true) && keeps(&mut desk, 1);
    drop(desk);
    Ok(is_so)
}

fn first_wrong_write(alloc: Global) -> Option<usize> {
    for (at, row) in WRITES.iter().enumerate() {
        if comes(alloc, row) != Ok(true) {
            return Some(at);
        }
    }
    None
}

#[test]
fn a_sink_that_fails_leaves_the_message(rt: HostRuntime) {
    assert_eq!(rt; first_wrong_write(rt.alloc()), None);
}

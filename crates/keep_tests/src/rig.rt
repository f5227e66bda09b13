//! A shared office on a disk in memory, and connections in memory that are kept.
ghost use Rattle.std.specs.Prelude.{◌≡◌, ◌≤◌, ◌^◌, IfOk, []};

use crate::samples::{MODES, Text, bytes_of};
use as4_disk::{Files, MemoryDisk};
use as4_flow::{CountNonces, ListClock, MemorySink, MemorySource};
use as4_keep::{KeepEnd, keep_session};
use as4_values::{Octets, Seq};
use office::{Call, Office};
use pass_book::Pass;
use pmodes::Modes;
use sessions::{DoorKind, Ended, Opening, SharedOffice};
use std::alloc::{AllocError, Global};
use std::sync::{Mutex, Wait};

pub(crate) type Shared<'a, J> = Mutex<SharedOffice<'a, MemoryDisk, J>>;

pub(crate) type Opened<'a> = (Office<'a, MemoryDisk>, Pass<'a, Call>);

/// An office on an empty disk, of which the device calls with these numbers fail, the first being 1.
pub(crate) fn opened<'a>(alloc: Global, failing: &[u64]) -> Result<Opened<'a>, AllocError>
    ensures first { IfOk result (λ o. o.0.list ≡ []) }
    ensures book { IfOk result (λ o. o.1.book ≡ o.0.book) }
    ensures stake { IfOk result (λ o. o.1.stake ≡ 2 ^ 63) }
{
    let Ok(modes) = Modes::read(alloc, MODES) else {
        return Err(AllocError);
    };
    let files = Files {
        selector: Octets::of(Vec::new(alloc)),
        leaf0: Octets::of(Vec::new(alloc)),
        leaf1: Octets::of(Vec::new(alloc)),
    };
    match Office::open(
        alloc,
        MemoryDisk::of(files, Seq::of(failing.to_vec(alloc)?)),
        modes,
    ) {
        Ok(opened) => Ok(opened),
        Err((_, disk)) => {
            drop(disk);
            Err(AllocError)
        }
    }
}

/// How a request ended that broke its connection.
#[derive(Clone, Copy, Debug, PartialEq, Eq)]
pub(crate) enum BreakKind {
    Cut,
    Bad,
    ReadFault,
    WriteFault,
    DiskFault,
    Stopped,
    Other,
}

/// How a connection ended, with the number of requests that were answered in full.
#[derive(Clone, Copy, Debug, PartialEq, Eq)]
pub(crate) enum EndKind {
    Closed(u64),
    Broken(u64, BreakKind),
}

fn break_of(ended: Ended) -> BreakKind {
    match ended {
        Ended::Cut => BreakKind::Cut,
        Ended::Bad => BreakKind::Bad,
        Ended::ReadFault => BreakKind::ReadFault,
        Ended::WriteFault => BreakKind::WriteFault,
        Ended::DiskFault { .. } => BreakKind::DiskFault,
        Ended::Stopped { .. } => BreakKind::Stopped,
        other => {
            drop(other);
            BreakKind::Other
        }
    }
}

pub(crate) fn kind_of(end: KeepEnd) -> EndKind {
    match end {
        KeepEnd::Closed { served } => EndKind::Closed(served),
        KeepEnd::Broken { served, ended } => EndKind::Broken(served, break_of(ended)),
    }
}

/// What comes on a connection, and how it is served.
#[derive(Clone, Copy)]
pub(crate) struct Connection<'a> {
    pub(crate) bytes: &'a [u8],
    /// The most requests that are served.
    pub(crate) limit: u64,
    /// The sizes of the pieces in which the bytes come.
    pub(crate) pieces: &'a [usize],
    /// The numbers of the reads and of the writes that fail.
    pub(crate) failing_reads: &'a [u64],
    pub(crate) failing_writes: &'a [u64],
}

/// These bytes at the peer's door, at once and without a fault.
pub(crate) fn whole(bytes: &[u8], limit: u64) -> Connection<'_>
    ensures limit { result.limit ≡ limit }
{
    Connection {
        bytes,
        limit,
        pieces: &[],
        failing_reads: &[],
        failing_writes: &[],
    }
}

/// How a connection ended, and the bytes that were written.
#[derive(Drop)]
pub(crate) struct Kept {
    pub(crate) end: EndKind,
    pub(crate) written: Octets,
}

/// The streams of a connection.
fn streams(
    alloc: Global,
    connection: Connection<'_>,
) -> Result<(MemorySource, MemorySink), AllocError> {
    let bytes = connection.bytes.to_vec(alloc)?;
    let pieces = connection.pieces.to_vec(alloc)?;
    let failing = connection.failing_reads.to_vec(alloc)?;
    let source = MemorySource::of(bytes, pieces, failing);
    let failing = connection.failing_writes.to_vec(alloc)?;
    Ok((source, MemorySink::of(alloc, Vec::new(alloc), failing)))
}

/// Serves a connection at the peer's door, at the moment 0 and with the nonces from 1.
pub(crate) fn keeps<R: Wait, J: Opening>(
    rt: &R,
    alloc: Global,
    office: &Shared<'_, J>,
    pass: &mut Pass<'_, Call>,
    connection: Connection<'_>,
) -> Result<Kept, AllocError>
    requires book { pass.old.book ≡ J.book }
    requires some { 1 ≤ connection.limit }
    requires few { connection.limit ≤ 1000 }
    ensures book { pass.new.book ≡ J.book }
{
    let (mut source, mut sink) = streams(alloc, connection)?;
    let mut clock = ListClock::of(Vec::new(alloc));
    let mut nonces = CountNonces::of(1);
    let end = keep_session(
        rt,
        alloc,
        office,
        pass,
        DoorKind::Peer,
        connection.limit,
        &mut source,
        &mut sink,
        &mut clock,
        &mut nonces,
    );
    drop(source);
    drop(clock);
    Ok(Kept {
        end: kind_of(end),
        written: Octets::of(sink.into_bytes()),
    })
}

/// Whether a connection is served so: how it ends, and the texts that are written one after another.
pub(crate) fn gives<R: Wait, J: Opening>(
    rt: &R,
    alloc: Global,
    office: &Shared<'_, J>,
    pass: &mut Pass<'_, Call>,
    connection: Connection<'_>,
    end: EndKind,
    texts: &[Text],
) -> bool
    requires book { pass.old.book ≡ J.book }
    requires some { 1 ≤ connection.limit }
    requires few { connection.limit ≤ 1000 }
    ensures book { pass.new.book ≡ J.book }
{
    match keeps(rt, alloc, office, pass, connection) {
        Ok(kept) => {
            let is_so = kept.end == end && are_joined(kept.written.bytes(), texts);
            drop(kept);
            is_so
        }
        Err(_) => false,
    }
}

/// Whether the bytes are these texts, one after another.
fn are_joined(bytes: &[u8], texts: &[Text]) -> bool {
    let mut rest = bytes;
    for text in texts {
        match rest.strip_prefix(bytes_of(*text)) {
            Some(more) => rest = more,
            None => return false,
        }
    }
    rest.is_empty()
}

/// The bytes of two requests, one after the other.
pub(crate) fn both(alloc: Global, first: &[u8], second: &[u8]) -> Result<Vec<u8>, AllocError> {
    let mut bytes = first.to_vec(alloc)?;
    bytes.extend_from_slice(second)?;
    Ok(bytes)
}

/// What is left after connections: whether each was served as it should be, the share of the pass, and how many messages
/// are received.
#[derive(Clone, Copy, Debug, PartialEq, Eq)]
pub(crate) struct Left {
    pub(crate) is_right: bool,
    pub(crate) share: u64,
    pub(crate) inbox: u64,
}

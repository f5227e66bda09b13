//! An office that sessions are served by, with a pass of its history.
ghost use Rattle.std.specs.Prelude.{◌≡◌, ◌^◌, IfOk, []};

use crate::samples::MODES;
use crate::shown::{EndKind, Served, kind_of};
use as4_disk::{Files, MemoryDisk};
use as4_flow::{CountNonces, ListClock, MemorySink, MemorySource};
use as4_http::{Method, Request};
use as4_values::{MAX_MOMENT, Octets, Seq};
use exchange_model::{Event, Reply, What};
use office::{Call, Office};
use pass_book::Pass;
use pmodes::Modes;
use sessions::{DoorKind, reply_on, session_on};
use std::alloc::{AllocError, Global};

/// More device calls than a test makes.
const NEVER: u64 = 1 << 40;

/// What comes on a connection, and how.
#[derive(Clone, Copy)]
pub(crate) struct Connection<'a> {
    pub(crate) door: DoorKind,
    pub(crate) bytes: &'a [u8],
    /// The sizes of the pieces in which they come.
    pub(crate) pieces: &'a [usize],
    /// The numbers of the reads and of the writes that fail.
    pub(crate) failing_reads: &'a [u64],
    pub(crate) failing_writes: &'a [u64],
    /// The sizes of the pieces in which the response is taken.
    pub(crate) write_pieces: &'a [usize],
}

/// These bytes, at once and without a fault.
pub(crate) fn whole(door: DoorKind, bytes: &[u8]) -> Connection<'_> {
    Connection {
        door,
        bytes,
        pieces: &[],
        failing_reads: &[],
        failing_writes: &[],
        write_pieces: &[],
    }
}

/// An office with the pass that has all stakes.
#[derive(Drop)]
pub(crate) struct Desk<'a> {
    pub(crate) alloc: Global,
    pub(crate) office: Office<'a, MemoryDisk>,
    pub(crate) pass: Pass<'a, Call>,
    ghost one_book: { pass.book ≡ office.book },
}

impl<'a> Desk<'a> {
    /// An office on this disk.
    pub(crate) fn on(alloc: Global, disk: MemoryDisk) -> Result<Desk<'a>, AllocError>
        ensures first { IfOk result (λ desk. desk.office.list ≡ []) }
        ensures stake { IfOk result (λ desk. desk.pass.stake ≡ 2 ^ 63) }
    {
        let Ok(modes) = Modes::read(alloc, MODES) else {
            drop(disk);
            return Err(AllocError);
        };
        match Office::open(alloc, disk, modes) {
            Ok((office, pass)) => Ok(Desk {
                alloc,
                office,
                pass,
            }),
            Err((_, disk)) => {
                drop(disk);
                Err(AllocError)
            }
        }
    }

    /// An office on an empty disk, on which the calls of these numbers fail.
    pub(crate) fn new(alloc: Global, failing: &[u64]) -> Result<Desk<'a>, AllocError>
        ensures first { IfOk result (λ desk. desk.office.list ≡ []) }
        ensures stake { IfOk result (λ desk. desk.pass.stake ≡ 2 ^ 63) }
    {
        Desk::on(alloc, empty_disk(alloc, failing)?)
    }

    /// Whether the next message is dequeued.
    #[tactic(auto, unfolding(exchange_model::specs::Coming::may_come))]
    pub(crate) fn takes(&mut self) -> bool {
        let event = Event {
            stamp: 0,
            nonce: 5,
            what: What::Take,
        };
        match self.office.step(&mut self.pass, event) {
            Ok(reply) => {
                let is_pushed = matches!(reply, Reply::Push { .. });
                drop(reply);
                is_pushed
            }
            Err(_) => false,
        }
    }

    /// Whether the clock is set to this moment.
    pub(crate) fn ticks(&mut self, moment: u64) -> bool {
        if moment > MAX_MOMENT {
            return false;
        }
        match self.office.tick(&mut self.pass, moment) {
            Ok(reply) => {
                let is_ticked = matches!(reply, Reply::Ticked { .. });
                drop(reply);
                is_ticked
            }
            Err(_) => false,
        }
    }

    /// Serves a connection at the moment 0, with the nonce 1.
    pub(crate) fn serves(&mut self, connection: Connection<'_>) -> Result<Served, AllocError> {
        serves(self.alloc, &mut self.office, &mut self.pass, connection)
    }

    /// Answers a GET of this target at the local door.
    pub(crate) fn replies(&mut self, target: &str, kept: bool) -> Result<Served, AllocError> {
        let request = Request {
            method: Method::Get,
            target: Octets::of(target.as_bytes().to_vec(self.alloc)?),
            media: None,
            body: Octets::of(Vec::new(self.alloc)),
        };
        let mut clock = ListClock::of(Vec::new(self.alloc));
        let mut nonces = CountNonces::of(1);
        let (ended, written) = reply_on(
            self.alloc,
            &mut self.office,
            &mut self.pass,
            DoorKind::Local,
            request,
            kept,
            &mut clock,
            &mut nonces,
        );
        drop(clock);
        let bytes = written.bytes().to_vec(self.alloc);
        drop(written);
        let kind = kind_of(ended);
        Ok(Served {
            ended: kind,
            written: Octets::of(bytes?),
            left: 0,
        })
    }

    /// An office that is opened again from the disk, on which no call fails any more.
    pub(crate) fn reopened(self) -> Result<Desk<'a>, AllocError> {
        let Desk {
            alloc,
            office,
            pass,
        } = self;
        drop(pass);
        let mut disk = office.into_disk();
        disk.stop_at(NEVER);
        Desk::on(alloc, disk)
    }

    /// Whether what comes at once at this door is served so.
    pub(crate) fn answers(
        &mut self,
        door: DoorKind,
        bytes: &[u8],
        ended: EndKind,
        written: &[u8],
    ) -> bool {
        self.gives(whole(door, bytes), ended, written)
    }

    /// Whether this connection is served so.
    pub(crate) fn gives(
        &mut self,
        connection: Connection<'_>,
        ended: EndKind,
        written: &[u8],
    ) -> bool {
        match self.serves(connection) {
            Ok(served) => {
                let is_so = served.is(ended, written);
                drop(served);
                is_so
            }
            Err(_) => false,
        }
    }
}

/// A disk on which nothing was written, and on which the calls of these numbers fail.
pub(crate) fn empty_disk(alloc: Global, failing: &[u64]) -> Result<MemoryDisk, AllocError> {
    let files = Files {
        selector: Octets::of(Vec::new(alloc)),
        leaf0: Octets::of(Vec::new(alloc)),
        leaf1: Octets::of(Vec::new(alloc)),
    };
    match failing.to_vec(alloc) {
        Ok(failing) => Ok(MemoryDisk::of(files, Seq::of(failing))),
        Err(error) => {
            drop(files);
            Err(error)
        }
    }
}

/// Serves a connection at the moment 0, with the nonce 1.
pub(crate) fn serves(
    alloc: Global,
    office: &mut Office<'_, MemoryDisk>,
    pass: &mut Pass<'_, Call>,
    connection: Connection<'_>,
) -> Result<Served, AllocError>
    requires book { pass.old.book ≡ office.old.book }
    ensures office { office.new.book ≡ office.old.book }
    ensures pass { pass.new.book ≡ pass.old.book }
{
    let (mut source, mut sink) = streams(alloc, connection)?;
    let mut clock = ListClock::of(Vec::new(alloc));
    let mut nonces = CountNonces::of(1);
    let ended = session_on(
        alloc,
        office,
        pass,
        connection.door,
        &mut source,
        &mut sink,
        &mut clock,
        &mut nonces,
    );
    let left = source.rest().len();
    drop(source);
    drop(clock);
    Ok(Served {
        ended: kind_of(ended),
        written: Octets::of(sink.into_bytes()),
        left,
    })
}

/// The streams of a connection.
pub(crate) fn streams(
    alloc: Global,
    connection: Connection<'_>,
) -> Result<(MemorySource, MemorySink), AllocError> {
    let bytes = connection.bytes.to_vec(alloc)?;
    let pieces = connection.pieces.to_vec(alloc)?;
    let failing = connection.failing_reads.to_vec(alloc)?;
    let source = MemorySource::of(bytes, pieces, failing);
    let pieces = connection.write_pieces.to_vec(alloc)?;
    let failing = connection.failing_writes.to_vec(alloc)?;
    Ok((source, MemorySink::of(alloc, pieces, failing)))
}

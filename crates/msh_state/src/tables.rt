//! The tables of one endpoint, and the relations between them:
//!
//!     outbox    each submission at the place of its number, with its state
//!     channels  the waiting ones of these, with their queues and their due moments
//!     inbox     each received message, by number, and where its payloads are

ghost use Rattle.std.specs.Prelude.{◌≡◌, ◌+◌, ◌≤◌, length};
ghost use Rattle.msh_state.specs.Rooms.{new_tables};
ghost use Rattle.exchange_model.specs.Fold.{resized};
ghost use Rattle.exchange_model.specs.Numbered.{AreNumberedFrom};

use as4_values::MAX_MOMENT;
use channels::Channels;
use inbox::Inbox;
use outbox::Outbox;
use std::alloc::Global;
use std::marker::Model;

/// The most bytes of a journal.
pub const MAX_SIZE: u64 = 1 << 32;

const _: () = prove!(MAX_SIZE == 4294967296);

/// The tables of one endpoint. Contracts see a `TablesState`: the endpoint, where the
/// payloads of each received message are, and the room that the tables have.
#[derive(Drop)]
pub struct EndTables {
    pub(crate) alloc: Global,
    pub(crate) outbox: Outbox,
    /// The waiting submissions of the outbox, by queue.
    pub(crate) channels: Channels,
    pub(crate) inbox: Inbox,
    /// The clock, in milliseconds since 1970-01-01T00:00:00Z.
    pub(crate) moment: u64,
    /// The size of the journal in bytes.
    pub(crate) size: u64,
}

impl Model for EndTables {
    ghost use Rattle.std.specs.Prelude.{◌≡◌, ◌≤◌};
    ghost use Rattle.msh_state.specs.Rooms.{TablesState};
    ghost use Rattle.msh_state.specs.Waiting.{waiting_in};

    ghost Value = { TablesState };

    ghost view = { λ t. record {
      end = record { sent = t.outbox.sent; inbox = t.inbox.entries; confirmed = t.inbox.confirmed; moment = t.moment; size = t.size };
      places = t.inbox.places;
      rooms = record { outbox = t.outbox.room; channels = t.channels.room; inbox = t.inbox.room };
    } };

    ghost invariant = { λ t. (t.channels.waiting ≡ waiting_in t.outbox.sent) × (t.moment ≤ 253402300799999)
        × (t.size ≤ 4294967296) × (9 ≤ t.size) };
}

impl EndTables {
    /// The tables of an endpoint to which nothing has happened.
    #[tactic(auto, using(crate::proofs::WaitingLemmas::none_waits))]
    pub fn new(alloc: Global) -> EndTables
        ensures { result ≡ new_tables }
    {
        EndTables {
            alloc,
            outbox: Outbox::new(alloc),
            channels: Channels::new(alloc),
            inbox: Inbox::new(alloc),
            moment: 0,
            size: 9,
        }
    }

    /// The clock, in milliseconds since 1970-01-01T00:00:00Z.
    pub fn moment(&self) -> u64
        ensures value { result ≡ self.now.end.moment }
        ensures dated { result ≤ MAX_MOMENT }
    {
        self.moment
    }

    /// The size of the journal in bytes.
    pub fn size(&self) -> u64
        ensures value { result ≡ self.now.end.size }
        ensures limited { result ≤ MAX_SIZE }
        ensures begun { 9 ≤ result }
    {
        self.size
    }

    /// The number of submissions.
    pub fn submitted(&self) -> u64
        ensures value { result ≡ length self.now.end.sent }
        ensures limited { result ≤ 1048576 }
        ensures numbered { AreNumberedFrom 0 self.now.end.sent }
    {
        self.outbox.len()
    }

    /// The number of received messages.
    pub fn received(&self) -> u64
        ensures value { result ≡ length self.now.end.inbox }
        ensures placed { result ≡ length self.now.places }
    {
        self.inbox.len()
    }

    /// The number of received messages that were confirmed.
    pub fn confirmed(&self) -> u64
        ensures value { result ≡ self.now.end.confirmed }
        ensures within { result ≤ length self.now.end.inbox }
    {
        self.inbox.confirmed()
    }

    /// Sets the size of the journal.
    pub fn resize(&mut self, size: u64)
        requires begun { 9 ≤ size }
        requires limited { size ≤ MAX_SIZE }
        ensures end { self.new.end ≡ resized size self.old.end }
        ensures places { self.new.places ≡ self.old.places }
        ensures rooms { self.new.rooms ≡ self.old.rooms }
    {
        self.size = size;
    }

    /// Adds to the size of the journal.
    pub fn grow(&mut self, by: u64)
        requires { self.old.end.size + by ≤ MAX_SIZE }
        ensures end { self.new.end ≡ record self.old.end { size = self.old.end.size + by } }
        ensures places { self.new.places ≡ self.old.places }
        ensures rooms { self.new.rooms ≡ self.old.rooms }
    {
        self.size += by;
    }
}

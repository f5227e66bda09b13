//! Messages, and the units that an envelope holds.

ghost use Rattle.std.specs.Prelude.{IsTrue};
ghost use Rattle.as4_values.specs.SignalParts.{is_receipt, is_pull};

use crate::header::UserHeader;
use crate::lists::Seq;
use crate::memory::NoMemory;
use crate::payload::Payload;
use crate::plain_data::{PlainData, try_clone_two};
use crate::signal::Signal;
use std::alloc::Global;

/// A receipt, bundled with the next pull request (ebMS 3.0 Core, section 5.2.1, on several units in one message).
#[derive(Drop)]
pub struct Pair {
    /// Its body is a receipt.
    pub receipt: Signal,
    /// Its body is a pull request.
    pub pull: Signal,
    pub ghost receipted: { IsTrue (is_receipt receipt.body) },
    pub ghost asked: { IsTrue (is_pull pull.body) },
}

/// What an envelope holds: the message units of its `eb:Messaging` (ebMS 3.0 Core, section 5.2.1).
#[derive(Drop)]
pub enum Unit {
    User(UserHeader),
    Signal(Signal),
    Pair(Pair),
}

/// A message, with its payloads.
#[derive(Drop)]
pub enum Message {
    User {
        header: UserHeader,
        /// In the order of the package.
        payloads: Seq<Payload>,
    },
    Signal(Signal),
    Pair(Pair),
}

impl PlainData for Pair {
    fn try_clone(&self, alloc: Global) -> Result<Pair, NoMemory> {
        match (self.receipt.try_clone(alloc), self.pull.try_clone(alloc)) {
            (Ok(receipt), Ok(pull)) => Ok(Pair { receipt, pull }),
            (receipt, pull) => {
                drop(receipt);
                drop(pull);
                Err(NoMemory)
            }
        }
    }

    fn same(&self, other: &Pair) -> bool {
        self.receipt.same(&other.receipt) && self.pull.same(&other.pull)
    }
}

impl PlainData for Unit {
    fn try_clone(&self, alloc: Global) -> Result<Unit, NoMemory> {
        match self {
            Unit::User(header) => Ok(Unit::User(header.try_clone(alloc)?)),
            Unit::Signal(signal) => Ok(Unit::Signal(signal.try_clone(alloc)?)),
            Unit::Pair(pair) => Ok(Unit::Pair(pair.try_clone(alloc)?)),
        }
    }

    fn same(&self, other: &Unit) -> bool {
        match (self, other) {
            (Unit::User(header), Unit::User(other)) => header.same(other),
            (Unit::Signal(signal), Unit::Signal(other)) => signal.same(other),
            (Unit::Pair(pair), Unit::Pair(other)) => pair.same(other),
            _ => false,
        }
    }
}

impl PlainData for Message {
    fn try_clone(&self, alloc: Global) -> Result<Message, NoMemory> {
        match self {
            Message::User { header, payloads } => {
                let (header, payloads) = try_clone_two(alloc, header, payloads)?;
                Ok(Message::User { header, payloads })
            }
            Message::Signal(signal) => Ok(Message::Signal(signal.try_clone(alloc)?)),
            Message::Pair(pair) => Ok(Message::Pair(pair.try_clone(alloc)?)),
        }
    }

    fn same(&self, other: &Message) -> bool {
        match (self, other) {
            (
                Message::User { header, payloads },
                Message::User {
                    header: other_header,
                    payloads: other_payloads,
                },
            ) => header.same(other_header) && payloads.same(other_payloads),
            (Message::Signal(signal), Message::Signal(other)) => signal.same(other),
            (Message::Pair(pair), Message::Pair(other)) => pair.same(other),
            _ => false,
        }
    }
}

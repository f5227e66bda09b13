//! An endpoint whose journal is filled. Confirmed messages lose their payloads, which limits the memory needed.

use super::rig::{Rig, may_come};
use super::steps::Said;
use as4_values::{Message, MessageId, Octets, Payload, PlainData, Seq, UserHeader};
use msh_core::{Event, What};
use std::alloc::Global;

/// The number of large messages, and the size of the payload of each. A record has 292 more bytes, and its confirmation
/// 20.
const LARGE_COUNT: u64 = 136;

const LARGE: usize = 31_457_280;

/// The size of the last message's payload. The journal had 381 bytes before the large ones:
/// 381 + 136 * (31,457,280 + 292 + 20) + 16,734,091 + 292 = 4,294,967,276.
const LAST: usize = 16_734_091;

impl Rig {
    /// Receives messages until twenty bytes are left in the journal, and confirms all except the last. No follower
    /// replays these effects: they are too large.
    pub fn fills(&mut self, sender: &Rig) -> Option<Said> {
        drop(self.follower.take());
        let sent = sender.sent.as_ref()?;
        let mut message = large(self.alloc, sent, LARGE)?;
        for n in 0..LARGE_COUNT {
            message = self.takes_over(message, n)?;
        }
        drop(message);
        let last = large(self.alloc, sent, LAST)?;
        drop(self.hears_under(last, LARGE_COUNT)?);
        Some(Said::Count(self.core.size()))
    }

    /// Receives the message under this number and confirms it. Returns the message.
    #[tactic(auto, unfolding(exchange_model::specs::Coming::may_come))]
    fn takes_over(&mut self, message: Message, n: u64) -> Option<Message> {
        let message = self.hears_under(message, n)?;
        match self.says(What::Confirm { upto: n }) {
            Some(_) => Some(message),
            None => {
                drop(message);
                None
            }
        }
    }

    /// Receives the message under this number, with its own identifier, and returns it.
    fn hears_under(&mut self, message: Message, n: u64) -> Option<Message> {
        let message = under(self.alloc, message, n)?;
        if !may_come(self.alloc, &message) {
            drop(message);
            return None;
        }
        let event = Event {
            stamp: 0,
            nonce: self.next_nonce(),
            what: What::Came(message),
        };
        let prepared = self.core.prepare(&event);
        let said = self.hands_out_if(prepared);
        match (said, event.what) {
            (Some(_), What::Came(message)) => Some(message),
            (_, what) => {
                drop(what);
                None
            }
        }
    }
}

/// The message with another identifier.
fn under(alloc: Global, message: Message, n: u64) -> Option<Message> {
    match (message, MessageId::of_signal(alloc, u128::from(n))) {
        (Message::User { header, payloads }, Ok(id)) => Some(Message::User {
            header: named(header, id),
            payloads,
        }),
        (message, id) => {
            drop(message);
            drop(id);
            None
        }
    }
}

fn named(header: UserHeader, id: MessageId) -> UserHeader {
    let mut other = header;
    other.id = id;
    other
}

/// The message with a payload of this length.
fn large(alloc: Global, message: &Message, len: usize) -> Option<Message> {
    let Message::User { header, payloads } = message else {
        return None;
    };
    let first = payloads.items().first()?;
    match (header.try_clone(alloc), payloads_of(alloc, first, len)) {
        (Ok(header), Some(payloads)) => Some(Message::User { header, payloads }),
        (header, payloads) => {
            drop(header);
            drop(payloads);
            None
        }
    }
}

/// The payload, with this length.
fn payloads_of(alloc: Global, payload: &Payload, len: usize) -> Option<Seq<Payload>> {
    match payload_of(alloc, payload, len) {
        Some(payload) => Some(Seq::of(vec![in alloc; payload].ok()?)),
        None => None,
    }
}

fn payload_of(alloc: Global, payload: &Payload, len: usize) -> Option<Payload> {
    match (payload.try_clone(alloc), vec![in alloc; 0; len]) {
        (Ok(copy), Ok(bytes)) => {
            let mut other = copy;
            other.content = Octets::of(bytes);
            Some(other)
        }
        (copy, bytes) => {
            drop(copy);
            drop(bytes);
            None
        }
    }
}

//! The events of the steps.
use as4_codes::pull_request;
use as4_effects::Delivery;
use as4_values::{Load, Message, Octets, Seq, Text};
use exchange_model::{Event, What};
use made_messages::delivery;
use std::alloc::Global;

/// The message of the mode comes.
pub(crate) fn coming(alloc: Global) -> Option<Event> {
    Some(arrival(delivery(alloc)?))
}

/// This message comes.
#[tactic(auto, unfolding(exchange_model::specs::Coming::may_come, exchange_model::specs::Coming::is_deliverable))]
pub(crate) fn arrival(delivery: Delivery) -> Event {
    let Delivery { header, payloads } = delivery;
    Event {
        stamp: 0,
        nonce: 7,
        what: What::Came(Message::User { header, payloads }),
    }
}

/// A load of this length is submitted by the mode of the one message.
#[tactic(auto, unfolding(exchange_model::specs::Coming::may_come))]
pub(crate) fn submitting(alloc: Global, length: usize) -> Option<Event> {
    match (Text::read(alloc, b"m"), loads(alloc, length)) {
        (Ok(mode), Some(loads)) => Some(Event {
            stamp: 0,
            nonce: 1,
            what: What::Submit {
                mode,
                conversation: None,
                loads,
            },
        }),
        (mode, loads) => {
            drop(mode);
            drop(loads);
            None
        }
    }
}

/// One load of this length.
fn loads(alloc: Global, length: usize) -> Option<Seq<Load>> {
    let load = Load {
        media: Octets::of(Vec::new(alloc)),
        content: Octets::of(vec![in alloc; 0; length].ok()?),
    };
    Some(Seq::of(vec![in alloc; load].ok()?))
}

/// A pull request for this channel comes.
#[tactic(auto, unfolding(exchange_model::specs::Coming::may_come, exchange_model::specs::Coming::is_deliverable))]
pub(crate) fn pulling(alloc: Global, channel: &[u8]) -> Option<Event> {
    let mpc = Text::read(alloc, channel).ok()?;
    let signal = pull_request(alloc, &mpc, 0, 1).ok()?;
    Some(Event {
        stamp: 0,
        nonce: 2,
        what: What::Came(Message::Signal(signal)),
    })
}

/// The message of this number in the inbox is read.
#[tactic(auto, unfolding(exchange_model::specs::Coming::may_come))]
pub(crate) fn reading(n: u64) -> Event {
    Event {
        stamp: 0,
        nonce: 0,
        what: What::Read { n },
    }
}

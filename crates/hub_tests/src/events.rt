//! Events of the hub besides its relaying.
use as4_effects::Delivery;
use as4_values::Message;
use exchange_model::{Event, What};
use made_messages::parcel;
use std::alloc::Global;

/// The content of the one payload of each message.
pub(crate) const CONTENT: &[u8] = b"\0\xff\n";

/// The message of this identifier is received. Its one payload is a text of three bytes.
pub(crate) fn coming(alloc: Global, id: &[u8]) -> Option<Event> {
    Some(arrival(parcel(alloc, id, CONTENT)?))
}

#[tactic(auto, unfolding(exchange_model::specs::Coming::may_come, exchange_model::specs::Coming::is_deliverable))]
fn arrival(delivery: Delivery) -> Event {
    let Delivery { header, payloads } = delivery;
    Event {
        stamp: 0,
        nonce: 7,
        what: What::Came(Message::User { header, payloads }),
    }
}

/// The next message to push is asked for.
#[tactic(auto, unfolding(exchange_model::specs::Coming::may_come))]
pub(crate) fn taking() -> Event {
    Event {
        stamp: 0,
        nonce: 8,
        what: What::Take,
    }
}

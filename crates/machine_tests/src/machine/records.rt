//! The records of one endpoint that have payloads of its inbox, by gate. They are to the endpoint what its journal is.

ghost use Rattle.std.specs.Prelude.{◌≡◌, IfSome, length};

use as4_effects::{Delivery, Effect};
use as4_values::{MessageId, Payload, PlainData, Seq};
use event_code::body_len;
use std::alloc::Global;

/// The effects of the record at a gate.
#[derive(Drop)]
struct Record {
    gate: u64,
    effects: Seq<Effect>,
}

/// The records with payloads.
#[derive(Drop)]
pub struct Records {
    alloc: Global,
    list: Vec<Record>,
}

impl Records {
    pub fn new(alloc: Global) -> Records {
        Records {
            alloc,
            list: Vec::new(alloc),
        }
    }

    /// Keeps the effects of the record at this gate, if they deliver a message.
    pub fn keep(&mut self, gate: u64, effects: &Seq<Effect>) {
        if !delivers(effects.items()) {
            return;
        }
        if let Ok(effects) = effects.try_clone(self.alloc) {
            drop(self.list.push(Record { gate, effects }));
        }
    }

    /// Drops all records.
    pub fn clear(&mut self) {
        self.list.clear();
    }

    /// The payloads of the message with this identifier, which the record at this gate delivers, if its delivery alone
    /// has a body of this length.
    pub fn payloads(&self, id: &MessageId, gate: u64, length: u64) -> Option<Seq<Payload>> {
        match self.delivered(id, gate, length) {
            Some(Effect::Delivered(delivery)) => Some(payloads_of(delivery)),
            effect => {
                drop(effect);
                None
            }
        }
    }

    /// The delivery of the message with this identifier, which the record at this gate has, if it alone has a body of
    /// this length.
    pub fn delivered(&self, id: &MessageId, gate: u64, length: u64) -> Option<Effect> {
        let delivery = delivery_at(self.list.as_slice(), id, gate)?
            .try_clone(self.alloc)
            .ok()?;
        let effects = one(self.alloc, Effect::Delivered(delivery))?;
        if body_len(&effects) == length {
            return effects.into_vec().pop();
        }
        drop(effects);
        None
    }
}

fn payloads_of(delivery: Delivery) -> Seq<Payload> {
    let Delivery { header, payloads } = delivery;
    drop(header);
    payloads
}

/// A record of this effect alone.
pub fn one(alloc: Global, effect: Effect) -> Option<Seq<Effect>>
    ensures { IfSome result (λ effects. length effects ≡ 1) }
{
    Some(Seq::of(vec![in alloc; effect].ok()?))
}

fn delivers(effects: &[Effect]) -> bool {
    effects
        .iter()
        .any(|effect| matches!(effect, Effect::Delivered(_)))
}

fn delivery_at<'a>(records: &'a [Record], id: &MessageId, gate: u64) -> Option<&'a Delivery> {
    for record in records {
        if record.gate == gate {
            return delivery_of(record.effects.items(), id);
        }
    }
    None
}

/// The first delivery of the message with this identifier.
fn delivery_of<'a>(effects: &'a [Effect], id: &MessageId) -> Option<&'a Delivery> {
    for effect in effects {
        if let Effect::Delivered(delivery) = effect {
            if delivery.header.id.same(id) {
                return Some(delivery);
            }
        }
    }
    None
}

//! What happens at an endpoint, each kind of effect at least once.
use as4_codes::{error_signal, pull_request, receipt};
use as4_effects::Delivery;
use as4_values::{Load, Message, Octets, Pair, Seq, Signal, Text};
use exchange_model::{Event, What};
use made_messages::delivery;
use msh_core::Core;
use std::alloc::Global;

/// What happens.
#[derive(Clone, Copy, PartialEq, Eq)]
pub(crate) enum Deed {
    Tick(u64),
    /// Five bytes are submitted by the mode of this name.
    Submit(&'static [u8]),
    Take,
    /// A pull request for the channel `c` comes.
    Pull,
    /// The receipt for the submission of this number comes.
    Receipt(u64),
    /// The same, with a pull request for the channel `c`.
    Pair(u64),
    /// A failure about the submission of this number comes.
    Failure(u64),
    /// A user message comes.
    Came,
    Confirm(u64),
    Checkpoint,
}

/// The event of what happens; None for a checkpoint.
pub(crate) fn event_of(alloc: Global, core: &Core, deed: Deed) -> Option<Event> {
    match deed {
        Deed::Tick(moment) => tick(moment),
        Deed::Submit(mode) => submit(alloc, mode),
        Deed::Take => Some(take()),
        Deed::Pull => pull(alloc),
        Deed::Receipt(number) => settle(alloc, core, number),
        Deed::Pair(number) => settle_and_pull(alloc, core, number),
        Deed::Failure(number) => fail(alloc, core, number),
        Deed::Came => Some(arrival(delivery(alloc)?)),
        Deed::Confirm(upto) => Some(confirm(upto)),
        Deed::Checkpoint => None,
    }
}

#[tactic(auto, unfolding(exchange_model::specs::Coming::may_come))]
fn tick(moment: u64) -> Option<Event> {
    if moment > 1_000_000 {
        return None;
    }
    Some(Event {
        stamp: moment,
        nonce: 0,
        what: What::Tick,
    })
}

#[tactic(auto, unfolding(exchange_model::specs::Coming::may_come))]
fn submit(alloc: Global, mode: &[u8]) -> Option<Event> {
    match (Text::read(alloc, mode), loads(alloc)) {
        (Ok(mode), Some(loads)) => Some(Event {
            stamp: 1_234_567,
            nonce: 0xfedc_ba98_7654_3210_0123_4567_89ab_cdef,
            what: What::Submit {
                mode,
                conversation: None,
                loads,
            },
        }),
        (mode, loads) => {
            drop(mode);
            drop(loads);
            None
        }
    }
}

fn loads(alloc: Global) -> Option<Seq<Load>> {
    let load = Load {
        media: Octets::of(Vec::new(alloc)),
        content: Octets::of(Vec::from_slice(alloc, b"hello").ok()?),
    };
    Some(Seq::of(vec![in alloc; load].ok()?))
}

#[tactic(auto, unfolding(exchange_model::specs::Coming::may_come))]
fn take() -> Event {
    Event {
        stamp: 0,
        nonce: 2,
        what: What::Take,
    }
}

#[tactic(auto, unfolding(exchange_model::specs::Coming::may_come))]
fn confirm(upto: u64) -> Event {
    Event {
        stamp: 5,
        nonce: 3,
        what: What::Confirm { upto },
    }
}

/// A signal comes.
#[tactic(auto, unfolding(exchange_model::specs::Coming::may_come))]
fn signal(signal: Signal) -> Event {
    Event {
        stamp: 77,
        nonce: 4,
        what: What::Came(Message::Signal(signal)),
    }
}

fn pull(alloc: Global) -> Option<Event> {
    let mpc = Text::read(alloc, b"c").ok()?;
    Some(signal(pull_request(alloc, &mpc, 9, 5).ok()?))
}

fn settle(alloc: Global, core: &Core, number: u64) -> Option<Event> {
    let submission = core.submission(number)?;
    Some(signal(receipt(alloc, &submission.header, 8, 6).ok()?))
}

#[tactic(auto, unfolding(exchange_model::specs::Coming::may_come))]
fn settle_and_pull(alloc: Global, core: &Core, number: u64) -> Option<Event> {
    let submission = core.submission(number)?;
    let mpc = Text::read(alloc, b"c").ok()?;
    match (
        receipt(alloc, &submission.header, 8, 7),
        pull_request(alloc, &mpc, 9, 8),
    ) {
        (Ok(receipt), Ok(pull)) => Some(Event {
            stamp: 78,
            nonce: 9,
            what: What::Came(Message::Pair(Pair { receipt, pull })),
        }),
        (receipt, pull) => {
            drop(receipt);
            drop(pull);
            None
        }
    }
}

#[tactic(auto, unfolding(as4_codes::specs::ErrorCodes::error_row, as4_codes::specs::ErrorCodes::error_table))]
fn fail(alloc: Global, core: &Core, number: u64) -> Option<Event> {
    let submission = core.submission(number)?;
    let error = error_signal(alloc, 301, Some(&submission.header.id), 9, 10);
    Some(signal(error.ok()?))
}

#[tactic(auto, unfolding(exchange_model::specs::Coming::may_come, exchange_model::specs::Coming::is_deliverable))]
fn arrival(delivery: Delivery) -> Event {
    let Delivery { header, payloads } = delivery;
    Event {
        stamp: 0,
        nonce: 11,
        what: What::Came(Message::User { header, payloads }),
    }
}

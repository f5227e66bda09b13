//! Effects in a short form, without their texts.

use as4_effects::{Effect, Mark, Submission, Tick};
use as4_values::{MAX_MOMENT, Seq};
use made_messages::{carried, delivery, kept, pulled, submission};
use std::alloc::Global;

/// One effect.
#[derive(Clone, Copy)]
pub enum Change {
    /// The submission of this number, to be pushed with three retries.
    Submitted(u64),
    /// The same, to be pulled from the channel `c`.
    Waits(u64),
    /// The clock is set.
    Ticked(u64),
    Tried(u64),
    /// The message of the first submission is delivered.
    Delivered,
    Receipted(u64),
    Confirmed(u64),
    /// The submission of this number is carried over after this number of tries, the last at this moment, and is
    /// pending.
    Carried(u64, u32, u64),
    /// The same, receipted.
    CarriedReceipted(u64, u32, u64),
    /// The header of the message of this submission is kept.
    Kept(u64),
}

fn tick_at(moment: u64) -> Option<Effect> {
    if moment > MAX_MOMENT {
        return None;
    }
    Some(Effect::Ticked(Tick { moment }))
}

fn carried_as(
    submission: Option<Submission>,
    tries: u32,
    last: u64,
    standing: Mark,
) -> Option<Effect> {
    match submission {
        Some(submission) => Some(Effect::Carried(carried(submission, tries, last, standing)?)),
        None => {
            drop(standing);
            None
        }
    }
}

pub fn effect_of(alloc: Global, change: Change) -> Option<Effect> {
    match change {
        Change::Submitted(number) => Some(Effect::Submitted(submission(alloc, number, 3)?)),
        Change::Waits(number) => Some(Effect::Submitted(pulled(alloc, number, 3)?)),
        Change::Ticked(moment) => tick_at(moment),
        Change::Tried(number) => Some(Effect::Tried { number }),
        Change::Delivered => Some(Effect::Delivered(delivery(alloc)?)),
        Change::Receipted(number) => Some(Effect::Receipted { number }),
        Change::Confirmed(upto) => Some(Effect::Confirmed { upto }),
        Change::Carried(number, tries, last) => {
            carried_as(submission(alloc, number, 3), tries, last, Mark::Pending)
        }
        Change::CarriedReceipted(number, tries, last) => {
            carried_as(submission(alloc, number, 3), tries, last, Mark::Receipted)
        }
        Change::Kept(number) => Some(Effect::Kept(kept(alloc, number)?)),
    }
}

pub fn effects_of(alloc: Global, changes: &[Change]) -> Option<Seq<Effect>> {
    let mut effects = Vec::new(alloc);
    for change in changes {
        effects.push(effect_of(alloc, *change)?).ok()?;
    }
    Some(Seq::of(effects))
}

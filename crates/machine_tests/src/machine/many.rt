//! Many messages between two endpoints: all are submitted, and then each is sent, delivered and receipted.

use super::rig::{Rig, new_end};
use super::steps::{Said, Step};
use as4_values::{Seq, Text};
use msh_core::What;
use std::alloc::Global;

/// The numbers of receipted submissions at one endpoint and of delivered messages at the other, after the exchange of
/// this many messages.
pub fn exchanged(alloc: Global, count: u64) -> Option<(u64, u64)> {
    match (new_end(alloc), new_end(alloc)) {
        (Some(mut a), Some(mut b)) => {
            a.keeps_nothing();
            b.keeps_nothing();
            let done = are_submitted(&mut a, count) && are_delivered(&mut a, &mut b, count);
            let (sent, came) = (a.core.totals(), b.core.totals());
            drop(a);
            drop(b);
            if done {
                Some((sent.receipted, came.inbox))
            } else {
                None
            }
        }
        (a, b) => {
            drop(a);
            drop(b);
            None
        }
    }
}

fn are_submitted(end: &mut Rig, count: u64) -> bool {
    for number in 0..count {
        if end.submits_nothing() != Some(Said::Submitted(number)) {
            return false;
        }
    }
    true
}

fn are_delivered(a: &mut Rig, b: &mut Rig, count: u64) -> bool {
    for _ in 0..count {
        if a.does(Step::Take, b) != Some(Said::Push)
            || b.does(Step::Hear, a) != Some(Said::Receipt)
            || a.does(Step::Receipt, b) != Some(Said::Quiet)
        {
            return false;
        }
    }
    true
}

impl Rig {
    /// No follower replays the effects, and no records are kept: there are too many.
    fn keeps_nothing(&mut self) {
        drop(self.follower.take());
        drop(self.records.take());
    }

    /// Submits a message without payloads.
    #[tactic(auto, unfolding(exchange_model::specs::Coming::may_come))]
    fn submits_nothing(&mut self) -> Option<Said> {
        let mode = Text::read(self.alloc, b"invoice").ok()?;
        self.says(What::Submit {
            mode,
            conversation: None,
            loads: Seq::of(Vec::new(self.alloc)),
        })
    }
}

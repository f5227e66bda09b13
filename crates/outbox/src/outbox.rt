//! The outbox: the submission of each number is at that place. It also keeps
//!
//!     numbers  the number of each identifier
//!     failing  the pending submissions, by the moment at which each expires
//!     counts   the number of settled submissions, by state

ghost use Rattle.std.specs.Prelude.{◌≡◌, ◌<◌, ◌≤◌, ◌^◌, [], ◌∷◌, ◌++◌, IsSome, IsTrue, length, map, count_by, option_map, option_copied, false, IfNone, IfSome, OnOk};
ghost use Rattle.std.specs.Option.{option_and_then};
ghost use Rattle.exchange_model.specs.Questions.{due, is_pending, is_pending_mark, is_waiting, is_spent, sent_at, sent_of, standing_of};
ghost use Rattle.exchange_model.specs.Apply.{unsent, as_carried, tried, marked, changed, failed_if_spent, is_one};
ghost use Rattle.exchange_model.specs.Numbered.{AreNumberedFrom};
ghost use Rattle.outbox.specs.Counting.{AreCounts};
ghost use Rattle.outbox.specs.Submissions.{code_of};

use crate::counts::Counts;
use crate::numbers::Numbers;
use crate::{failing, marking};
use as4_effects::{Carried, Submission};
use as4_values::{Code, MAX_MOMENT, MessageId, NoMemory};
use due_heap::Heaps;
use exchange_model::{Mark, Sent, Standing};
use std::alloc::Global;
use std::marker::Model;

/// The submissions of one endpoint, in order of number, and room for one more. Contracts see a `Submissions`.
#[derive(Drop)]
pub struct Outbox {
    sent: Vec<Sent>,
    numbers: Numbers,
    failing: Heaps,
    counts: Counts,
}

impl Model for Outbox {
    ghost use Rattle.std.specs.Prelude.{◌<◌, IsSome};
    ghost use Rattle.std.specs.Vec.{vec_len, vec_capacity};
    ghost use Rattle.outbox.specs.Counting.{AreCounts};
    ghost use Rattle.outbox.specs.Failing.{HasWatchRoom, Watches};
    ghost use Rattle.outbox.specs.Numbering.{AreNumbers};
    ghost use Rattle.outbox.specs.Submissions.{Stand, Submissions};

    ghost Value = { Submissions };

    ghost view = { λ o. record { sent = o.sent.items; room = o.numbers.room } };

    ghost invariant = { λ o. Stand o.sent.items × AreNumbers o.numbers o.sent.items × Watches o.failing o.sent.items
        × AreCounts o.counts o.sent.items
        × (IsSome o.numbers.room → (vec_len o.sent < vec_capacity o.sent) × HasWatchRoom o.failing (vec_len o.sent)) };
}

impl Outbox {
    #[tactic(auto, using(crate::proofs::StandLemmas::none_stand))]
    pub fn new(alloc: Global) -> Outbox
        ensures { result ≡ record { sent = []; room = None } }
    {
        Outbox {
            sent: Vec::new(alloc),
            numbers: Numbers::new(alloc),
            failing: Heaps::new(alloc),
            counts: Counts::none(),
        }
    }

    /// Reserves room for one submission of this identifier. An earlier reservation ends.
    pub fn reserve(&mut self, id: &MessageId) -> Result<(), NoMemory>
        ensures ok { OnOk result (self.new.room ≡ Some id.now) }
        ensures sent { self.new.sent ≡ self.old.sent }
    {
        self.numbers.end_room();
        self.sent.reserve(1)?;
        failing::reserve(&mut self.failing, self.sent.len() as u64)?;
        self.numbers.reserve(self.sent.len(), id)
    }

    pub fn len(&self) -> u64
        ensures value { result ≡ length self.now.sent }
        ensures numbered { AreNumberedFrom 0 self.now.sent }
    {
        self.sent.len() as u64
    }

    /// The submission of this number.
    pub fn get(&self, number: u64) -> Option<&Submission>
        ensures { option_copied result ≡ option_map (λ s. s.submission) (sent_at number self.now.sent) }
    {
        let sent = self.at(number)?;
        Some(&sent.submission)
    }

    /// The number of the submission of this identifier.
    pub fn number_of(&self, id: &MessageId) -> Option<u64>
        ensures { result ≡ option_map (λ s. s.submission.number) (sent_of id.now self.now.sent) }
    {
        self.numbers.number_of(self.sent.len(), id)
    }

    /// When the submission is to be sent or expires, in milliseconds since 1970-01-01T00:00:00Z.
    pub fn due(&self, number: u64) -> Option<u64>
        ensures { result ≡ option_map due (sent_at number self.now.sent) }
    {
        let sent = self.at(number)?;
        Some(marking::due_of(sent))
    }

    /// How often the submission was sent, and when it was last sent, in milliseconds since 1970-01-01T00:00:00Z: 0
    /// where it was never sent.
    pub fn tried(&self, number: u64) -> Option<(u32, u64)>
        ensures value { result ≡ option_map (λ s. (s.tries, s.last)) (sent_at number self.now.sent) }
        ensures dated { IfSome result (λ tried. tried.1 ≤ MAX_MOMENT) }
    {
        let sent = self.at(number)?;
        Some((sent.tries, sent.last))
    }

    /// The state of the submission.
    pub fn mark(&self, number: u64) -> Option<&Mark>
        ensures { option_copied result ≡ option_map (λ s. s.mark) (sent_at number self.now.sent) }
    {
        let sent = self.at(number)?;
        Some(&sent.mark)
    }

    /// The code of the error with which the other endpoint refused the submission.
    pub fn refused_code(&self, number: u64) -> Option<&Code>
        ensures { option_copied result ≡ option_and_then (λ s. code_of s.mark) (sent_at number self.now.sent) }
    {
        let sent = self.at(number)?;
        match &sent.mark {
            Mark::Refused { code } => Some(code),
            _ => None,
        }
    }

    #[tactic(auto, unfolding(exchange_model::specs::Questions::standing_of))]
    pub fn status(&self, number: u64) -> Option<Standing>
        ensures { result ≡ option_map (λ s. standing_of s.tries s.mark) (sent_at number self.now.sent) }
    {
        let sent = self.at(number)?;
        Some(match sent.mark {
            Mark::Pending => Standing::Pending { tries: sent.tries },
            Mark::Receipted => Standing::Receipted,
            Mark::Failed => Standing::Failed,
            Mark::Refused { .. } => Standing::Refused,
        })
    }

    /// Adds a submission; takes no memory.
    pub fn commit_submit(&mut self, submission: Submission)
        requires room { self.old.room ≡ Some submission.header.id }
        requires next { submission.number ≡ length self.old.sent }
        requires new { sent_of submission.header.id self.old.sent ≡ None }
        ensures { self.new.sent ≡ self.old.sent ++ unsent submission ∷ [] }
    {
        self.push(Sent {
            submission,
            tries: 0,
            last: 0,
            mark: Mark::Pending,
        });
    }

    /// Adds a submission with its state, as compaction carried it over; takes no memory.
    pub fn carry(&mut self, carried: Carried)
        requires room { self.old.room ≡ Some carried.submission.header.id }
        requires next { carried.submission.number ≡ length self.old.sent }
        requires new { sent_of carried.submission.header.id self.old.sent ≡ None }
        ensures { self.new.sent ≡ self.old.sent ++ as_carried carried ∷ [] }
    {
        let Carried {
            submission,
            tries,
            last,
            standing,
        } = carried;
        self.push(Sent {
            submission,
            tries,
            last,
            mark: standing,
        });
    }

    /// Adds one at the end, and uses up the reservation.
    fn push(&mut self, sent: Sent)
        requires room { self.old.room ≡ Some sent.submission.header.id }
        requires next { sent.submission.number ≡ length self.old.sent }
        requires new { sent_of sent.submission.header.id self.old.sent ≡ None }
        requires dated { sent.last ≤ MAX_MOMENT }
        ensures { self.new.sent ≡ self.old.sent ++ sent ∷ [] }
    {
        failing::watch(&mut self.failing, &sent);
        self.counts.add(&sent.mark);
        self.numbers.take_room();
        self.sent.push_reserved(sent);
    }

    /// The submission is sent once more, at this moment.
    pub fn mark_tried(&mut self, number: u64, moment: u64)
        requires waiting { IsTrue (is_one is_waiting (sent_at number self.old.sent)) }
        requires dated { moment ≤ MAX_MOMENT }
        ensures sent { self.new.sent ≡ changed number (tried moment) self.old.sent }
        ensures room { self.new.room ≡ self.old.room }
    {
        let fails_at = marking::mark_tried(self.sent.as_mut_slice(), number, moment);
        self.failing.set_due(number, fails_at);
    }

    /// The receipt for the submission was received.
    pub fn mark_receipted(&mut self, number: u64)
        requires pending { IsTrue (is_one is_pending (sent_at number self.old.sent)) }
        ensures sent { self.new.sent ≡ changed number (marked Mark.Receipted) self.old.sent }
        ensures room { self.new.room ≡ self.old.room }
    {
        self.settle(number, Mark::Receipted);
    }

    /// The other endpoint refused the submission with this error.
    pub fn mark_ended(&mut self, number: u64, code: Code)
        requires pending { IsTrue (is_one is_pending (sent_at number self.old.sent)) }
        ensures sent { self.new.sent ≡ changed number (marked (Mark.Refused code)) self.old.sent }
        ensures room { self.new.room ≡ self.old.room }
    {
        self.settle(number, Mark::Refused { code });
    }

    /// The submission gets this state.
    fn settle(&mut self, number: u64, mark: Mark)
        requires pending { IsTrue (is_one is_pending (sent_at number self.old.sent)) }
        requires settled { is_pending_mark mark ≡ false }
        ensures sent { self.new.sent ≡ changed number (marked mark) self.old.sent }
        ensures room { self.new.room ≡ self.old.room }
    {
        self.failing.remove(number);
        self.counts.add(&mark);
        marking::settle(self.sent.as_mut_slice(), number, mark);
    }

    /// Lets each submission that is spent at this moment expire, and returns their number.
    pub fn fail_spent(&mut self, moment: u64) -> u64
        ensures count { result ≡ count_by (is_spent moment) self.old.sent }
        ensures sent { self.new.sent ≡ map (failed_if_spent moment) self.old.sent }
        ensures room { self.new.room ≡ self.old.room }
    {
        let mut count = 0;
        while let Some(number) = self.first_spent(moment) {
            self.settle(number, Mark::Failed);
            count += 1;
        }
        count
    }

    /// One that is spent at this moment.
    fn first_spent(&self, moment: u64) -> Option<u64>
        ensures spent { IfSome result (λ number. IsTrue (is_one (is_spent moment) (sent_at number self.now.sent))) }
        ensures none { IfNone result (count_by (is_spent moment) self.now.sent ≡ 0) }
        ensures numbered { AreNumberedFrom 0 self.now.sent }
        ensures few { length self.now.sent < 2 ^ 63 }
    {
        failing::first_before(&self.failing, moment)
    }

    /// The number of submissions that are spent at this moment.
    pub fn spent(&self, moment: u64) -> u64
        ensures { result ≡ count_by (is_spent moment) self.now.sent }
    {
        failing::count_before(&self.failing, moment)
    }

    /// The number of settled submissions, by state.
    pub fn counts(&self) -> Counts
        ensures { AreCounts result self.now.sent }
    {
        self.counts
    }

    /// The submission of this number, with its state.
    fn at(&self, number: u64) -> Option<&Sent>
        ensures value { option_copied result ≡ sent_at number self.now.sent }
        ensures dated { IfSome result (λ sent. sent.now.last ≤ MAX_MOMENT) }
    {
        self.sent.get(number as usize)
    }
}

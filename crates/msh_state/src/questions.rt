//! Queries on the tables. None takes memory.
//!
//! The calls of `Outbox::len` are for its contract: each submission is at the place of its number.

ghost use Rattle.std.specs.Prelude.{◌≡◌, ◌≤◌, option_map, option_copied, slice_get, IfSome, IsTrue};
ghost use Rattle.std.specs.Option.{option_and_then};
ghost use Rattle.msh_state.specs.Reading.{IsRead};
ghost use Rattle.exchange_model.specs.Apply.{after, are_tries, as_carried, is_fit, is_next, is_one};
ghost use Rattle.exchange_model.specs.Questions.{head_of, is_known, is_pending, sent_at, sent_of, standing_of};
ghost use Rattle.outbox.specs.Submissions.{code_of};

use crate::tables::EndTables;
use crate::waiting;
use as4_effects::{Carried, Effect, Mark, Queue, Submission};
use as4_values::{Code, MAX_MOMENT, MessageId, UserHeader};
use exchange_model::Standing;
use inbox::Held;

impl EndTables {
    /// The submission of this number.
    pub fn get(&self, number: u64) -> Option<&Submission>
        ensures { option_copied result ≡ option_map (λ s. s.submission) (sent_at number self.now.end.sent) }
    {
        self.outbox.get(number)
    }

    /// The number of the submission of this identifier.
    pub fn number_of(&self, id: &MessageId) -> Option<u64>
        ensures value { result ≡ option_map (λ s. s.submission.number) (sent_of id.now self.now.end.sent) }
        ensures found { IfSome result (λ number. sent_at number self.now.end.sent ≡ sent_of id.now self.now.end.sent) }
    {
        let _numbered = self.outbox.len();
        self.outbox.number_of(id)
    }

    /// The state of the submission of this number.
    pub fn status(&self, number: u64) -> Option<Standing>
        ensures { result ≡ option_map (λ s. standing_of s.tries s.mark) (sent_at number self.now.end.sent) }
    {
        self.outbox.status(number)
    }

    /// How often the submission of this number was sent, and when it was last sent: 0 where it was never sent.
    pub fn tried(&self, number: u64) -> Option<(u32, u64)>
        ensures value { result ≡ option_map (λ s. (s.tries, s.last)) (sent_at number self.now.end.sent) }
        ensures dated { IfSome result (λ tried. tried.1 ≤ MAX_MOMENT) }
    {
        self.outbox.tried(number)
    }

    /// The mark of the submission of this number.
    pub fn mark(&self, number: u64) -> Option<&Mark>
        ensures { option_copied result ≡ option_map (λ s. s.mark) (sent_at number self.now.end.sent) }
    {
        self.outbox.mark(number)
    }

    /// The code of the error with which the other endpoint refused the submission.
    pub fn refused_code(&self, number: u64) -> Option<&Code>
        ensures { option_copied result ≡ option_and_then (λ s. code_of s.mark) (sent_at number self.now.end.sent) }
    {
        self.outbox.refused_code(number)
    }

    /// Whether the submission is pending: neither receipted, expired nor refused.
    pub fn is_pending(&self, number: u64) -> bool
        ensures { result ≡ is_one is_pending (sent_at number self.now.end.sent) }
    {
        waiting::is_pending(&self.outbox, number)
    }

    /// The number of the queue's head: of the submissions that may be sent now, the one that is due first.
    pub fn head(&self, queue: &Queue) -> Option<u64>
        ensures value { result ≡ option_map (λ s. s.submission.number) (head_of queue.now self.now.end) }
        ensures found { IfSome result (λ number. sent_at number self.now.end.sent ≡ head_of queue.now self.now.end) }
    {
        let _numbered = self.outbox.len();
        self.channels.head(queue, self.moment)
    }

    /// The number of the head that the queue will have after the receipt for a pending submission.
    pub fn head_behind(&self, queue: &Queue, receipted: u64) -> Option<u64>
        requires { IsTrue (is_fit (Effect.Receipted receipted) self.now.end) }
        ensures value { result ≡ option_map (λ s. s.submission.number)
            (head_of queue.now (after (Effect.Receipted receipted) self.now.end)) }
        ensures found { IfSome result (λ number. option_map (λ s. s.submission) (sent_at number self.now.end.sent)
            ≡ option_map (λ s. s.submission) (head_of queue.now (after (Effect.Receipted receipted) self.now.end))) }
    {
        let _numbered = self.outbox.len();
        self.channels.head_without(queue, self.moment, receipted)
    }

    /// Whether a message with this identifier was received.
    pub fn holds(&self, id: &MessageId) -> bool
        ensures { result ≡ is_known id.now self.now.end.inbox }
    {
        self.inbox.holds(id)
    }

    /// The received message of this number, from 0: its header, and where its payloads are.
    pub fn read(&self, n: u64) -> Held<'_>
        ensures { IsRead self.now n result }
    {
        let _within = self.inbox.confirmed();
        self.inbox.read(n)
    }

    /// The header of the received message of this number, from 0, confirmed or not.
    pub fn header(&self, n: u64) -> Option<&UserHeader>
        ensures { option_copied result ≡ option_map (λ entry. entry.header) (slice_get self.now.end.inbox n) }
    {
        self.inbox.header(n)
    }

    /// Whether the effect fits here.
    #[tactic(auto, unfolding(exchange_model::specs::Apply::is_fit))]
    pub fn fits(&self, effect: &Effect) -> bool
        ensures { result ≡ is_fit effect.now self.now.end }
    {
        match effect {
            Effect::Submitted(submission) => self.is_next(submission),
            Effect::Ticked(tick) => self.moment < tick.moment,
            Effect::Tried { number } => waiting::waits(&self.outbox, *number),
            Effect::Delivered(delivery) => !self.inbox.holds(&delivery.header.id),
            Effect::Receipted { number } => waiting::is_pending(&self.outbox, *number),
            Effect::Refused { number, .. } => waiting::is_pending(&self.outbox, *number),
            Effect::Confirmed { upto } => {
                self.inbox.confirmed() <= *upto && *upto < self.inbox.len()
            }
            Effect::Carried(carried) => {
                self.moment == 0 && self.is_next(&carried.submission) && has_tries(carried)
            }
            Effect::Kept(kept) => {
                !self.inbox.holds(&kept.header.id) && self.inbox.confirmed() == self.inbox.len()
            }
        }
    }

    /// Whether the submission has the next number, and an identifier of its own.
    fn is_next(&self, submission: &Submission) -> bool
        ensures { result ≡ is_next submission.now self.now.end }
    {
        submission.number == self.outbox.len()
            && self.outbox.number_of(&submission.header.id).is_none()
    }
}

/// Whether a submission may have this number of tries, this last one and this state together.
fn has_tries(carried: &Carried) -> bool
    ensures { result ≡ are_tries (as_carried carried.now) }
{
    let most = carried.submission.retries + 1;
    let failed = matches!(carried.standing, Mark::Failed);
    carried.tries <= most
        && (!failed || carried.tries == most)
        && (carried.tries != 0 || carried.last == 0)
}

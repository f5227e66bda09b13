//! The pending submissions, in one heap, by the moment at which each expires. A submission that may be sent again has a
//! moment past all others.

ghost use Rattle.std.specs.Prelude.{◌≡◌, ◌≤◌, ◌++◌, ◌∷◌, [], List, None, OnOk, IfSome, IfNone, IsTrue, count_by, length};
ghost use Rattle.due_heap.specs.Heaps.{standing_at};
ghost use Rattle.exchange_model.specs.Apply.{is_one};
ghost use Rattle.exchange_model.specs.Questions.{is_spent, sent_at};
ghost use Rattle.exchange_model.specs.declared.sent.Sent.{Sent as SentValue};
ghost use Rattle.outbox.specs.Failing.{HasWatchRoom, Watches};
ghost use Rattle.outbox.specs.Submissions.{Stand};

use crate::marking::{NEVER, fails_at};
use as4_values::{MAX_MOMENT, NoMemory};
use due_heap::Heaps;
use exchange_model::{Mark, Sent};

/// The number of the heap.
const HEAP: u64 = 0;

/// The most submissions of an outbox.
const MOST: u64 = 1 << 20;

/// Reserves room to watch one more, of this number.
pub fn reserve(failing: &mut Heaps, number: u64) -> Result<(), NoMemory>
    ensures watches { (sent : List SentValue) → Watches failing.old sent → Watches failing.new sent }
    ensures room { OnOk result (HasWatchRoom failing.new number) }
{
    if failing.count() == 0 {
        failing.add()?;
    }
    if number < MOST {
        failing.reserve(HEAP, number)?;
    }
    Ok(())
}

/// Watches one more if it is pending.
pub fn watch(failing: &mut Heaps, sent: &Sent)
    requires dated { sent.now.last ≤ MAX_MOMENT }
    requires room { HasWatchRoom failing.old sent.now.submission.number }
    requires new { standing_at sent.now.submission.number failing.old ≡ None }
    ensures { (before : List SentValue) → length before ≡ sent.now.submission.number → Watches failing.old before
        → Watches failing.new (before ++ sent.now ∷ []) }
{
    if let Mark::Pending = sent.mark {
        failing.insert(HEAP, fails_at(sent), sent.submission.number);
    }
}

/// One that expires by this moment.
pub fn first_before(failing: &Heaps, moment: u64) -> Option<u64>
    ensures spent { (sent : List SentValue) → Watches failing.now sent → Stand sent
        → IfSome result (λ number. IsTrue (is_one (is_spent moment) (sent_at number sent))) }
    ensures none { (sent : List SentValue) → Watches failing.now sent → Stand sent
        → IfNone result (count_by (is_spent moment) sent ≡ 0) }
{
    if failing.count() == 0 {
        return None;
    }
    let (due, number) = failing.least(HEAP)?;
    if due <= moment && due < NEVER {
        Some(number)
    } else {
        None
    }
}

/// The number of submissions that expire by this moment.
pub fn count_before(failing: &Heaps, moment: u64) -> u64
    ensures { (sent : List SentValue) → Watches failing.now sent → Stand sent → result ≡ count_by (is_spent moment) sent }
{
    if failing.count() == 0 {
        return 0;
    }
    failing.count_due(HEAP, moment.min(NEVER - 1))
}

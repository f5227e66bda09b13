//! Changes the states of submissions in a list, where each is at the place of its number.

ghost use Rattle.std.specs.Prelude.{◌≡◌, ◌≤◌, IsTrue, Some};
ghost use Rattle.exchange_model.specs.Questions.{due, is_pending, is_waiting, sent_at};
ghost use Rattle.exchange_model.specs.Apply.{tried, marked, changed, is_one};
ghost use Rattle.exchange_model.specs.declared.sent.Sent.{Sent as SentValue};
ghost use Rattle.outbox.specs.Failing.{failing_at};
ghost use Rattle.outbox.specs.Submissions.{Stand};

use as4_values::MAX_MOMENT;
use exchange_model::{Mark, Sent};

/// Past all moments of the clock.
pub const NEVER: u64 = u64::MAX;

/// When it is to be sent or expires, in milliseconds since 1970-01-01T00:00:00Z.
pub fn due_of(sent: &Sent) -> u64
    requires { sent.now.last ≤ MAX_MOMENT }
    ensures { result ≡ due sent.now }
{
    if sent.tries == 0 {
        sent.submission.moment
    } else {
        sent.last + sent.submission.period
    }
}

/// When a pending submission expires: past all moments as long as it may be sent again.
pub fn fails_at(sent: &Sent) -> u64
    requires { sent.now.last ≤ MAX_MOMENT }
    ensures { result ≡ failing_at sent.now }
{
    if sent.tries == sent.submission.retries + 1 {
        due_of(sent)
    } else {
        NEVER
    }
}

/// Records that the submission of this number was sent at this moment. Returns when it expires now.
pub fn mark_tried(sent: &mut [Sent], number: u64, moment: u64) -> u64
    requires stand { Stand sent.old }
    requires waiting { IsTrue (is_one is_waiting (sent_at number sent.old)) }
    requires dated { moment ≤ MAX_MOMENT }
    ensures after { sent.new ≡ changed number (tried moment) sent.old }
    ensures stand { Stand sent.new }
    ensures fails { (one : SentValue) → sent_at number sent.old ≡ Some one → result ≡ failing_at (tried moment one) }
{
    let one = &mut sent[number as usize];
    one.tries += 1;
    one.last = moment;
    fails_at(one)
}

/// Settles the submission of this number.
pub fn settle(sent: &mut [Sent], number: u64, mark: Mark)
    requires stand { Stand sent.old }
    requires pending { IsTrue (is_one is_pending (sent_at number sent.old)) }
    ensures after { sent.new ≡ changed number (marked mark) sent.old }
    ensures stand { Stand sent.new }
{
    let one = &mut sent[number as usize];
    one.mark = mark;
}

//! The state of one submission of an outbox.

ghost use Rattle.std.specs.Prelude.{◌≡◌};
ghost use Rattle.exchange_model.specs.Apply.{is_one};
ghost use Rattle.exchange_model.specs.Questions.{is_pending, is_waiting, sent_at};

use exchange_model::Standing;
use outbox::Outbox;

/// Whether it is pending: neither receipted, expired nor refused.
#[tactic(auto, unfolding(exchange_model::specs::Questions::standing_of))]
pub fn is_pending(outbox: &Outbox, number: u64) -> bool
    ensures { result ≡ is_one is_pending (sent_at number outbox.now.sent) }
{
    matches!(outbox.status(number), Some(Standing::Pending { .. }))
}

/// Whether it waits: it is pending and may still be sent.
#[tactic(auto, unfolding(exchange_model::specs::Questions::standing_of))]
pub fn waits(outbox: &Outbox, number: u64) -> bool
    ensures { result ≡ is_one is_waiting (sent_at number outbox.now.sent) }
{
    match (outbox.status(number), outbox.get(number)) {
        (Some(Standing::Pending { tries }), Some(submission)) => tries <= submission.retries,
        _ => false,
    }
}

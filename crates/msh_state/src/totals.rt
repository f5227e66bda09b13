//! Counts over all submissions.

ghost use Rattle.std.specs.Prelude.{◌≡◌, count_by};
ghost use Rattle.exchange_model.specs.Questions.{is_spent};
ghost use Rattle.msh_state.specs.Totals.{AreTotals};

use crate::tables::EndTables;
use outbox::Counts;

/// Counts of the submissions by state, and of the received messages.
#[derive(Clone, Copy, Debug, PartialEq, Eq)]
pub struct Totals {
    pub submitted: u64,
    pub receipted: u64,
    /// The expired ones: no receipt was received in time (`EBMS:0301`).
    pub failed: u64,
    pub refused: u64,
    pub inbox: u64,
}

impl EndTables {
    pub fn totals(&self) -> Totals
        ensures { AreTotals self.now.end result }
    {
        let Counts {
            receipted,
            failed,
            refused,
        } = self.outbox.counts();
        Totals {
            submitted: self.outbox.len(),
            receipted,
            failed,
            refused,
            inbox: self.inbox.len(),
        }
    }

    /// The number of submissions that are spent at this moment.
    pub fn spent(&self, moment: u64) -> u64
        ensures { result ≡ count_by (is_spent moment) self.now.end.sent }
    {
        self.outbox.spent(moment)
    }
}

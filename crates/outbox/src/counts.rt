//! Counts of the settled submissions, by state.

ghost use Rattle.std.specs.Prelude.{◌≡◌, ◌+◌, ◌<◌, ◌^◌};
ghost use Rattle.outbox.specs.Counting.{counted};

use exchange_model::Mark;

/// The number of settled submissions, by state. The submissions that aren't counted here are pending.
#[derive(Clone, Copy, Debug, PartialEq, Eq)]
pub struct Counts {
    pub receipted: u64,
    /// The expired ones: no receipt was received in time (`EBMS:0301`).
    pub failed: u64,
    pub refused: u64,
}

impl Counts {
    pub fn none() -> Counts
        ensures { result ≡ record { receipted = 0; failed = 0; refused = 0 } }
    {
        Counts {
            receipted: 0,
            failed: 0,
            refused: 0,
        }
    }

    /// Counts one more with this state.
    pub fn add(&mut self, mark: &Mark)
        requires receipted { self.old.receipted + 1 < 2 ^ 64 }
        requires failed { self.old.failed + 1 < 2 ^ 64 }
        requires refused { self.old.refused + 1 < 2 ^ 64 }
        ensures { self.new ≡ counted mark.now self.old }
    {
        match mark {
            Mark::Pending => {}
            Mark::Receipted => self.receipted += 1,
            Mark::Failed => self.failed += 1,
            Mark::Refused { .. } => self.refused += 1,
        }
    }
}

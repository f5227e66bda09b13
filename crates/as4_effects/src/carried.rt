//! Submissions as compaction carries them over.

ghost use Rattle.std.specs.Prelude.{◌≤◌};
ghost use Rattle.as4_values.specs.declared.moment.TheConstants.{MAX_MOMENT};

use crate::mark::Mark;
use crate::submission::Submission;
use as4_values::{NoMemory, PlainData};
use std::alloc::Global;

/// A submission with its current state, written by compaction.
#[derive(Drop)]
pub struct Carried {
    pub submission: Submission,
    /// How often it was sent.
    pub tries: u32,
    /// When it was last sent, in milliseconds since 1970, before the year 10,000; 0 where it was never sent.
    pub last: u64,
    pub standing: Mark,
    pub ghost dated: { last ≤ MAX_MOMENT },
}

impl PlainData for Carried {
    fn try_clone(&self, alloc: Global) -> Result<Carried, NoMemory> {
        match (
            self.submission.try_clone(alloc),
            self.standing.try_clone(alloc),
        ) {
            (Ok(submission), Ok(standing)) => Ok(Carried {
                submission,
                tries: self.tries,
                last: self.last,
                standing,
            }),
            (submission, standing) => {
                drop(submission);
                drop(standing);
                Err(NoMemory)
            }
        }
    }

    fn same(&self, other: &Carried) -> bool {
        self.submission.same(&other.submission)
            && self.tries == other.tries
            && self.last == other.last
            && self.standing.same(&other.standing)
    }
}

//! Headers that compaction keeps.

ghost use Rattle.std.specs.Prelude.{IsTrue};
ghost use Rattle.as4_effects.specs.Sound.{kept_body, fits_an_effect};

use as4_values::{NoMemory, PlainData, UserHeader};
use std::alloc::Global;

/// A user message that was received and confirmed: compaction keeps only its header.
#[derive(Drop)]
pub struct Kept {
    pub header: UserHeader,
    pub ghost fits: { IsTrue (fits_an_effect (kept_body header)) },
}

impl PlainData for Kept {
    fn try_clone(&self, alloc: Global) -> Result<Kept, NoMemory> {
        let header = self.header.try_clone(alloc)?;
        Ok(Kept { header })
    }

    fn same(&self, other: &Kept) -> bool {
        self.header.same(&other.header)
    }
}

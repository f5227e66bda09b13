ghost use Rattle.std.specs.Prelude.{◌≡◌};
ghost use Rattle.as4_disk.specs.Files.{image_of};

use crate::Part;
use as4_values::{NoMemory, Octets, PlainData};
use std::alloc::Global;

/// The bytes of the three parts of a disk.
#[derive(Drop)]
pub struct Files {
    pub selector: Octets,
    pub leaf0: Octets,
    pub leaf1: Octets,
}

impl Files {
    /// The bytes of one part.
    pub fn bytes(&self, part: Part) -> &[u8]
        ensures { result.now ≡ image_of self.now part }
    {
        match part {
            Part::Selector => self.selector.bytes(),
            Part::Leaf0 => self.leaf0.bytes(),
            Part::Leaf1 => self.leaf1.bytes(),
        }
    }
}

impl PlainData for Files {
    fn try_clone(&self, alloc: Global) -> Result<Files, NoMemory> {
        let selector = self.selector.try_clone(alloc)?;
        let leaf0 = self.leaf0.try_clone(alloc)?;
        let leaf1 = self.leaf1.try_clone(alloc)?;
        Ok(Files {
            selector,
            leaf0,
            leaf1,
        })
    }

    fn same(&self, other: &Files) -> bool {
        self.selector.same(&other.selector)
            && self.leaf0.same(&other.leaf0)
            && self.leaf1.same(&other.leaf1)
    }
}

//! The names of channels, each at its place.

ghost use Rattle.std.specs.Prelude.{◌≡◌, ◌≢◌, ℕ, ◌<◌, ◌^◌, ◌++◌, ◌∷◌, [], Some, length, slice_get, IfSome, IfNone, OnOk, OnErr};

use as4_values::NoMemory;
use indexmap::IndexSet;
use std::alloc::Global;
use std::marker::Model;

/// Distinct names, in the order in which they were added.
#[derive(Drop)]
pub struct Names {
    alloc: Global,
    names: IndexSet<Vec<u8>>,
}

impl Model for Names {
    ghost use Rattle.std.specs.Prelude.{ℕ, List, map};

    ghost Value = { List (List ℕ) };

    ghost view = { λ n. map (λ name. name.items) n.names.keys };
}

impl Names {
    pub fn new(alloc: Global) -> Names
        ensures { result ≡ [] }
    {
        Names {
            alloc,
            names: IndexSet::new(alloc),
        }
    }

    pub fn len(&self) -> u64
        ensures value { result ≡ length self.now }
        ensures small { result < 2 ^ 63 }
    {
        self.names.len() as u64
    }

    /// The place of this name.
    pub fn find(&self, name: &[u8]) -> Option<u64>
        ensures found { IfSome result (λ at. slice_get self.now at ≡ Some name.now) }
        ensures none { IfNone result ((at : ℕ) → slice_get self.now at ≢ Some name.now) }
    {
        let at = self.names.get_index_of(name)?;
        Some(at as u64)
    }

    /// Adds a new name after the others.
    pub fn add(&mut self, name: &[u8]) -> Result<(), NoMemory>
        requires new { (at : ℕ) → slice_get self.old at ≢ Some name.now }
        ensures ok { OnOk result (self.new ≡ self.old ++ name.now ∷ []) }
        ensures err { OnErr result (self.new ≡ self.old) }
    {
        let name = Vec::from_slice(self.alloc, name)?;
        self.names.insert(name)?;
        Ok(())
    }
}

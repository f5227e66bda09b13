//! What a handler is started with.
ghost use Rattle.std.specs.Prelude.{◌≡◌, ◌++◌, IfOk, codes, string_bytes};
ghost use Rattle.handler.specs.Hosts.{AreOf};

use as4_disk::Paths;
use as4_values::NoMemory;
use std::alloc::Global;

/// The files, the addresses and the numbers of a handler.
#[derive(Clone, Copy)]
pub struct Setup<'a> {
    /// The path of the modes file.
    pub modes: &'a str,
    /// The path of the journal. Its second leaf and its selector have the same path with `.1` and `.s` after it.
    pub journal: &'a str,
    /// The address at which partners are served.
    pub peer: &'a str,
    /// The address at which local applications are served.
    pub local: &'a str,
    /// How many workers serve partners, 1 to 11.
    pub workers: u64,
    /// How many turns each worker makes, at most 2^63.
    pub turns: u64,
    /// How many requests of one connection are answered at most, 1 to 1,000. With 1, each connection is closed after one
    /// answer.
    pub keep: u64,
}

/// The paths of a journal's other two files.
#[derive(Drop)]
pub(crate) struct OtherPaths {
    leaf1: String,
    selector: String,
}

/// The paths of the journal's other two files.
pub(crate) fn other_paths(alloc: Global, journal: &str) -> Result<OtherPaths, NoMemory>
    ensures { IfOk result (λ paths. (string_bytes paths.leaf1 ≡ journal.now ++ codes ".1")
        × (string_bytes paths.selector ≡ journal.now ++ codes ".s")) }
{
    match (
        format!(in alloc; "{journal}.1"),
        format!(in alloc; "{journal}.s"),
    ) {
        (Ok(leaf1), Ok(selector)) => Ok(OtherPaths { leaf1, selector }),
        (leaf1, selector) => {
            drop(leaf1);
            drop(selector);
            Err(NoMemory)
        }
    }
}

impl OtherPaths {
    /// The paths of all three files.
    pub(crate) fn paths<'a>(&'a self, journal: &'a str) -> Paths<'a>
        requires leaf1 { string_bytes self.now.leaf1 ≡ journal.now ++ codes ".1" }
        requires selector { string_bytes self.now.selector ≡ journal.now ++ codes ".s" }
        ensures { AreOf journal.now result }
    {
        Paths {
            selector: self.selector.as_str(),
            leaf0: journal,
            leaf1: self.leaf1.as_str(),
        }
    }
}

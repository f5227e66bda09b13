//! How often a link, a door or a host has failed.
ghost use Rattle.std.specs.Prelude.{◌≡◌, ◌≤◌};
ghost use Rattle.as4_disk.specs.Faults.{Rises};
ghost use Rattle.as4_host.specs.Counts.{raised};

use as4_host::raised;

/// The counts of failed calls, of settled sources and of settled sinks, each up to the last value of a `u64`.
#[derive(Clone, Copy, Debug, PartialEq, Eq)]
pub struct HostCounts {
    pub faults: u64,
    pub reads: u64,
    pub writes: u64,
}

impl HostCounts {
    pub(crate) fn none() -> HostCounts
        ensures { (result.faults ≡ 0) × (result.reads ≡ 0) × (result.writes ≡ 0) }
    {
        HostCounts {
            faults: 0,
            reads: 0,
            writes: 0,
        }
    }

    /// A call failed.
    pub(crate) fn fail(&mut self)
        ensures rises { Rises self.old.faults self.new.faults }
        ensures others { self.new ≡ record self.old { faults = self.new.faults } }
    {
        self.faults = self.faults.saturating_add(1);
    }

    /// A link, a door, a store or a pair of streams with these counts was settled.
    pub(crate) fn settle(&mut self, settled: HostCounts)
        ensures faults { self.new.faults ≡ raised settled.faults self.old.faults }
        ensures reads { self.new.reads ≡ raised settled.reads self.old.reads }
        ensures writes { self.new.writes ≡ raised settled.writes self.old.writes }
        ensures counted { (self.old.faults ≤ self.new.faults) × (self.old.reads ≤ self.new.reads)
            × (self.old.writes ≤ self.new.writes) }
    {
        self.faults = raised(settled.faults, self.faults);
        self.reads = raised(settled.reads, self.reads);
        self.writes = raised(settled.writes, self.writes);
    }
}

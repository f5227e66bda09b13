//! A disk of three parts that may crash at any moment: what it is, in memory and on the system's files.
#![tactic(auto)]

mod bytes;
mod change;
mod crash;
mod disk;
mod durable;
mod fault_counts;
mod file;
mod files;
mod memory;
mod part;
mod reading;
mod system;

pub use change::Pick;
pub use disk::{Disk, DiskFailed};
pub use durable::write_durably;
pub use fault_counts::FaultCounts;
pub use file::{FileDisk, Paths};
pub use files::Files;
pub use memory::{MemoryDisk, a_stopped_run_is_known, leaves_all_that_may_be};
pub use part::Part;
pub use reading::{ReadFault, read_some};
pub use system::{OpenFiles, SystemFile};

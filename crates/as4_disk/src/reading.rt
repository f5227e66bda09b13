//! A read of bytes that a part may not have.
ghost use Rattle.std.specs.Prelude.{◌≡◌, ◌+◌, ◌<◌, ◌≤◌, length, take, drop, IfOk, IfSome, IfNone};
ghost use Rattle.as4_flow.specs.Flow.{Told};
ghost use Rattle.as4_disk.specs.Faults.{HasReadCause};
ghost use Rattle.as4_disk.specs.Leaving.{Quiet};

use crate::{Disk, DiskFailed, Part};
use std::alloc::{AllocError, Global};

/// Why bytes were not read.
#[derive(Clone, Copy, Debug, PartialEq, Eq)]
pub enum ReadFault {
    /// A device call failed.
    Disk,
    /// There was no memory for the bytes.
    NoMemory,
}

impl From<AllocError> for ReadFault {
    ghost use Rattle.as4_disk.specs.declared.reading.ReadFault.TheVariants.{NoMemory};

    ghost from_gives = { λ _ fault. fault ≡ NoMemory };

    fn from(_: AllocError) -> Self {
        ReadFault::NoMemory
    }
}

impl From<DiskFailed> for ReadFault {
    ghost use Rattle.as4_disk.specs.declared.reading.ReadFault.TheVariants.{Disk};

    ghost from_gives = { λ _ fault. fault ≡ Disk };

    fn from(_: DiskFailed) -> Self {
        ReadFault::Disk
    }
}

/// The bytes of a part from `at` on, this many, or `None` where the part has fewer.
pub fn read_some<D: Disk>(
    alloc: Global,
    disk: &mut D,
    part: Part,
    at: u64,
    count: u64,
) -> Result<Option<Vec<u8>>, ReadFault>
    ensures found { IfOk result (λ found. IfSome found (λ bytes. Told (D.seen disk.old) (λ b.
        (at + count ≤ length (b part)) × (bytes.items ≡ take count (drop at (b part)))))) }
    ensures none { IfOk result (λ found. IfNone found (Told (D.seen disk.old) (λ b. length (b part) < at + count))) }
    ensures len { IfOk result (λ found. IfSome found (λ bytes. length bytes.items ≡ count)) }

    ensures quiet { Quiet D.Disk disk.old disk.new }
    ensures cause { HasReadCause (D.fault_count disk.old) (D.fault_count disk.new) result }
{
    let len = disk.len(part)?;
    let end = match at.checked_add(count) {
        Some(end) if end <= len => end,
        _ => return Ok(None),
    };
    let mut bytes = vec![in alloc; 0; (end - at) as usize]?;
    disk.read_at(part, at, &mut bytes)?;
    Ok(Some(bytes))
}

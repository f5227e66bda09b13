//! Connections over a disk that fails.
ghost use Rattle.std.specs.Prelude.{◌≡◌};
ghost use Rattle.as4_disk.specs.MemoryMeaning.{memory_meaning};
ghost use Rattle.sessions.specs.Shared.{IsOpened};

use crate::rig::{BreakKind, EndKind, Shared, both, gives, opened, whole};
use crate::samples::{INVOICE, Text};
use as4_disk::MemoryDisk;
use office::{Call, Office};
use pass_book::Pass;
use sessions::{Opening, SharedOffice};
use std::alloc::{AllocError, Global};
use std::marker::Brand;
use std::sync::{Mutex, Wait};
use std::test::Fail;

/// Whether the first connection breaks at its first request by a fault of the disk, and the second one since the office
/// stands still, each with the response that the service is unavailable; and the share of the pass.
fn breaks<R: Wait, J: Opening>(
    rt: &R,
    alloc: Global,
    office: Office<'_, MemoryDisk>,
    mut pass: Pass<'_, Call>,
    bytes: &[u8],
) -> ([bool; 2], u64)
    requires opened { IsOpened memory_meaning J.Opening office }
    requires book { pass.book ≡ J.book }
{
    let shared: Shared<'_, J> = Mutex::new(SharedOffice::new(office));
    let fault = EndKind::Broken(0, BreakKind::DiskFault);
    let first = gives(
        rt,
        alloc,
        &shared,
        &mut pass,
        whole(bytes, 10),
        fault,
        &[Text::Unavailable],
    );
    let stopped = EndKind::Broken(0, BreakKind::Stopped);
    let second = gives(
        rt,
        alloc,
        &shared,
        &mut pass,
        whole(bytes, 10),
        stopped,
        &[Text::Unavailable],
    );
    drop(shared.into_inner().into_office());
    let share = pass.share();
    drop(pass);
    ([first, second], share)
}

fn after_fault<R: Wait>(rt: &R, alloc: Global, call: u64) -> Result<([bool; 2], u64), AllocError> {
    let bytes = both(alloc, INVOICE, INVOICE)?;
    let (office, pass) = opened(alloc, &[call])?;
    Ok(breaks::<_, Brand>(rt, alloc, office, pass, bytes.as_slice()))
}

// An opening makes eight device calls and a record four.
#[test]
fn a_failing_disk_breaks_a_connection_and_stops_the_next(rt: HostRuntime) -> Result<(), Fail> {
    for call in 9..13 {
        assert_eq!(rt; after_fault(&rt, rt.alloc(), call), Ok(([true, true], 2)));
    }
    Ok(())
}

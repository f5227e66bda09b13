//! Rounds over a disk that fails.
ghost use Rattle.std.specs.Prelude.{◌≡◌};
ghost use Rattle.as4_disk.specs.MemoryMeaning.{memory_meaning};
ghost use Rattle.sessions.specs.Shared.{IsOpened};

use crate::rig::{EndKind, kind_of, link_of, opened, submits};
use as4_disk::MemoryDisk;
use as4_flow::{CountNonces, ListClock};
use office::{Call, Office};
use pass_book::Pass;
use rounds::push_round;
use sessions::{Opening, SharedOffice};
use std::alloc::{AllocError, Global};
use std::marker::Brand;
use std::sync::{Mutex, Wait};
use std::test::Fail;

/// How two rounds that push end after one submission.
fn two_ends<R: Wait, J: Opening>(
    rt: &R,
    alloc: Global,
    office: Office<'_, MemoryDisk>,
    mut pass: Pass<'_, Call>,
) -> Result<[EndKind; 2], AllocError>
    requires opened { IsOpened memory_meaning J.Opening office }
    requires book { pass.book ≡ J.book }
{
    let mut link = link_of(alloc, &[], &[0, 0, 0])?;
    let mut clock = ListClock::of(Vec::new(alloc));
    let mut nonces = CountNonces::of(1);
    let shared: Mutex<SharedOffice<'_, MemoryDisk, J>> = Mutex::new(SharedOffice::new(office));
    submits(rt, alloc, &shared, &mut pass, 1);
    let first = push_round(
        rt,
        alloc,
        &shared,
        &mut pass,
        &mut link,
        &mut clock,
        &mut nonces,
    );
    let second = push_round(
        rt,
        alloc,
        &shared,
        &mut pass,
        &mut link,
        &mut clock,
        &mut nonces,
    );
    drop(shared.into_inner().into_office());
    drop(link);
    drop(clock);
    drop(pass);
    Ok([kind_of(first), kind_of(second)])
}

/// How two rounds end over a disk of which this call fails, if an office opens on it.
fn ends<R: Wait>(rt: &R, alloc: Global, call: u64) -> Option<[EndKind; 2]> {
    let (office, pass) = opened(alloc, &[call]).ok()?;
    two_ends::<_, Brand>(rt, alloc, office, pass).ok()
}

/// The numbers of the first and the last failing call with which the first round ends with a fault of the disk, and the
/// second one with that fault; and how many there are.
fn halting<R: Wait>(rt: &R, alloc: Global) -> (u64, u64, u64) {
    let mut found = (0, 0, 0);
    for call in 1..64 {
        if ends(rt, alloc, call) == Some([EndKind::DiskFault, EndKind::Stopped]) {
            let first = if found.2 == 0 { call } else { found.0 };
            found = (first, call, u64::saturating_add(found.2, 1));
        }
    }
    found
}

// An opening makes eight device calls and a record four: those of the submission come before those of the round.
#[test]
fn a_failing_disk_ends_a_round_and_stops_the_next(rt: HostRuntime) -> Result<(), Fail> {
    assert_eq!(rt; halting(&rt, rt.alloc()), (13, 16, 4));
    Ok(())
}

//! Two requests on one connection, which come in two pieces.
ghost use Rattle.std.specs.Prelude.{◌≡◌};
ghost use Rattle.as4_disk.specs.MemoryMeaning.{memory_meaning};
ghost use Rattle.sessions.specs.Shared.{IsOpened};

use crate::rig::{Connection, EndKind, Shared, both, gives, opened, whole};
use crate::samples::{INVOICE, Text};
use as4_disk::MemoryDisk;
use office::{Call, Office};
use pass_book::Pass;
use sessions::{Opening, SharedOffice};
use std::alloc::{AllocError, Global};
use std::marker::Brand;
use std::sync::{Mutex, Wait};
use std::test::Fail;

/// The first of these places after which the requests can go on in a second piece so that the responses aren't the two
/// receipts; the share of the pass afterwards, and the number of received messages.
type Found = (Option<usize>, u64, u64);

fn first_other_cut<R: Wait, J: Opening>(
    rt: &R,
    alloc: Global,
    office: &Shared<'_, J>,
    pass: &mut Pass<'_, Call>,
    bytes: &[u8],
    from: usize,
    upto: usize,
) -> Option<usize>
    requires book { pass.old.book ≡ J.book }
{
    for at in from..upto {
        let pieces = [at];
        let connection = Connection {
            pieces: &pieces,
            ..whole(bytes, 10)
        };
        if !gives(
            rt,
            alloc,
            office,
            pass,
            connection,
            EndKind::Closed(2),
            &[Text::FirstKept, Text::SecondKept],
        ) {
            return Some(at);
        }
    }
    None
}

fn after_cuts<R: Wait, J: Opening>(
    rt: &R,
    alloc: Global,
    office: Office<'_, MemoryDisk>,
    mut pass: Pass<'_, Call>,
    bytes: &[u8],
    from: usize,
    upto: usize,
) -> Found
    requires opened { IsOpened memory_meaning J.Opening office }
    requires book { pass.book ≡ J.book }
{
    let shared: Shared<'_, J> = Mutex::new(SharedOffice::new(office));
    let cut = first_other_cut(rt, alloc, &shared, &mut pass, bytes, from, upto);
    let share = pass.share();
    drop(pass);
    let office = shared.into_inner().into_office();
    let inbox = office.totals().inbox;
    drop(office);
    (cut, share, inbox)
}

fn cuts<R: Wait>(rt: &R, alloc: Global, from: usize, upto: usize) -> Result<Found, AllocError> {
    let bytes = both(alloc, INVOICE, INVOICE)?;
    let (office, pass) = opened(alloc, &[])?;
    Ok(after_cuts::<_, Brand>(rt, alloc, office, pass, bytes.as_slice(), from, upto))
}

// A request has 1,112 bytes. The cuts are made by four tests, since a test has a minute.
#[test]
fn the_first_request_is_cut_in_its_first_half(rt: HostRuntime) {
    assert_eq!(rt; cuts(&rt, rt.alloc(), 1, 556), Ok((None, 1110, 1)));
}

#[test]
fn the_first_request_is_cut_in_its_second_half(rt: HostRuntime) {
    assert_eq!(rt; cuts(&rt, rt.alloc(), 556, 1112), Ok((None, 1112, 1)));
}

#[test]
fn the_second_request_is_cut_in_its_first_half(rt: HostRuntime) {
    assert_eq!(rt; cuts(&rt, rt.alloc(), 1112, 1668), Ok((None, 1112, 1)));
}

#[test]
fn the_second_request_is_cut_in_its_second_half(rt: HostRuntime) {
    assert_eq!(rt; cuts(&rt, rt.alloc(), 1668, 2224), Ok((None, 1112, 1)));
}

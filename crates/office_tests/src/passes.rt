//! Two passes of one history, and a step in two parts.
ghost use Rattle.std.specs.Prelude.{◌≡◌, ◌^◌};

use crate::desk::{Opened, after, does, opened};
use crate::disks::{EMPTY, disk_of, picked};
use crate::steps::{Said, Step, Steps};
use as4_disk::MemoryDisk;
use office::{Call, Office};
use pass_book::{MAX_ENTRIES, Pass};
use std::alloc::Global;

/// How many calls a pass has seen and made, and its stake.
type Numbers = [u64; 3];

fn numbers(pass: &Pass<'_, Call>) -> Numbers {
    [pass.seen(), pass.share(), pass.stake()]
}

/// Does one step with each of two passes, and gives what is said.
fn both_do(
    alloc: Global,
    office: &mut Office<'_, MemoryDisk>,
    one: &mut Pass<'_, Call>,
    two: &mut Pass<'_, Call>,
    steps: [Step; 2],
) -> [Said; 2]
    requires books { (one.old.book ≡ office.old.book) × (two.old.book ≡ office.old.book) }
    ensures office { office.new.book ≡ office.old.book }
    ensures one { one.new.book ≡ one.old.book }
    ensures two { two.new.book ≡ two.old.book }
{
    let first = does(alloc, office, one, steps[0]);
    let second = does(alloc, office, two, steps[1]);
    [first, second]
}

/// What is said to four calls of two passes, and what they know: both, then the first once it is shown all, and once it
/// has taken the other in.
type Shared = ([[Said; 2]; 2], [Numbers; 4]);

fn shared_by(alloc: Global, opened: Opened<'_>) -> Shared
    requires book { opened.1.book ≡ opened.0.book }
    requires stake { opened.1.stake ≡ 2 ^ 63 }
{
    let (mut office, mut one) = opened;
    let mut two = one.split(5);
    let first = both_do(
        alloc,
        &mut office,
        &mut one,
        &mut two,
        [Step::Tick(1000), Step::Came],
    );
    let second = both_do(
        alloc,
        &mut office,
        &mut one,
        &mut two,
        [Step::Read(0), Step::Tick(2000)],
    );
    let apart = [numbers(&one), numbers(&two)];
    office.show(&mut one);
    let shown = numbers(&one);
    one.join(two);
    let joined = numbers(&one);
    drop(one);
    drop(office);
    ([first, second], [apart[0], apart[1], shown, joined])
}

fn shared(alloc: Global) -> Option<Shared> {
    match opened(alloc, disk_of(alloc, EMPTY, &[])?) {
        Ok(opened) => Some(shared_by(alloc, opened)),
        Err((_, disk)) => {
            drop(disk);
            None
        }
    }
}

/// Whether the calls of the two passes are answered as they should.
fn are_answered(alloc: Global) -> Option<bool> {
    let (said, _) = shared(alloc)?;
    Some(
        said == [
            [Said::Ticked(0), Said::Receipt],
            [Said::Entry, Said::Ticked(0)],
        ],
    )
}

#[test]
fn two_passes_make_calls_in_turn(rt: HostRuntime) {
    assert_eq!(rt; are_answered(rt.alloc()), Some(true));
}

fn known(alloc: Global) -> Option<[Numbers; 4]> {
    let (_, numbers) = shared(alloc)?;
    Some(numbers)
}

#[test]
fn passes_count_their_calls(rt: HostRuntime) {
    assert_eq!(rt;
        known(rt.alloc()),
        Some([
            [3, 2, MAX_ENTRIES - 5],
            [4, 2, 5],
            [4, 2, MAX_ENTRIES - 5],
            [4, 4, MAX_ENTRIES],
        ])
    );
}

const AT_ONCE: Steps = &[
    (Step::Came, Said::Receipt),
    (Step::Inbox, Said::Count(1)),
    (Step::Came, Said::Receipt),
    (Step::Seen, Said::Count(2)),
];

const IN_TWO: Steps = &[
    (Step::CameInTwo, Said::Receipt),
    (Step::Inbox, Said::Count(1)),
    (Step::CameInTwo, Said::Receipt),
    (Step::Seen, Said::Count(2)),
];

/// Whether the steps leave these bytes on an empty disk.
fn leave(alloc: Global, steps: Steps, leaf: &[u8]) -> Option<bool> {
    let disk = after(alloc, disk_of(alloc, EMPTY, &[])?, steps)?;
    let is_so = picked(&disk) == leaf;
    drop(disk);
    Some(is_so)
}

/// Whether a step that is prepared and made leaves the bytes that it leaves at once.
fn leaves_the_same(alloc: Global) -> Option<bool> {
    let at_once = after(alloc, disk_of(alloc, EMPTY, &[])?, AT_ONCE)?;
    let is_so = leave(alloc, IN_TWO, picked(&at_once));
    drop(at_once);
    is_so
}

#[test]
fn a_prepared_step_is_the_step(rt: HostRuntime) {
    assert_eq!(rt; leaves_the_same(rt.alloc()), Some(true));
}

//! The tables of an endpoint, over effects.
use as4_effects::{Effect, Mark, Queue, Tick};
use as4_values::MessageId;
use exchange_model::Standing;
use made_messages::{act, act_at, carried, delivery, kept, pulled, submission, text};
use msh_state::{EndTables, Held, Totals};
use std::alloc::Global;

fn tick(tables: &mut EndTables, moment: u64) -> Option<()> {
    if moment > 1_000_000 {
        return None;
    }
    act(tables, Effect::Ticked(Tick { moment }))
}

/// The tables with a submission that has this number of retries, and was tried at 1,000 ms.
fn tried_once(alloc: Global, retries: u32) -> Option<EndTables> {
    let mut tables = EndTables::new(alloc);
    match try_once(alloc, &mut tables, retries) {
        Some(()) => Some(tables),
        None => {
            drop(tables);
            None
        }
    }
}

fn try_once(alloc: Global, tables: &mut EndTables, retries: u32) -> Option<()> {
    act(tables, Effect::Submitted(submission(alloc, 0, retries)?))?;
    tick(tables, 1000)?;
    tables.head(&Queue::Push)?;
    act(tables, Effect::Tried { number: 0 })
}

/// The head of the push queue at this moment.
fn head_at(tables: &mut EndTables, moment: u64) -> Option<Option<u64>> {
    tick(tables, moment)?;
    Some(tables.head(&Queue::Push))
}

/// The number of leading rows that name the head of the push queue at their moment.
fn right_of(tables: &mut EndTables, rows: &[(u64, Option<u64>)]) -> usize {
    for (at, (moment, head)) in rows.iter().enumerate() {
        if head_at(tables, *moment) != Some(*head) {
            return at;
        }
    }
    rows.len()
}

/// The same after one try of a submission with one retry.
fn right(alloc: Global, rows: &[(u64, Option<u64>)]) -> Option<usize> {
    let mut tables = tried_once(alloc, 1)?;
    let count = right_of(&mut tables, rows);
    drop(tables);
    Some(count)
}

#[test]
fn a_try_moves_a_submission_on(rt: HostRuntime) {
    let rows = [(60_999, None), (61_000, Some(0)), (90_000, Some(0))];
    assert_eq!(rt; right(rt.alloc(), &rows), Some(rows.len()));
}

/// The head and the totals after the receipt of a submission that was tried.
fn receipted(alloc: Global) -> Option<(Option<u64>, Totals)> {
    let mut tables = tried_once(alloc, 1)?;
    let told = receipt(&mut tables);
    drop(tables);
    told
}

fn receipt(tables: &mut EndTables) -> Option<(Option<u64>, Totals)> {
    act(tables, Effect::Receipted { number: 0 })?;
    let head = head_at(tables, 61_000)?;
    Some((head, tables.totals()))
}

#[test]
fn a_receipt_takes_a_submission_out_of_its_queue(rt: HostRuntime) {
    let totals = Totals {
        submitted: 1,
        receipted: 1,
        failed: 0,
        refused: 0,
        inbox: 0,
    };
    assert_eq!(rt; receipted(rt.alloc()), Some((None, totals)));
}

/// The numbers of expired submissions at two moments, and the head and the standing of the first after a tick, for a
/// submission without retries that was tried.
fn given_up(alloc: Global) -> Option<(u64, u64, Option<u64>, Option<Standing>)> {
    let mut tables = tried_once(alloc, 0)?;
    let (early, late) = (tables.spent(60_999), tables.spent(61_000));
    let head = head_at(&mut tables, 61_000);
    let standing = tables.status(0);
    drop(tables);
    Some((early, late, head?, standing))
}

#[test]
fn a_tick_gives_up_what_is_spent(rt: HostRuntime) {
    let wanted = (0, 1, None, Some(Standing::Failed));
    assert_eq!(rt; given_up(rt.alloc()), Some(wanted));
}

/// Delivers a message and confirms it.
fn take_one(alloc: Global, tables: &mut EndTables) -> Option<()> {
    act(tables, Effect::Delivered(delivery(alloc)?))?;
    act(tables, Effect::Confirmed { upto: 0 })
}

fn is_gone(tables: &EndTables) -> bool {
    matches!(tables.read(0), Held::Gone)
}

/// Whether the identifier of that message is held.
fn holds_it(alloc: Global, tables: &EndTables) -> Option<bool> {
    let id = MessageId::of_submission(alloc, 0, 1).ok()?;
    Some(tables.holds(&id))
}

/// Whether a message was delivered and confirmed, is gone, and its identifier is held.
fn taken_over(alloc: Global) -> (Option<()>, bool, Option<bool>) {
    let mut tables = EndTables::new(alloc);
    let taken = take_one(alloc, &mut tables);
    let gone = is_gone(&tables);
    let held = holds_it(alloc, &tables);
    drop(tables);
    (taken, gone, held)
}

#[test]
fn a_message_that_came_is_held_for_good(rt: HostRuntime) {
    assert_eq!(rt; taken_over(rt.alloc()), (Some(()), true, Some(true)));
}

/// Where the payloads of the first message are, if it can be read.
fn place(tables: &EndTables) -> Option<(u64, u64)> {
    match tables.read(0) {
        Held::Entry { gate, length, .. } => Some((gate, length)),
        _ => None,
    }
}

/// Moves the payloads of the first message to this gate, if it was received.
fn move_first(tables: &mut EndTables, gate: u64) {
    if tables.received() > 0 {
        tables.moved(0, gate);
    }
}

/// The same for a message that the record at the gate 77 delivers, once its payloads were moved to the gate 8, and
/// after its confirmation.
fn places(alloc: Global) -> Option<[Option<(u64, u64)>; 3]> {
    let mut tables = EndTables::new(alloc);
    let came = come_at(alloc, &mut tables, 77);
    let before = place(&tables);
    move_first(&mut tables, 8);
    let moved = place(&tables);
    let taken = act(&mut tables, Effect::Confirmed { upto: 0 });
    let after = place(&tables);
    drop(tables);
    came?;
    taken?;
    Some([before, moved, after])
}

fn come_at(alloc: Global, tables: &mut EndTables, gate: u64) -> Option<()> {
    act_at(tables, Effect::Delivered(delivery(alloc)?), gate)
}

/// The body has its count in 2 bytes, the kind in 1, and then, each text after its length in 4: no channel, 1; the
/// stamp, 24; the identifier, 46; no reference, 1; two sides of 15; no agreement, 1; the service, 6; the action, 7; no
/// conversation, 1; and no properties, parts and payloads, 4 each.
#[test]
fn a_message_has_its_gate_and_its_length(rt: HostRuntime) {
    assert_eq!(rt;
        places(rt.alloc()),
        Some([Some((77, 132)), Some((8, 132)), None])
    );
}

/// Carries over a submission with one retry, after this number of tries.
fn carry(
    alloc: Global,
    tables: &mut EndTables,
    number: u64,
    tries: u32,
    last: u64,
    standing: Mark,
) -> Option<()> {
    match submission(alloc, number, 1) {
        Some(submission) => {
            let carried = carried(submission, tries, last, standing)?;
            act(tables, Effect::Carried(carried))
        }
        None => {
            drop(standing);
            None
        }
    }
}

/// Carries over a submission tried at 5,000 ms, one that is spent, and one that expired.
fn carry_three(alloc: Global, tables: &mut EndTables) -> Option<()> {
    carry(alloc, tables, 0, 1, 5000, Mark::Pending)?;
    carry(alloc, tables, 1, 2, 5000, Mark::Pending)?;
    carry(alloc, tables, 2, 2, 5000, Mark::Failed)
}

/// The number of tries of a submission, the last moment, and the totals; the head at three moments, and the standing of
/// the second at the last of them.
fn told_of_carried(
    alloc: Global,
    tables: &mut EndTables,
) -> Option<(Option<(u32, u64)>, u64, [Option<u64>; 2], Option<Standing>)> {
    carry_three(alloc, tables)?;
    let tried = tables.tried(0);
    let failed = tables.totals().failed;
    let heads = [head_at(tables, 64_999)?, head_at(tables, 65_000)?];
    Some((tried, failed, heads, tables.status(1)))
}

fn carried_over(
    alloc: Global,
) -> Option<(Option<(u32, u64)>, u64, [Option<u64>; 2], Option<Standing>)> {
    let mut tables = EndTables::new(alloc);
    let told = told_of_carried(alloc, &mut tables);
    drop(tables);
    told
}

#[test]
fn one_that_is_carried_over_goes_on_as_it_stood(rt: HostRuntime) {
    let wanted = (Some((1, 5000)), 1, [None, Some(0)], Some(Standing::Failed));
    assert_eq!(rt; carried_over(rt.alloc()), Some(wanted));
}

#[derive(Clone, Copy)]
enum Marked {
    Pending,
    Receipted,
    Failed,
}

fn mark_of(marked: Marked) -> Mark {
    match marked {
        Marked::Pending => Mark::Pending,
        Marked::Receipted => Mark::Receipted,
        Marked::Failed => Mark::Failed,
    }
}

/// Whether the clock was set before; the number of a submission with one retry, the number of its tries, the last
/// moment and its standing; and whether it can be carried over to a new endpoint.
type Carrying = (bool, u64, u32, u64, Marked, bool);

const CARRYINGS: [Carrying; 9] = [
    (false, 0, 0, 0, Marked::Pending, true),
    (false, 0, 2, 1000, Marked::Pending, true),
    (false, 0, 0, 0, Marked::Receipted, true),
    (false, 0, 2, 1000, Marked::Failed, true),
    // It was tried too often, expired too early, or has a last moment without a try.
    (false, 0, 3, 1000, Marked::Pending, false),
    (false, 0, 1, 1000, Marked::Failed, false),
    (false, 0, 0, 1000, Marked::Pending, false),
    // It isn't the next one.
    (false, 1, 0, 0, Marked::Pending, false),
    // The clock was set.
    (true, 0, 0, 0, Marked::Pending, false),
];

/// Whether it can be carried over.
fn fits_as(alloc: Global, row: Carrying) -> bool {
    let (ticked, number, tries, last, standing, _) = row;
    let mut tables = EndTables::new(alloc);
    let made = if ticked {
        tick(&mut tables, 1)
    } else {
        Some(())
    };
    let done = carry(alloc, &mut tables, number, tries, last, mark_of(standing));
    drop(tables);
    made.is_some() && done.is_some()
}

fn first_other_carrying(alloc: Global) -> Option<usize> {
    for (at, row) in CARRYINGS.iter().enumerate() {
        if fits_as(alloc, *row) != row.5 {
            return Some(at);
        }
    }
    None
}

#[test]
fn one_is_carried_over_where_its_tries_agree_and_no_clock_is_set(rt: HostRuntime) {
    assert_eq!(rt; first_other_carrying(rt.alloc()), None);
}

fn keep(alloc: Global, tables: &mut EndTables, number: u64) -> Option<()> {
    act(tables, Effect::Kept(kept(alloc, number)?))
}

/// Whether a header can be kept at a new endpoint, can be kept again, and is gone with its identifier held.
fn kept_at(alloc: Global) -> [bool; 4] {
    let mut tables = EndTables::new(alloc);
    let first = keep(alloc, &mut tables, 0).is_some();
    let again = keep(alloc, &mut tables, 0).is_some();
    let held = holds_it(alloc, &tables) == Some(true);
    let gone = is_gone(&tables);
    drop(tables);
    [first, again, gone, held]
}

#[test]
fn one_that_is_kept_is_gone_and_held(rt: HostRuntime) {
    assert_eq!(rt; kept_at(rt.alloc()), [true, false, true, true]);
}

/// Whether a header can be kept after a message was delivered, before and after its confirmation.
fn kept_behind(alloc: Global) -> Option<[bool; 2]> {
    let mut tables = EndTables::new(alloc);
    let came = comes(alloc, &mut tables);
    let early = keep(alloc, &mut tables, 1).is_some();
    let taken = act(&mut tables, Effect::Confirmed { upto: 0 });
    let late = keep(alloc, &mut tables, 1).is_some();
    drop(tables);
    came?;
    taken?;
    Some([early, late])
}

fn comes(alloc: Global, tables: &mut EndTables) -> Option<()> {
    act(tables, Effect::Delivered(delivery(alloc)?))
}

#[test]
fn one_is_kept_behind_those_that_were_taken_over(rt: HostRuntime) {
    assert_eq!(rt; kept_behind(rt.alloc()), Some([false, true]));
}

/// Submits two messages to the channel `c`, and one to be pushed. The first is tried.
fn wait_in_two(alloc: Global, tables: &mut EndTables) -> Option<()> {
    act(tables, Effect::Submitted(pulled(alloc, 0, 1)?))?;
    act(tables, Effect::Submitted(pulled(alloc, 1, 1)?))?;
    act(tables, Effect::Submitted(submission(alloc, 2, 1)?))?;
    tick(tables, 1000)?;
    act(tables, Effect::Tried { number: 0 })
}

/// The head after the receipt of this submission, if it is pending.
fn head_behind(tables: &EndTables, queue: &Queue, number: u64) -> Option<u64> {
    let receipt = Effect::Receipted { number };
    if tables.fits(&receipt) {
        drop(receipt);
        return tables.head_behind(queue, number);
    }
    drop(receipt);
    None
}

/// The heads of the channel after the receipts of the two that wait there and of the one to be pushed, and the head of
/// the push queue after its own receipt.
fn heads_behind(tables: &EndTables, channel: &Queue) -> [Option<u64>; 4] {
    [
        head_behind(tables, channel, 0),
        head_behind(tables, channel, 1),
        head_behind(tables, channel, 2),
        head_behind(tables, &Queue::Push, 2),
    ]
}

/// The same after a try of the first, and again once it is due.
fn heads_behind_receipts(alloc: Global) -> Option<[[Option<u64>; 4]; 2]> {
    let channel = Queue::Channel(text(alloc, b"c")?);
    let mut tables = EndTables::new(alloc);
    let made = wait_in_two(alloc, &mut tables);
    let before = heads_behind(&tables, &channel);
    let ticked = tick(&mut tables, 61_000);
    let after = heads_behind(&tables, &channel);
    drop(tables);
    drop(channel);
    made?;
    ticked?;
    Some([before, after])
}

#[test]
fn the_head_behind_a_receipt_is_of_the_others(rt: HostRuntime) {
    let wanted = [
        [Some(1), None, Some(1), None],
        [Some(1), Some(0), Some(1), None],
    ];
    assert_eq!(rt; heads_behind_receipts(rt.alloc()), Some(wanted));
}

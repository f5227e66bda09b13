//! Drawings of journals. Each effect is a record of its own.
ghost use Rattle.std.specs.Prelude.{◌≤◌};

use crate::documents::{count_the_last, has_all, is_svg};
use as4_draw::draw_journal;
use as4_effects::{Effect, Mark, Tick};
use as4_values::{Code, MAX_MOMENT, Seq};
use made_messages::{carried, delivery, kept, submission};
use std::alloc::Global;
use std::test::Fail;

/// The records of a leaf.
type Records = Vec<Option<Seq<Effect>>>;

/// Adds a record of this effect.
fn add(alloc: Global, records: &mut Records, effect: Effect) -> Option<()> {
    let effects = vec![in alloc; effect].ok()?;
    records.push(Some(Seq::of(effects))).ok()
}

fn tick(moment: u64) -> Option<Effect> {
    if moment > MAX_MOMENT {
        return None;
    }
    Some(Effect::Ticked(Tick { moment }))
}

/// What a compaction wrote: a submission and a message that was received.
fn add_start(alloc: Global, records: &mut Records) -> Option<()> {
    let submission = submission(alloc, 0, 3)?;
    let carried = carried(submission, 1, 1000, Mark::Pending)?;
    add(alloc, records, Effect::Carried(carried))?;
    add(alloc, records, Effect::Kept(kept(alloc, 7)?))
}

/// What is sent, and what comes back.
fn add_sending(alloc: Global, records: &mut Records) -> Option<()> {
    add(alloc, records, tick(1000)?)?;
    add(alloc, records, Effect::Submitted(submission(alloc, 1, 3)?))?;
    add(alloc, records, Effect::Tried { number: 1 })?;
    add(alloc, records, Effect::Receipted { number: 1 })
}

fn add_rest(alloc: Global, records: &mut Records) -> Option<()> {
    let code = Code::read(alloc, b"A<B").ok()?;
    add(alloc, records, Effect::Refused { number: 0, code })?;
    add(alloc, records, Effect::Delivered(delivery(alloc)?))?;
    add(alloc, records, Effect::Confirmed { upto: 1 })?;
    records.push(None).ok()
}

/// The drawing of these records, the first `start` of which are a compaction's.
fn drawn(alloc: Global, records: Records, start: usize) -> Option<Vec<u8>> {
    let drawing = draw_journal(alloc, records.as_slice(), start);
    drop(records);
    drawing.ok()
}

fn exchange(alloc: Global) -> Option<Vec<u8>> {
    let mut records = Vec::new(alloc);
    let added = add_start(alloc, &mut records)
        .and_then(|_| add_sending(alloc, &mut records))
        .and_then(|_| add_rest(alloc, &mut records));
    match added {
        Some(()) => drawn(alloc, records, 2),
        None => {
            drop(records);
            None
        }
    }
}

#[test]
fn each_effect_is_drawn(rt: HostRuntime) -> Result<(), Fail> {
    let drawing = exchange(rt.alloc()).ok_or("memory")?;
    assert!(rt; is_svg(drawing.as_slice()));
    let shown = has_all(
        drawing.as_slice(),
        &[
            ">compacted: 1 submissions, 1 received</text>\n",
            "<text class=\"moment\" x=\"10\" y=\"86\">1970-01-01T00:00:01.000Z</text>\n",
            "<line class=\"submit\" x1=\"210\" y1=\"120\" x2=\"630\" y2=\"120\"/>\n",
            ">submit 1 1.00000000-0000-0000-0000-000000000001@as4</text>\n",
            "<line class=\"user\" x1=\"630\" y1=\"150\" x2=\"1050\" y2=\"150\"/>\n",
            ">send 1</text>\n",
            "<line class=\"receipt\" x1=\"1050\" y1=\"180\" x2=\"630\" y2=\"180\"/>\n",
            ">receipt for 1</text>\n",
            ">error A&lt;B for 0</text>\n",
            ">message 0.00000000-0000-0000-0000-000000000001@as4, inbox 1</text>\n",
            ">confirm up to 1</text>\n",
            ">a record without effects</text>\n",
        ],
    );
    assert!(rt; shown);
    Ok(())
}

/// The drawing of this many ticks.
fn ticks(alloc: Global, count: u8) -> Option<Vec<u8>> {
    let mut records = Vec::new(alloc);
    for _ in 0..count {
        add(alloc, &mut records, tick(0)?)?;
    }
    drawn(alloc, records, 0)
}

#[test]
fn the_effect_after_the_last_that_is_drawn_is_counted(rt: HostRuntime) -> Result<(), Fail> {
    let all = ticks(rt.alloc(), 200).ok_or("memory")?;
    let one_more = ticks(rt.alloc(), 201).ok_or("memory")?;
    assert!(rt; count_the_last(all.as_slice(), one_more.as_slice()));
    Ok(())
}

//! The lines of an audit: one for each change that is no part of a compaction, and the answer.
ghost use Rattle.std.specs.Prelude.{◌≡◌, ◌++◌, ◌&&◌, [], List, Option, IfOk, OnOk, if◌then◌else◌, is_none, length, map, nat_lt};
ghost use Rattle.as4_audit.specs.Audit.{AllRead};
ghost use Rattle.as4_effects.specs.declared.effect.Effect.{Effect as EffectValue};
ghost use Rattle.auditor.specs.Lines.{IsTextFor, answer_line, changes_of, line_of, lines_before, lines_of, received_after, received_in, right_records};

use crate::pieces::{add_named, add_number};
use as4_audit::{Finding, record_of, records_of, stage_after, start_of};
use as4_draw::draw_journal;
use as4_effects::Effect;
use as4_values::{NoMemory, Seq};
use std::alloc::Global;

/// The text of an audit of the records with these bodies that found this. Only one record is decoded at a time.
pub(crate) fn text_of(
    alloc: Global,
    bodies: &[&[u8]],
    finding: Finding,
) -> Result<Vec<u8>, NoMemory>
    ensures { IfOk result (λ text. IsTextFor (map (λ body. body.now) bodies.now) finding text.items) }
{
    let mut text = Vec::new(alloc);
    add_records(alloc, &mut text, bodies, right_of(bodies.len(), finding))?;
    add_answer(&mut text, finding)?;
    Ok(text)
}

/// A drawing of the same records, which are all decoded first.
pub(crate) fn drawing_of(
    alloc: Global,
    bodies: &[&[u8]],
    finding: Finding,
) -> Result<Vec<u8>, NoMemory> {
    let records = records_of(alloc, bodies)?;
    let all = records.items();
    let right = right_of(all.len(), finding).min(all.len() as u64);
    let drawing = draw_journal(alloc, &all[..right as usize], start_of(all));
    drop(records);
    drawing
}

// The number of records, out of so many, before which an audit found nothing wrong.
fn right_of(count: usize, finding: Finding) -> u64
    ensures { (records : List (Option (List EffectValue))) → length records ≡ count → result ≡ right_records records finding }
{
    match finding {
        Finding::Yes { .. } => count as u64,
        Finding::No { index } => index,
    }
}

// Adds the line of the answer.
fn add_answer(out: &mut Vec<u8>, finding: Finding) -> Result<(), NoMemory>
    ensures { OnOk result (out.new.items ≡ out.old.items ++ answer_line finding) }
{
    match finding {
        Finding::Yes { events, .. } => add_number(out, b"yes ", events),
        Finding::No { index } => add_number(out, b"no ", index),
    }
}

// Adds the lines of the records before this place, after the start.
fn add_records(
    alloc: Global,
    out: &mut Vec<u8>,
    bodies: &[&[u8]],
    place: u64,
) -> Result<(), NoMemory>
    ensures { OnOk result ((records : List (Option (List EffectValue))) × AllRead (map (λ body. body.now) bodies.now) records
        × (out.new.items ≡ out.old.items ++ lines_before place records)) }
{
    let mut stage = Some(0);
    let mut received = 0;
    let mut index = 0;
    for body in bodies {
        let item = record_of(alloc, body)?;
        stage = stage_after(stage, &item);
        let after = add_record(out, received, &item, is_shown(stage, index, place));
        drop(item);
        received = after?;
        index += 1;
    }
    Ok(())
}

// Whether a record has lines: it is after the start, and before this place.
fn is_shown(stage: Option<u8>, index: u64, place: u64) -> bool
    ensures { result ≡ (is_none stage && nat_lt index place) }
{
    stage.is_none() && index < place
}

// Adds the lines of one record, if it is shown. Returns the number of received messages after it.
fn add_record(
    out: &mut Vec<u8>,
    received: u64,
    item: &Option<Seq<Effect>>,
    is_shown: bool,
) -> Result<u64, NoMemory>
    ensures text { OnOk result (out.new.items ≡ out.old.items ++ (if is_shown then lines_of received (changes_of item.now) else [])) }
    ensures count { IfOk result (λ n. n ≡ received_in received (changes_of item.now)) }
{
    let Some(effects) = item else {
        return Ok(received);
    };
    if is_shown {
        add_changes(out, received, effects.items())
    } else {
        count_changes(received, effects.items())
    }
}

// The number of received messages after changes.
fn count_changes(received: u64, effects: &[Effect]) -> Result<u64, NoMemory>
    ensures { IfOk result (λ n. n ≡ received_in received effects.now) }
{
    let mut received = received;
    for effect in effects {
        received = counted(received, effect)?;
    }
    Ok(received)
}

// Adds the lines of changes.
fn add_changes(out: &mut Vec<u8>, received: u64, effects: &[Effect]) -> Result<u64, NoMemory>
    ensures text { OnOk result (out.new.items ≡ out.old.items ++ lines_of received effects.now) }
    ensures count { IfOk result (λ n. n ≡ received_in received effects.now) }
{
    let mut received = received;
    for effect in effects {
        add_line(out, received, effect)?;
        received = counted(received, effect)?;
    }
    Ok(received)
}

// Adds the line of a change.
#[tactic(auto, unfolding(crate::specs::Lines::line_of))]
fn add_line(out: &mut Vec<u8>, received: u64, effect: &Effect) -> Result<(), NoMemory>
    ensures { OnOk result (out.new.items ≡ out.old.items ++ line_of received effect.now) }
{
    match effect {
        Effect::Submitted(s) => add_named(out, b"submitted ", s.number, s.header.id.bytes()),
        Effect::Ticked(tick) => add_number(out, b"ticked ", tick.moment),
        Effect::Tried { number } => add_number(out, b"tried ", *number),
        Effect::Delivered(d) => add_named(out, b"delivered ", received, d.header.id.bytes()),
        Effect::Receipted { number } => add_number(out, b"receipted ", *number),
        Effect::Refused { number, code } => add_named(out, b"refused ", *number, code.bytes()),
        Effect::Confirmed { upto } => add_number(out, b"confirmed ", *upto),
        Effect::Carried(_) | Effect::Kept(_) => Ok(()),
    }
}

#[tactic(auto, unfolding(crate::specs::Lines::received_after))]
// The number of received messages after a change. There is no memory for more of them than a u64 counts.
fn counted(received: u64, effect: &Effect) -> Result<u64, NoMemory>
    ensures { IfOk result (λ n. n ≡ received_after received effect.now) }
{
    match effect {
        Effect::Delivered(_) | Effect::Kept(_) => received.checked_add(1).ok_or(NoMemory),
        Effect::Submitted(_)
        | Effect::Ticked(_)
        | Effect::Tried { .. }
        | Effect::Receipted { .. }
        | Effect::Refused { .. }
        | Effect::Confirmed { .. }
        | Effect::Carried(_) => Ok(received),
    }
}

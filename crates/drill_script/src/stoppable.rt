//! A line that can be stopped, read from its bytes.
ghost use Rattle.std.specs.Prelude.{◌≡◌, Some, IfOk, IfSome, IsErr, IsTrue};
ghost use Rattle.drill_script.specs.LineText.{stoppable_text, is_stoppable};
ghost use Rattle.drill_script.specs.LineParts.{IsKept, SpellsRun};
ghost use Rattle.drill_script.specs.declared.line.Stoppable.{Stoppable};
ghost use Rattle.drill_script.specs.declared.verb.RunVerb.TheVariants as run;
ghost use Rattle.drill_script.specs.declared.verb.Verb.TheVariants.{Run};

use crate::line::Stoppable;
use crate::load::load_of;
use crate::verb::{RunVerb, read_run_verb};
use crate::words::{arrival_of, end_and, end_and_number, end_of, name_and, octets_of};
use as4_values::{MAX_MOMENT, NoMemory};
use byte_forms::cut_at;
use std::alloc::Global;

/// Reads a line that can be stopped.
pub(crate) fn stoppable_of(alloc: Global, bytes: &[u8]) -> Result<Option<Stoppable>, NoMemory>
    ensures found { IfOk result (λ read. IfSome read (λ line. (bytes.now ≡ stoppable_text line) × IsTrue (is_stoppable line))) }
    ensures only { (line : Stoppable) → bytes.now ≡ stoppable_text line → IsTrue (is_stoppable line)
        → IfOk result (λ read. read ≡ Some line) }
{
    let Some((word, tail)) = cut_at(b' ', bytes) else {
        return Ok(None);
    };
    let Some(verb) = read_run_verb(word) else {
        return Ok(None);
    };
    run_of(alloc, verb, tail)
}

/// Reads the rest after the first word of a line that can be stopped.
pub(crate) fn run_of(
    alloc: Global,
    verb: RunVerb,
    tail: &[u8],
) -> Result<Option<Stoppable>, NoMemory>
    ensures found { IfOk result (λ read. IfSome read (SpellsRun verb tail.now)) }
    ensures only { (line : Stoppable) → SpellsRun verb tail.now line → IfOk result (λ read. read ≡ Some line) }
    ensures lean { IsErr result → IsKept (Run verb) }
{
    match verb {
        RunVerb::Submit => submit_of(alloc, tail),
        RunVerb::Tick => Ok(tick_of(tail)),
        RunVerb::Take => Ok(take_of(tail)),
        RunVerb::Came => Ok(came_of(tail)),
        RunVerb::Confirm => Ok(confirm_of(tail)),
    }
}

// Reads a submission: its endpoint, its mode and its load.
fn submit_of(alloc: Global, tail: &[u8]) -> Result<Option<Stoppable>, NoMemory>
    ensures found { IfOk result (λ read. IfSome read (SpellsRun run.Submit tail.now)) }
    ensures only { (line : Stoppable) → SpellsRun run.Submit tail.now line → IfOk result (λ read. read ≡ Some line) }
{
    let Some((end, words)) = end_and(tail) else {
        return Ok(None);
    };
    let Some((mode, word)) = name_and(words) else {
        return Ok(None);
    };
    let Some(load) = load_of(alloc, word)? else {
        return Ok(None);
    };
    let mode = octets_of(alloc, mode)?;
    Ok(Some(Stoppable::Submit { end, mode, load }))
}

// Reads the endpoint whose clock is set, and the moment.
#[tactic(auto, using(crate::proofs::SpellLemmas::tick_spells))]
fn tick_of(tail: &[u8]) -> Option<Stoppable>
    ensures found { IfSome result (SpellsRun run.Tick tail.now) }
    ensures only { (line : Stoppable) → SpellsRun run.Tick tail.now line → result ≡ Some line }
{
    let (end, moment) = end_and_number(tail)?;
    if moment > MAX_MOMENT {
        return None;
    }
    Some(Stoppable::Tick { end, moment })
}

// Reads the endpoint that sends its next message.
#[tactic(auto, using(crate::proofs::SpellLemmas::take_spells))]
fn take_of(tail: &[u8]) -> Option<Stoppable>
    ensures found { IfSome result (SpellsRun run.Take tail.now) }
    ensures only { (line : Stoppable) → SpellsRun run.Take tail.now line → result ≡ Some line }
{
    let end = end_of(tail)?;
    Some(Stoppable::Take { end })
}

// Reads the endpoint at which a package arrives, the one that it comes from if that is named, and its number.
fn came_of(tail: &[u8]) -> Option<Stoppable>
    ensures found { IfSome result (SpellsRun run.Came tail.now) }
    ensures only { (line : Stoppable) → SpellsRun run.Came tail.now line → result ≡ Some line }
{
    let (end, from, package) = arrival_of(tail)?;
    Some(Stoppable::Came { end, from, package })
}

// Reads the endpoint that confirms messages, and the number of the last one.
#[tactic(auto, using(crate::proofs::SpellLemmas::confirm_spells))]
fn confirm_of(tail: &[u8]) -> Option<Stoppable>
    ensures found { IfSome result (SpellsRun run.Confirm tail.now) }
    ensures only { (line : Stoppable) → SpellsRun run.Confirm tail.now line → result ≡ Some line }
{
    let (end, number) = end_and_number(tail)?;
    Some(Stoppable::Confirm { end, number })
}

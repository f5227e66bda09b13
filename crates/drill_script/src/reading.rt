//! A line, read from its bytes.
//!
//!     a word, a space, and the rest: the word gives the kind of the line, and the kind says how the rest is read
ghost use Rattle.std.specs.Prelude.{◌≡◌, ℕ, ◌≤◌, List, Option, Some, IfOk, IfSome, IsErr, IsTrue};
ghost use Rattle.drill_script.specs.Lacking.{spaced};
ghost use Rattle.drill_script.specs.LineText.{end_text, line_text, is_line, is_name};
ghost use Rattle.drill_script.specs.LineParts.{BeginsKept, IsKept, Spells, settings_text, linked_text, counted_line};
ghost use Rattle.drill_script.specs.declared.line.Line.{Line};
ghost use Rattle.drill_script.specs.declared.line.LinkName.{LinkName};
ghost use Rattle.drill_script.specs.declared.line.Way.{Way};
ghost use Rattle.drill_script.specs.declared.verb.Verb.TheVariants as verb;

use crate::line::{EndName, Line, LinkName, Way};
use crate::stoppable::{run_of, stoppable_of};
use crate::verb::{Counted, RunVerb, Verb, read_verb};
use crate::words::{
    arrival_of, call_and, end_and, end_and_number, end_of, link_and, may_name, name_and,
    number_and, number_of, octets_of, pick_and, way_and,
};
use as4_values::{NoMemory, Octets};
use byte_forms::cut_at;
use std::alloc::Global;

/// The maximum number of retries of a message.
pub const MAX_RETRIES: u64 = 1_000;

const _: () = prove!(MAX_RETRIES == 1000);

/// The longest period between two tries, in milliseconds.
pub const MAX_PERIOD: u64 = 1_000_000_000;

const _: () = prove!(MAX_PERIOD == 1000000000);

/// Reads a line, which is given without the LF at its end.
pub fn line_of(alloc: Global, bytes: &[u8]) -> Result<Option<Line>, NoMemory>
    ensures found { IfOk result (λ read. IfSome read (λ line. (bytes.now ≡ line_text line) × IsTrue (is_line line))) }
    ensures only { (line : Line) → bytes.now ≡ line_text line → IsTrue (is_line line)
        → IfOk result (λ read. read ≡ Some line) }

    // Only lines with these first words allocate.
    ensures lean { IsErr result → BeginsKept bytes.now }
{
    let Some((word, tail)) = cut_at(b' ', bytes) else {
        return Ok(None);
    };
    let Some(verb) = read_verb(word) else {
        return Ok(None);
    };
    tail_of(alloc, verb, tail)
}

/// A text is that of at most one line.
pub fn one_line()
    ensures { (one other : Line) → IsTrue (is_line one) → IsTrue (is_line other) → line_text one ≡ line_text other → one ≡ other }
{}

// Reads the rest after the first word.
fn tail_of(alloc: Global, verb: Verb, tail: &[u8]) -> Result<Option<Line>, NoMemory>
    ensures found { IfOk result (λ read. IfSome read (Spells verb tail.now)) }
    ensures only { (line : Line) → Spells verb tail.now line → IfOk result (λ read. read ≡ Some line) }
    ensures lean { IsErr result → IsKept verb }
{
    match verb {
        Verb::Mode => mode_of(alloc, tail),
        Verb::Run(run) => run_line(alloc, run, tail),
        Verb::Ask => ask_of(alloc, tail),
        Verb::Relay => relay_of(alloc, tail),
        Verb::Pair => pair_of(alloc, tail),
        Verb::Lost => Ok(lost_of(tail)),
        Verb::Count(counted) => Ok(counted_of(counted, tail)),
        Verb::Crash => Ok(crash_of(tail)),
        Verb::Stop => stop_of(alloc, tail),
        Verb::Fold => Ok(fold_of(tail)),
    }
}

// Reads a mode: its name, its link if one is named, its way, retries and period.
fn mode_of(alloc: Global, tail: &[u8]) -> Result<Option<Line>, NoMemory>
    ensures found { IfOk result (λ read. IfSome read (Spells verb.Mode tail.now)) }
    ensures only { (line : Line) → Spells verb.Mode tail.now line → IfOk result (λ read. read ≡ Some line) }
{
    let Some((name, words)) = name_and(tail) else {
        return Ok(None);
    };
    let Some((link, (way, retries, period))) = linked_settings_of(words) else {
        return Ok(None);
    };
    let name = octets_of(alloc, name)?;
    Ok(Some(Line::Mode {
        name,
        link,
        way,
        retries,
        period,
    }))
}

// Reads a link if one is named, a way, a number of retries and a period.
fn linked_settings_of(words: &[u8]) -> Option<(Option<LinkName>, (Way, u32, u64))>
    ensures found { IfSome result (λ all. words.now ≡ linked_text all.0 (settings_text all.1.0 all.1.1 all.1.2)) }
    ensures range { IfSome result (λ all. (all.1.1 ≤ 1000) × (1 ≤ all.1.2) × (all.1.2 ≤ 1000000000)) }
    ensures only { (link : Option LinkName) (way : Way) (retries period : ℕ) → retries ≤ 1000 → 1 ≤ period → period ≤ 1000000000
        → words.now ≡ linked_text link (settings_text way retries period) → result ≡ Some (link, (way, retries, period)) }
{
    if let Some(settings) = settings_of(words) {
        return Some((None, settings));
    }
    let (link, words) = link_and(words)?;
    let settings = settings_of(words)?;
    Some((Some(link), settings))
}

// Reads a way, a number of retries and a period.
fn settings_of(words: &[u8]) -> Option<(Way, u32, u64)>
    ensures found { IfSome result (λ settings. words.now ≡ settings_text settings.0 settings.1 settings.2) }
    ensures range { IfSome result (λ settings. (settings.1 ≤ 1000) × (1 ≤ settings.2) × (settings.2 ≤ 1000000000)) }
    ensures only { (way : Way) (retries period : ℕ) → retries ≤ 1000 → 1 ≤ period → period ≤ 1000000000
        → words.now ≡ settings_text way retries period → result ≡ Some (way, retries, period) }
{
    let (way, words) = way_and(words)?;
    let (retries, word) = number_and(words)?;
    let period = number_of(word)?;
    if retries > MAX_RETRIES || period < 1 || period > MAX_PERIOD {
        return None;
    }
    Some((way, retries as u32, period))
}

// Reads a line that can be stopped, without a stop.
#[tactic(auto, using(crate::proofs::SpellLemmas::run_spells))]
fn run_line(alloc: Global, run: RunVerb, tail: &[u8]) -> Result<Option<Line>, NoMemory>
    ensures found { IfOk result (λ read. IfSome read (Spells (verb.Run run) tail.now)) }
    ensures only { (line : Line) → Spells (verb.Run run) tail.now line → IfOk result (λ read. read ≡ Some line) }
    ensures lean { IsErr result → IsKept (verb.Run run) }
{
    let Some(line) = run_of(alloc, run, tail)? else {
        return Ok(None);
    };
    Ok(Some(Line::Run(line)))
}

// Reads the endpoint that asks, and its mode.
fn ask_of(alloc: Global, tail: &[u8]) -> Result<Option<Line>, NoMemory>
    ensures found { IfOk result (λ read. IfSome read (Spells verb.Ask tail.now)) }
    ensures only { (line : Line) → Spells verb.Ask tail.now line → IfOk result (λ read. read ≡ Some line) }
{
    let Some((end, mode)) = end_and_mode(alloc, tail)? else {
        return Ok(None);
    };
    Ok(Some(Line::Ask { end, mode }))
}

// Reads the endpoint that relays, and its mode.
fn relay_of(alloc: Global, tail: &[u8]) -> Result<Option<Line>, NoMemory>
    ensures found { IfOk result (λ read. IfSome read (Spells verb.Relay tail.now)) }
    ensures only { (line : Line) → Spells verb.Relay tail.now line → IfOk result (λ read. read ≡ Some line) }
{
    let Some((end, mode)) = end_and_mode(alloc, tail)? else {
        return Ok(None);
    };
    Ok(Some(Line::Relay { end, mode }))
}

// Reads an endpoint and a mode.
fn end_and_mode(alloc: Global, tail: &[u8]) -> Result<Option<(EndName, Octets)>, NoMemory>
    ensures found { IfOk result (λ read. IfSome read
        (λ parts. (tail.now ≡ spaced (end_text parts.0) parts.1) × IsTrue (is_name parts.1))) }
    ensures only { (end : EndName) (mode : List ℕ) → IsTrue (is_name mode) → tail.now ≡ spaced (end_text end) mode
        → IfOk result (λ read. read ≡ Some (end, mode)) }
{
    let Some((end, word)) = end_and(tail) else {
        return Ok(None);
    };
    if !may_name(word) {
        return Ok(None);
    }
    let mode = octets_of(alloc, word)?;
    Ok(Some((end, mode)))
}

// Reads the endpoint that asks, its mode, and the number of the message to be receipted.
fn pair_of(alloc: Global, tail: &[u8]) -> Result<Option<Line>, NoMemory>
    ensures found { IfOk result (λ read. IfSome read (Spells verb.Pair tail.now)) }
    ensures only { (line : Line) → Spells verb.Pair tail.now line → IfOk result (λ read. read ≡ Some line) }
{
    let Some((end, words)) = end_and(tail) else {
        return Ok(None);
    };
    let Some((mode, word)) = name_and(words) else {
        return Ok(None);
    };
    let Some(number) = number_of(word) else {
        return Ok(None);
    };
    let mode = octets_of(alloc, mode)?;
    Ok(Some(Line::Pair { end, mode, number }))
}

// Reads the arrival of a package whose reply is lost.
fn lost_of(tail: &[u8]) -> Option<Line>
    ensures found { IfSome result (Spells verb.Lost tail.now) }
    ensures only { (line : Line) → Spells verb.Lost tail.now line → result ≡ Some line }
{
    let (end, from, package) = arrival_of(tail)?;
    Some(Line::Lost { end, from, package })
}

// Reads an endpoint and a number.
fn counted_of(counted: Counted, tail: &[u8]) -> Option<Line>
    ensures found { IfSome result (Spells (verb.Count counted) tail.now) }
    ensures only { (line : Line) → Spells (verb.Count counted) tail.now line → result ≡ Some line }
{
    let (end, number) = end_and_number(tail)?;
    Some(counted_line(counted, end, number))
}

// The line that names an endpoint and a number.
fn counted_line(counted: Counted, end: EndName, number: u64) -> Line
    ensures { result ≡ counted_line counted end number }
{
    match counted {
        Counted::Read => Line::Read { end, number },
        Counted::Status => Line::Status { end, number },
    }
}

// Reads the endpoint that loses power.
#[tactic(auto, using(crate::proofs::SpellLemmas::crash_spells))]
fn crash_of(tail: &[u8]) -> Option<Line>
    ensures found { IfSome result (Spells verb.Crash tail.now) }
    ensures only { (line : Line) → Spells verb.Crash tail.now line → result ≡ Some line }
{
    let end = end_of(tail)?;
    Some(Line::Crash { end })
}

// Reads a stop: the number of the device call, the pick, and the line.
fn stop_of(alloc: Global, tail: &[u8]) -> Result<Option<Line>, NoMemory>
    ensures found { IfOk result (λ read. IfSome read (Spells verb.Stop tail.now)) }
    ensures only { (line : Line) → Spells verb.Stop tail.now line → IfOk result (λ read. read ≡ Some line) }
{
    let Some((call, words)) = call_and(tail) else {
        return Ok(None);
    };
    let Some((pick, words)) = pick_and(words) else {
        return Ok(None);
    };
    let Some(line) = stoppable_of(alloc, words)? else {
        return Ok(None);
    };
    Ok(Some(Line::Stop { call, pick, line }))
}

// Reads the endpoint whose journal is compacted.
#[tactic(auto, using(crate::proofs::SpellLemmas::fold_spells))]
fn fold_of(tail: &[u8]) -> Option<Line>
    ensures found { IfSome result (Spells verb.Fold tail.now) }
    ensures only { (line : Line) → Spells verb.Fold tail.now line → result ≡ Some line }
{
    let end = end_of(tail)?;
    Some(Line::Fold { end })
}

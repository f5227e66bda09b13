//! The values of each command.
ghost use Rattle.std.specs.Prelude.{◌≡◌, ◌≤◌, ◌↔◌, ◌∷◌, [], ℕ, List, Bool, Option, None, Some, IfSome, IsSomeAnd, IsTrue, codes, length, map, option_map};
ghost use Rattle.std.specs.Fmt.{decimal};
ghost use Rattle.clap.specs.Matches.{found_of};
ghost use Rattle.clap.specs.Walk.{all_of, first_of, rows_of};
ghost use Rattle.as4_values.specs.Payload.{is_media_text};
ghost use Rattle.as4_tool.specs.Command.{Gives, IsCount, IsFlag, IsMode, IsKeep, IsService, IsWorkers, IsTurns, Task, is_drawn, has_hub, name_of, task_of};

use crate::command::{
    Collection, Command, DrillKind, Journal, MAX_COUNT, Relaying, Service, Submission, Suite,
};
use crate::numbers::{number_within, wide_number};
use crate::services::is_service;
use as4_values::{MAX_MOMENT, is_media_text};
use clap::ArgMatches;

/// The most turns of a worker, and the greatest number of an entry: 2^63.
const MOST: u64 = 9_223_372_036_854_775_808;

const _: () = prove!(MOST == 9223372036854775808);

/// The most requests of one connection.
const MOST_KEPT: u64 = 1_000;

const _: () = prove!(MOST_KEPT == 1000);

/// The most messages of one relaying.
const MOST_RELAYED: u64 = 1_048_576;

const _: () = prove!(MOST_RELAYED == 1048576);

/// Reads the values of `answer`.
pub(crate) fn answer_of<'a>(found: &ArgMatches<'a>) -> Option<Command<'a>>
    ensures found { IfSome result (λ c. (name_of (task_of c) ≡ codes "answer") × Gives (rows_of (found_of found.now)) (task_of c)) }
    ensures only { (stamp nonce : ℕ) → Gives (rows_of (found_of found.now)) (Task.answer stamp nonce)
        → option_map task_of result ≡ Some (Task.answer stamp nonce) }
{
    let stamp = number_within(text_in(found, "STAMP")?, MAX_MOMENT)?;
    let nonce = wide_number(text_in(found, "NONCE")?)?;
    Some(Command::Answer { stamp, nonce })
}

/// Reads the values of `drill`.
pub(crate) fn drill_of<'a>(found: &ArgMatches<'a>) -> Option<Command<'a>>
    ensures found { IfSome result (λ c. (name_of (task_of c) ≡ codes "drill") × Gives (rows_of (found_of found.now)) (task_of c)) }
    ensures script { (kind : DrillKind) → Gives (rows_of (found_of found.now)) (Task.drill kind)
        → option_map task_of result ≡ Some (Task.drill kind) }
    ensures only { (seed count : ℕ) → Gives (rows_of (found_of found.now)) (Task.generate seed count)
        → option_map task_of result ≡ Some (Task.generate seed count) }
{
    let drawn = flag_in(found, "draw")?;
    let hub = flag_in(found, "hub")?;
    match texts_in(found, "generate") {
        None => Some(Command::Drill(kind_of(drawn, hub)?)),
        Some(_) if drawn || hub => None,
        Some(values) => {
            let (seed, count) = two_of(values)?;
            let seed = number_within(seed, u64::MAX)?;
            let count = number_within(count, MAX_COUNT)?;
            Some(Command::Generate { seed, count })
        }
    }
}

// What is done with a script that has these flags.
fn kind_of(drawn: bool, hub: bool) -> Option<DrillKind>
    ensures found { IfSome result (λ k. (is_drawn k ≡ drawn) × (has_hub k ≡ hub)) }
    ensures only { (kind : DrillKind) → is_drawn kind ≡ drawn → has_hub kind ≡ hub → result ≡ Some kind }
{
    match (drawn, hub) {
        (false, false) => Some(DrillKind::Pair),
        (true, false) => Some(DrillKind::Drawing),
        (false, true) => Some(DrillKind::Hub),
        (true, true) => None,
    }
}

/// Reads the values of `handler`.
pub(crate) fn handler_of<'a>(found: &ArgMatches<'a>) -> Option<Command<'a>>
    ensures found { IfSome result (λ c. (name_of (task_of c) ≡ codes "handler") × Gives (rows_of (found_of found.now)) (task_of c)) }
    ensures only { (modes journal peer local : List ℕ) (workers turns keep : ℕ)
        → Gives (rows_of (found_of found.now)) (Task.handler modes journal peer local workers turns keep)
        → option_map task_of result ≡ Some (Task.handler modes journal peer local workers turns keep) }
{
    let modes = text_in(found, "MODES")?;
    let journal = text_in(found, "JOURNAL")?;
    let peer = service_in(found, "PEER")?;
    let local = service_in(found, "LOCAL")?;
    let workers = workers_of(text_in(found, "workers"))?;
    let turns = turns_of(text_in(found, "turns"))?;
    let keep = keep_of(text_in(found, "keep"))?;
    Some(Command::Handler(Service {
        modes,
        journal,
        peer,
        local,
        workers,
        turns,
        keep,
    }))
}

// The number of workers, 4 if none is given.
fn workers_of(text: Option<&str>) -> Option<u64>
    ensures found { IfSome result (IsWorkers (option_map (λ s. s.now) text.entry)) }
    ensures only { (n : ℕ) → IsWorkers (option_map (λ s. s.now) text.entry) n → result ≡ Some n }
{
    let Some(text) = text else {
        return Some(4);
    };
    let workers = number_within(text, 11)?;
    if workers == 0 {
        return None;
    }
    Some(workers)
}

// The turns of each worker, 2^63 if none are given.
fn turns_of(text: Option<&str>) -> Option<u64>
    ensures found { IfSome result (IsTurns (option_map (λ s. s.now) text.entry)) }
    ensures only { (n : ℕ) → IsTurns (option_map (λ s. s.now) text.entry) n → result ≡ Some n }
{
    match text {
        Some(text) => number_within(text, MOST),
        None => Some(MOST),
    }
}

// The most requests of a connection, 1 if no number is given.
fn keep_of(text: Option<&str>) -> Option<u64>
    ensures found { IfSome result (IsKeep (option_map (λ s. s.now) text.entry)) }
    ensures only { (n : ℕ) → IsKeep (option_map (λ s. s.now) text.entry) n → result ≡ Some n }
{
    let Some(text) = text else {
        return Some(1);
    };
    let keep = number_within(text, MOST_KEPT)?;
    if keep == 0 {
        return None;
    }
    Some(keep)
}

/// Reads the values of `submit`.
pub(crate) fn submit_of<'a>(found: &ArgMatches<'a>) -> Option<Command<'a>>
    ensures found { IfSome result (λ c. (name_of (task_of c) ≡ codes "submit") × Gives (rows_of (found_of found.now)) (task_of c)) }
    ensures only { (local mode conversation media : List ℕ) → Gives (rows_of (found_of found.now)) (Task.submit local mode conversation media)
        → option_map task_of result ≡ Some (Task.submit local mode conversation media) }
{
    let local = service_in(found, "LOCAL")?;
    let mode = mode_in(found)?;
    let conversation = conversation_in(found)?;
    let media = media_in(found)?;
    Some(Command::Submit(Submission {
        local,
        mode,
        conversation,
        media,
    }))
}

fn mode_in<'a>(found: &ArgMatches<'a>) -> Option<&'a str>
    ensures found { IfSome result (λ s. (first_of (codes "MODE") (rows_of (found_of found.now)) ≡ Some s.now) × IsMode s.now) }
    ensures only { (mode : List ℕ) → first_of (codes "MODE") (rows_of (found_of found.now)) ≡ Some mode → IsMode mode
        → option_map (λ s. s.now) result ≡ Some mode }
{
    let mode = text_in(found, "MODE")?;
    if mode.is_empty() || mode.len() > 255 {
        return None;
    }
    Some(mode)
}

fn conversation_in<'a>(found: &ArgMatches<'a>) -> Option<&'a str>
    ensures found { IfSome result (λ s. (first_of (codes "CONVERSATION") (rows_of (found_of found.now)) ≡ Some s.now) × (length s.now ≤ 255)) }
    ensures only { (text : List ℕ) → first_of (codes "CONVERSATION") (rows_of (found_of found.now)) ≡ Some text → length text ≤ 255
        → option_map (λ s. s.now) result ≡ Some text }
{
    let conversation = text_in(found, "CONVERSATION")?;
    if conversation.len() > 255 {
        return None;
    }
    Some(conversation)
}

fn media_in<'a>(found: &ArgMatches<'a>) -> Option<&'a str>
    ensures found { IfSome result (λ s. (first_of (codes "MEDIA") (rows_of (found_of found.now)) ≡ Some s.now) × IsTrue (is_media_text s.now)) }
    ensures only { (text : List ℕ) → first_of (codes "MEDIA") (rows_of (found_of found.now)) ≡ Some text → IsTrue (is_media_text text)
        → option_map (λ s. s.now) result ≡ Some text }
{
    let media = text_in(found, "MEDIA")?;
    if !is_media_text(media.as_bytes()) {
        return None;
    }
    Some(media)
}

/// Reads the values of `collect`.
pub(crate) fn collect_of<'a>(found: &ArgMatches<'a>) -> Option<Command<'a>>
    ensures found { IfSome result (λ c. (name_of (task_of c) ≡ codes "collect") × Gives (rows_of (found_of found.now)) (task_of c)) }
    ensures only { (local : List ℕ) (first count : ℕ) (folder : List ℕ) → Gives (rows_of (found_of found.now)) (Task.collect local first count folder)
        → option_map task_of result ≡ Some (Task.collect local first count folder) }
{
    let local = service_in(found, "LOCAL")?;
    let first = count_in(found, "FIRST")?;
    let count = count_in(found, "COUNT")?;
    let folder = text_in(found, "FOLDER")?;
    Some(Command::Collect(Collection {
        local,
        first,
        count,
        folder,
    }))
}

/// Reads the values of `audit`.
pub(crate) fn audit_of<'a>(found: &ArgMatches<'a>) -> Option<Command<'a>>
    ensures found { IfSome result (λ c. (name_of (task_of c) ≡ codes "audit") × Gives (rows_of (found_of found.now)) (task_of c)) }
    ensures only { (modes journal : List ℕ) (draws : Bool) → Gives (rows_of (found_of found.now)) (Task.audit modes journal draws)
        → option_map task_of result ≡ Some (Task.audit modes journal draws) }
{
    let of = journal_in(found)?;
    let draws = flag_in(found, "draw")?;
    Some(Command::Audit { of, draws })
}

/// Reads the values of `relay`.
pub(crate) fn relay_of<'a>(found: &ArgMatches<'a>) -> Option<Command<'a>>
    ensures found { IfSome result (λ c. (name_of (task_of c) ≡ codes "relay") × Gives (rows_of (found_of found.now)) (task_of c)) }
    ensures only { (modes journal mode : List ℕ) (count : ℕ) → Gives (rows_of (found_of found.now)) (Task.relay modes journal mode count)
        → option_map task_of result ≡ Some (Task.relay modes journal mode count) }
{
    let from = journal_in(found)?;
    let mode = mode_in(found)?;
    let count = number_within(text_in(found, "COUNT")?, MOST_RELAYED)?;
    Some(Command::Relay(Relaying { from, mode, count }))
}

/// Reads the values of `suite`.
pub(crate) fn suite_of<'a>(found: &ArgMatches<'a>) -> Option<Command<'a>>
    ensures found { IfSome result (λ c. (name_of (task_of c) ≡ codes "suite") × Gives (rows_of (found_of found.now)) (task_of c)) }
    ensures only { (what : Suite) → Gives (rows_of (found_of found.now)) (Task.suite what) → option_map task_of result ≡ Some (Task.suite what) }
{
    let verifies = flag_in(found, "verify")?;
    let lists = flag_in(found, "list")?;
    match (verifies, lists) {
        (false, false) => Some(Command::Suite(Suite::Check)),
        (true, false) => Some(Command::Suite(Suite::Verify)),
        (false, true) => Some(Command::Suite(Suite::List)),
        (true, true) => None,
    }
}

// A modes file and a journal.
fn journal_in<'a>(found: &ArgMatches<'a>) -> Option<Journal<'a>>
    ensures found { IfSome result (λ j. (first_of (codes "MODES") (rows_of (found_of found.now)) ≡ Some j.modes.now)
        × (first_of (codes "JOURNAL") (rows_of (found_of found.now)) ≡ Some j.journal.now)) }
    ensures only { (modes journal : List ℕ) → first_of (codes "MODES") (rows_of (found_of found.now)) ≡ Some modes
        → first_of (codes "JOURNAL") (rows_of (found_of found.now)) ≡ Some journal
        → IsSomeAnd result (λ j. (j.modes.now ≡ modes) × (j.journal.now ≡ journal)) }
{
    let modes = text_in(found, "MODES")?;
    let journal = text_in(found, "JOURNAL")?;
    Some(Journal { modes, journal })
}

// The number of this name, at most 2^63.
fn count_in<'a>(found: &ArgMatches<'a>, name: &str) -> Option<u64>
    ensures found { IfSome result (λ n. (first_of name.now (rows_of (found_of found.now)) ≡ Some (decimal n)) × IsCount n) }
    ensures only { (n : ℕ) → first_of name.now (rows_of (found_of found.now)) ≡ Some (decimal n) → IsCount n → result ≡ Some n }
{
    number_within(text_in(found, name)?, MOST)
}

// The address of a service of this name.
fn service_in<'a>(found: &ArgMatches<'a>, name: &str) -> Option<&'a str>
    ensures found { IfSome result (λ s. (first_of name.now (rows_of (found_of found.now)) ≡ Some s.now) × IsService s.now) }
    ensures only { (address : List ℕ) → first_of name.now (rows_of (found_of found.now)) ≡ Some address → IsService address
        → option_map (λ s. s.now) result ≡ Some address }
{
    let address = text_in(found, name)?;
    if !is_service(address) {
        return None;
    }
    Some(address)
}

// Whether the flag of this name is given.
fn flag_in<'a>(found: &ArgMatches<'a>, name: &str) -> Option<bool>
    ensures found { IfSome result (λ b. IsFlag (rows_of (found_of found.now)) name.now b) }
    ensures only { (b : Bool) → IsFlag (rows_of (found_of found.now)) name.now b → result ≡ Some b }
{
    match text_in(found, name)? {
        "true" => Some(true),
        "false" => Some(false),
        _ => None,
    }
}

// The first value of this name.
fn text_in<'a>(found: &ArgMatches<'a>, name: &str) -> Option<&'a str>
    ensures { option_map (λ s. s.now) result ≡ first_of name.now (rows_of (found_of found.now)) }
{
    found.get_str(name)
}

// The values of this name.
fn texts_in<'a, 'b>(found: &'b ArgMatches<'a>, name: &str) -> Option<&'b [&'a str]>
    ensures { option_map (λ s. map (λ v. v.now) s.now) result ≡ all_of name.now (rows_of (found_of found.now)) }
{
    found.get_strs(name)
}

// Two values.
fn two_of<'a>(values: &[&'a str]) -> Option<(&'a str, &'a str)>
    ensures found { IfSome result (λ p. map (λ v. v.now) values.now ≡ p.0.now ∷ p.1.now ∷ []) }
    ensures only { (one other : List ℕ) → map (λ v. v.now) values.now ≡ one ∷ other ∷ []
        → IsSomeAnd result (λ p. (p.0.now ≡ one) × (p.1.now ≡ other)) }
{
    match values {
        [one, other] => Some((*one, *other)),
        _ => None,
    }
}

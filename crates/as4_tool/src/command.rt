//! The commands of the program, and the words that spell them.
//!
//!     --help                                      shows the words
//!     --version                                   shows the version
//!     answer STAMP NONCE                          reads a request and writes the answer
//!     check                                       reads a message and writes a line that says what it is
//!     drill [--draw | --hub]                      runs a script of two endpoints, and writes a line for each reply, or
//!                                                 a drawing; or runs a script of a chain
//!     drill --generate SEED COUNT                 runs a generated script, and writes the totals of both endpoints
//!     handler MODES JOURNAL PEER LOCAL            serves two addresses over a journal
//!         [--workers N] [--turns T] [--keep L]
//!     submit LOCAL MODE CONVERSATION MEDIA        submits the input to a handler, and writes its response
//!     collect LOCAL FIRST COUNT FOLDER            writes what a handler has received to files
//!     audit MODES JOURNAL [--draw]                checks a journal, and writes a line for each change, or a drawing
//!     relay MODES JOURNAL MODE COUNT              submits what a journal has received onwards
//!     suite [--verify | --list]                   writes the check lines of the conformance suite, or holds the program
//!                                                 against it, or writes its messages out

ghost use Rattle.std.specs.Prelude.{◌≡◌, ℕ, List, All, Err, Some, IfOk, IfSome, MatchResult, map, option_map};
ghost use Rattle.std.specs.Str.{IsUtf8};
ghost use Rattle.clap.specs.Matches.{found_of};
ghost use Rattle.clap.specs.Simple.{subcommand_rows_of};
ghost use Rattle.clap.specs.Walk.{Row, rows_of};

use crate::parser::parser;
use crate::values::{
    answer_of, audit_of, collect_of, drill_of, handler_of, relay_of, submit_of, suite_of,
};
use as4_values::{Octets, Seq};
use clap::ArgMatches;
use clap::error::ErrorKind;
use std::alloc::Global;
use std::str;

/// The maximum number of messages of a generated script.
pub const MAX_COUNT: u64 = 1_000;

const _: () = prove!(MAX_COUNT == 1000);

/// The command that the words spell.
#[derive(Clone, Copy, Debug, PartialEq, Eq)]
pub enum Command<'a> {
    Help,
    Version,
    Answer {
        /// The moment of the answer, in milliseconds since 1970-01-01T00:00:00Z.
        stamp: u64,
        /// Makes the answer's identifiers unique.
        nonce: u128,
    },
    Check,
    Drill(DrillKind),
    Generate {
        /// Determines the sizes of the messages.
        seed: u64,
        /// The number of messages to submit, at most 1,000.
        count: u64,
    },
    Handler(Service<'a>),
    Submit(Submission<'a>),
    Collect(Collection<'a>),
    Audit {
        of: Journal<'a>,
        /// Whether the journal is drawn.
        draws: bool,
    },
    Relay(Relaying<'a>),
    Suite(Suite),
}

/// What a handler serves.
#[derive(Clone, Copy, Debug, PartialEq, Eq)]
pub struct Service<'a> {
    /// The file of the modes.
    pub modes: &'a str,
    /// The path of the journal, without the ends of its three files.
    pub journal: &'a str,
    /// The address for other handlers.
    pub peer: &'a str,
    /// The address for programs of one's own.
    pub local: &'a str,
    /// The number of workers at the address for other handlers, 1 to 11.
    pub workers: u64,
    /// The turns of each worker, at most 2^63.
    pub turns: u64,
    /// The most requests of one connection that are answered, 1 to 1,000.
    pub keep: u64,
}

/// What is submitted, and to whom.
#[derive(Clone, Copy, Debug, PartialEq, Eq)]
pub struct Submission<'a> {
    /// The address of the handler's local service.
    pub local: &'a str,
    /// The mode, of 1 to 255 bytes.
    pub mode: &'a str,
    /// The conversation, of at most 255 bytes. Empty for none.
    pub conversation: &'a str,
    /// The media text of the document.
    pub media: &'a str,
}

/// What is collected, and from whom.
#[derive(Clone, Copy, Debug, PartialEq, Eq)]
pub struct Collection<'a> {
    /// The address of the handler's local service.
    pub local: &'a str,
    /// The number of the first entry, at most 2^63.
    pub first: u64,
    /// The most entries to collect, at most 2^63.
    pub count: u64,
    /// The folder of the files.
    pub folder: &'a str,
}

/// A journal, and the modes of its endpoint.
#[derive(Clone, Copy, Debug, PartialEq, Eq)]
pub struct Journal<'a> {
    /// The file of the modes.
    pub modes: &'a str,
    /// The path of the journal, without the ends of its three files.
    pub journal: &'a str,
}

/// What is relayed, and how.
#[derive(Clone, Copy, Debug, PartialEq, Eq)]
pub struct Relaying<'a> {
    pub from: Journal<'a>,
    /// The mode to submit by, of 1 to 255 bytes.
    pub mode: &'a str,
    /// The most messages to relay, at most 1,048,576.
    pub count: u64,
}

/// What is done with a script.
#[derive(Clone, Copy, Debug, PartialEq, Eq)]
pub enum DrillKind {
    /// It is run on a pair of endpoints, and a line is written for each reply.
    Pair,
    /// The same, and what it leads to is drawn.
    Drawing,
    /// It is run on a chain of three endpoints, the second of which relays.
    Hub,
}

/// What is done with the conformance suite.
#[derive(Clone, Copy, Debug, PartialEq, Eq)]
pub enum Suite {
    /// The check line of each message is written.
    Check,
    /// Each row is held against what is wanted.
    Verify,
    /// The messages are written out with their check lines.
    List,
}

/// Why words aren't a command.
#[derive(Clone, Copy, Debug, PartialEq, Eq)]
pub enum WordsRefusal {
    /// They spell none.
    BadWords,
    /// Memory ran out.
    NoMemory,
}

ghost use Rattle.as4_tool.specs.Command.{Asks, Gives, IsWithin, Spells, Task, name_of, task_of};

/// The words as texts.
pub fn texts_of<'a>(alloc: Global, words: &'a Seq<Octets>) -> Result<Vec<&'a str>, WordsRefusal>
    ensures ok { IfOk result (λ texts. (map (λ t. t.now) texts.items ≡ words.now) × All IsUtf8 words.now) }
    ensures bad { result ≡ Err WordsRefusal.BadWords → ¬ All IsUtf8 words.now }
{
    let mut texts = Vec::new(alloc);
    for word in words.items() {
        let Ok(text) = str::from_utf8(word.bytes()) else {
            return Err(WordsRefusal::BadWords);
        };
        if texts.push(text).is_err() {
            return Err(WordsRefusal::NoMemory);
        }
    }
    Ok(texts)
}

/// Reads the words after the program's name.
pub fn command_of<'a>(alloc: Global, words: &'a [&'a str]) -> Result<Command<'a>, WordsRefusal>
    ensures found { IfOk result (λ c. Spells (map (λ w. w.now) words.entry.now) (task_of c)) }
    ensures within { IfOk result (λ c. IsWithin (task_of c)) }
    ensures only { (task : Task) → Spells (map (λ w. w.now) words.entry.now) task
        → MatchResult result (λ c. task_of c ≡ task) (λ e. e ≡ WordsRefusal.NoMemory) }
{
    let Ok(parser) = parser(alloc) else {
        return Err(WordsRefusal::NoMemory);
    };
    match parser.try_get_matches_from(words) {
        Ok(matches) => {
            let command = chosen(&matches);
            drop(matches);
            match command {
                Some(command) => Ok(command),
                None => Err(WordsRefusal::BadWords),
            }
        }
        Err(error) => {
            let kind = error.kind();
            drop(error);
            asked_by(kind)
        }
    }
}

// What words ask for that no command takes.
fn asked_by<'a>(kind: ErrorKind) -> Result<Command<'a>, WordsRefusal>
    ensures found { IfOk result (λ c. Asks kind (task_of c)) }
    ensures only { (task : Task) → Asks kind task → MatchResult result (λ c. task_of c ≡ task) (λ e. e ≡ WordsRefusal.NoMemory) }
    ensures memory { kind ≡ ErrorKind.OutOfMemory → result ≡ Err WordsRefusal.NoMemory }
{
    match kind {
        ErrorKind::DisplayHelp => Ok(Command::Help),
        ErrorKind::DisplayVersion => Ok(Command::Version),
        ErrorKind::OutOfMemory => Err(WordsRefusal::NoMemory),
        _ => Err(WordsRefusal::BadWords),
    }
}

// The command with these matches.
fn chosen<'a>(matches: &ArgMatches<'a>) -> Option<Command<'a>>
    ensures found { IfSome result (λ c. (rows : List Row) × (subcommand_rows_of matches.now ≡ Some (name_of (task_of c), rows))
        × Gives rows (task_of c)) }
    ensures only { (task : Task) (rows : List Row) → subcommand_rows_of matches.now ≡ Some (name_of task, rows) → Gives rows task
        → option_map task_of result ≡ Some task }
{
    let (name, found) = matches.subcommand()?;
    named(name, found)
}

// The command of this name, with these values.
fn named<'a>(name: &str, found: &ArgMatches<'a>) -> Option<Command<'a>>
    ensures found { IfSome result (λ c. (name_of (task_of c) ≡ name.now) × Gives (rows_of (found_of found.now)) (task_of c)) }
    ensures only { (task : Task) → name_of task ≡ name.now → Gives (rows_of (found_of found.now)) task
        → option_map task_of result ≡ Some task }
{
    match name {
        "answer" => answer_of(found),
        "check" => Some(Command::Check),
        "drill" => drill_of(found),
        "handler" => handler_of(found),
        "submit" => submit_of(found),
        "collect" => collect_of(found),
        "audit" => audit_of(found),
        "relay" => relay_of(found),
        "suite" => suite_of(found),
        _ => None,
    }
}

/// Words spell at most one task.
pub fn one_spelling()
    ensures { (words : List (List ℕ)) (one other : Task) → Spells words one → Spells words other → one ≡ other }
{}

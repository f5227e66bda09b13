//! A run of the program: it takes words and an input, and produces the output, the errors and the exit status.
//!
//!     --help, --version                       a text                                       0, 4
//!     answer STAMP NONCE                      the answer to the input                      0, 3, 4, 5, 7, 11
//!     check                                   the check line of the input                  0, 1, 3, 4, 5, 11
//!     drill, drill --hub                      the lines for the script's replies           0, 2, 3, 4, 5, 6
//!     drill --draw                            a drawing of the script's drill              0, 2, 3, 4, 5, 6, 11
//!     drill --generate SEED COUNT             the totals of a generated script             0, 4, 5
//!     submit LOCAL MODE CONVERSATION MEDIA    the handler's response to the input          0, 1, 3, 4, 5, 9, 11, 12
//!     collect LOCAL FIRST COUNT FOLDER        a line for each document that is collected   0, 1, 3, 4, 5, 9, 12
//!     audit MODES JOURNAL [--draw]            a line for each change, and the answer       0, 1, 4, 5, 8, 9, 10, 11
//!     relay MODES JOURNAL MODE COUNT          a line for each message that is relayed      0, 4, 5, 8, 9, 10, 14
//!     suite, suite --list                     the check lines of the suite, its messages   0, 4, 5
//!     suite --verify                          for each row whether it is as wanted         0, 1, 4, 5
//!     other words                                                                          5, 64
ghost use Rattle.std.specs.Prelude.{◌≡◌, ◌≢◌, ◌⊎◌, ◌≤◌, All, IfNone, IfSome, ℕ, Option, List};
ghost use Rattle.std.specs.Str.{IsUtf8};
ghost use Rattle.as4_tool.specs.Command.{AsksForText, IsAlone, IsWithin, SpellAlone, Spells, Task, task_of};
ghost use Rattle.as4_tool.specs.Runs.{Does, Obeys, Runs, RunsOver, wrote};
ghost use Rattle.as4_tool.specs.Status.{Tells, code_of, line_of, status_of_words};

use crate::answering::answer;
use crate::auditing::audit;
use crate::checking::check;
use crate::collecting::collect;
use crate::command::{Command, WordsRefusal, command_of, texts_of};
use crate::drilling::{generate, play};
use crate::relaying::relay;
use crate::status::Status;
use crate::submitting::submit;
use crate::suites::suite;
use crate::texts::{HELP, VERSION};
use crate::writing::write;
use as4_flow::{Sink, Source};
use as4_host::Host;
use as4_values::{Octets, Seq};
use std::alloc::Global;

/// Runs each command but `handler`, and returns the exit status. The words are those after the program's name.
pub fn run_alone<I: Source, O: Sink, E: Sink, H: Host>(
    alloc: Global,
    words: &Seq<Octets>,
    input: &mut I,
    output: &mut O,
    errors: &mut E,
    host: &mut H,
) -> u8
    // Whether the words spell a command.
    ensures bad_words { result ≡ code_of Status.BadWords → ¬ SpellAlone words.now }
    ensures command { result ≢ code_of Status.BadWords → SpellAlone words.now ⊎ (result ≡ code_of Status.NoMemory) }

    // A request for the help or the version needs no memory.
    ensures shows { AsksForText words.now → result ≢ code_of Status.NoMemory }

    // The exit status is that of some end, the errors get the line of that end, and the run of the words has that end.
    ensures ends { (status : Status) × (result ≡ code_of status)
        × Tells (line_of status) (E.taken errors.old) (E.taken errors.new) (E.faults errors.old) (E.faults errors.new)
        × Obeys I.Source O.Sink H.Host H.Dialer.Link H.Store.Disk H.Time.Clock H.Dice.Nonces words.now status input.old input.new output.old output.new host.old host.new }
    ensures counted { E.faults errors.old ≤ E.faults errors.new }
{
    let status = read_and_obey(alloc, words, input, output, host);
    status.tell(errors);
    status.code()
}

// Reads the words, and executes their command.
fn read_and_obey<I: Source, O: Sink, H: Host>(
    alloc: Global,
    words: &Seq<Octets>,
    input: &mut I,
    output: &mut O,
    host: &mut H,
) -> Status
    ensures bad_words { code_of result ≡ code_of Status.BadWords → ¬ SpellAlone words.now }
    ensures command { code_of result ≢ code_of Status.BadWords → SpellAlone words.now ⊎ (code_of result ≡ code_of Status.NoMemory) }
    ensures shows { AsksForText words.now → code_of result ≢ code_of Status.NoMemory }
    ensures obeys { Obeys I.Source O.Sink H.Host H.Dialer.Link H.Store.Disk H.Time.Clock H.Dice.Nonces words.now result input.old input.new output.old output.new host.old host.new }
{
    if let Some(command) = text_asked(words) {
        return obey(alloc, command, input, output, host);
    }
    let texts = match texts_of(alloc, words) {
        Ok(texts) => texts,
        Err(refusal) => return refused(refusal),
    };
    match command_of(alloc, &texts) {
        Ok(command) => obey(alloc, command, input, output, host),
        Err(refusal) => refused(refusal),
    }
}

/// The command of the one word `--help` or `--version`.
pub(crate) fn text_asked(words: &Seq<Octets>) -> Option<Command<'static>>
    ensures found { IfSome result (λ c. All IsUtf8 words.now × Spells words.now (task_of c) × IsAlone (task_of c) × IsWithin (task_of c)) }
    ensures shown { IfSome result (λ c. (task_of c ≡ Task.help) ⊎ (task_of c ≡ Task.version)) }
    ensures none { IfNone result (¬ AsksForText words.now) }
{
    let [word] = words.items() else {
        return None;
    };
    if word.bytes() == b"--help".as_slice() {
        return Some(Command::Help);
    }
    if word.bytes() == b"--version".as_slice() {
        return Some(Command::Version);
    }
    None
}

/// The end of words that no command was read from.
pub(crate) fn refused(refusal: WordsRefusal) -> Status
    ensures { result ≡ status_of_words refusal }
{
    match refusal {
        WordsRefusal::BadWords => Status::BadWords,
        WordsRefusal::NoMemory => Status::NoMemory,
    }
}

/// Executes a command. `handler` isn't done here.
pub(crate) fn obey<I: Source, O: Sink, H: Host>(
    alloc: Global,
    command: Command<'_>,
    input: &mut I,
    output: &mut O,
    host: &mut H,
) -> Status
    requires { IsWithin (task_of command) }
    ensures runs { Runs I.Source O.Sink H.Host H.Dialer.Link H.Store.Disk H.Time.Clock H.Dice.Nonces (task_of command.entry) result input.old input.new output.old output.new host.old host.new }
    ensures alone { code_of result ≡ code_of Status.BadWords → ¬ IsAlone (task_of command.entry) }
    ensures right { code_of result ≢ code_of Status.BadWords → IsAlone (task_of command.entry) }
{
    match command {
        Command::Help => help(output),
        Command::Version => version(output),
        Command::Answer { stamp, nonce } => answer(alloc, stamp, nonce, input, output),
        Command::Check => check(alloc, input, output),
        Command::Drill(kind) => play(alloc, kind, input, output),
        Command::Generate { seed, count } => generate(alloc, seed, count, output),
        Command::Handler(_) => Status::BadWords,
        Command::Submit(to) => submit(alloc, to, input, output, host),
        Command::Collect(from) => collect(alloc, from, output, host),
        Command::Audit { of, draws } => audit(alloc, of, draws, output, host),
        Command::Relay(by) => relay(alloc, by, output, host),
        Command::Suite(what) => suite(alloc, what, output),
    }
}

// Shows the words.
fn help<O: Sink>(output: &mut O) -> Status
    ensures { (left : Option (List ℕ)) (reads : ℕ) → RunsOver Task.help result (wrote O.Sink left reads output.old output.new) }
{
    write(output, HELP)
}

// Shows the version.
fn version<O: Sink>(output: &mut O) -> Status
    ensures { (left : Option (List ℕ)) (reads : ℕ) → RunsOver Task.version result (wrote O.Sink left reads output.old output.new) }
{
    write(output, VERSION)
}

//! Which words are a command, and the contents of the help.

use crate::ended::{NOTHING_FAILS, end_so, ends, words_of};
use as4_tool::{
    Collection, Command, DrillKind, HELP, Journal, LIMIT, MAX_COUNT, Relaying, Service, Submission,
    Suite, VERSION, WordsRefusal, command_of, texts_of,
};
use as4_values::{MAX_ADDRESS, MAX_MOMENT, Octets, Seq};
use drill::{MAX_EVENTS, MAX_LINES, MAX_MODES};
use drill_script::{LINE_LIMIT, MAX_CALL, MAX_PERIOD, MAX_RETRIES, MAX_SIZE};
use std::alloc::Global;
use std::str;

const TOLD: &[u8] = b"bad words\n";

/// The message file of a pull request, which has no answer.
const OTHER: &[u8] =
    b"Content-Type: application/soap+xml\r\n\r\n<S:Envelope xmlns:S=\"http://www.w3.org/2003/05/soap-envelope\" xmlns:eb=\"http://docs.oasis-open.org/ebxml-msg/ebms/v3.0/ns/core/200704/\"><S:Header><eb:Messaging S:mustUnderstand=\"true\"><eb:SignalMessage><eb:MessageInfo><eb:Timestamp>2025-01-02T03:04:05.006Z</eb:Timestamp><eb:MessageId>s2@b</eb:MessageId></eb:MessageInfo><eb:PullRequest mpc=\"urn:ch\"></eb:PullRequest></eb:SignalMessage></eb:Messaging></S:Header><S:Body></S:Body></S:Envelope>";

/// Whether these words request an answer.
fn are_heard(alloc: Global, line: &str) -> bool {
    ends(
        alloc,
        line,
        OTHER,
        NOTHING_FAILS,
        (7, b"", b"not a user message\n"),
    )
}

#[test]
fn the_first_and_the_last_words_are_heard(rt: HostRuntime) {
    let alloc = rt.alloc();
    let last = "answer 253402300799999 340282366920938463463374607431768211455";
    assert!(rt; are_heard(alloc, "answer 0 0"));
    assert!(rt; are_heard(alloc, last));
}

const BAD_WORDS: [&str; 19] = [
    "check 0",
    "Check",
    "answer 253402300800000 1",
    "answer 0 340282366920938463463374607431768211456",
    "answer 00 1",
    "answer 0 01",
    "answer +1 1",
    "answer 1 -1",
    "answer 1 1a",
    "answer 1 ",
    "answer 0",
    "answer 0 1 2",
    "Answer 0 1",
    "handler m j http://h:1/ http://h:2/",
    "--Help",
    "drill 1",
    "drill --generate 0 1001",
    "help",
    "",
];

/// The first of these lines that isn't bad words, or whose run writes something.
fn first_not_bad(alloc: Global, lines: &[&str]) -> Option<usize> {
    for (at, line) in lines.iter().enumerate() {
        if !ends(alloc, line, OTHER, NOTHING_FAILS, (64, b"", TOLD)) {
            return Some(at);
        }
    }
    None
}

#[test]
fn other_words_are_bad(rt: HostRuntime) {
    assert_eq!(rt; first_not_bad(rt.alloc(), &BAD_WORDS), None);
}

/// Whether these words are read as this command, or as none.
fn spell(alloc: Global, words: &Seq<Octets>, command: Option<Command>) -> bool {
    let wanted = command.ok_or(WordsRefusal::BadWords);
    match texts_of(alloc, words) {
        Ok(texts) => command_of(alloc, &texts) == wanted,
        Err(_) => false,
    }
}

/// Whether the words of this line are read as this command, or as none.
fn are_read(alloc: Global, line: &str, command: Option<Command>) -> bool {
    match words_of(alloc, line) {
        Ok(words) => spell(alloc, &words, command),
        Err(_) => false,
    }
}

/// A handler with 4 workers, 2^63 turns and one request for each connection.
const SERVICE: Service = Service {
    modes: "m.toml",
    journal: "j",
    peer: "http://h:1/",
    local: "http://h:2",
    workers: 4,
    turns: 9_223_372_036_854_775_808,
    keep: 1,
};

const JOURNAL: Journal = Journal {
    modes: "m.toml",
    journal: "j",
};

const COMMANDS: [(&str, Command); 25] = [
    ("-h", Command::Help),
    ("-V", Command::Version),
    ("submit --help", Command::Help),
    ("--help --version", Command::Help),
    (
        "handler m.toml j http://h:1/ http://h:2",
        Command::Handler(SERVICE),
    ),
    (
        "handler m.toml j http://h:1/ http://h:2 --workers 1 --turns 0",
        Command::Handler(Service {
            workers: 1,
            turns: 0,
            ..SERVICE
        }),
    ),
    (
        "handler --turns=9223372036854775808 m.toml --workers=11 j http://h:1/ http://h:2",
        Command::Handler(Service {
            workers: 11,
            ..SERVICE
        }),
    ),
    (
        "handler m.toml j http://h:1/ --keep 1000 http://h:2",
        Command::Handler(Service {
            keep: 1000,
            ..SERVICE
        }),
    ),
    (
        "submit http://h:1/ m c text/plain",
        Command::Submit(Submission {
            local: "http://h:1/",
            mode: "m",
            conversation: "c",
            media: "text/plain",
        }),
    ),
    (
        "submit http://h -- -m  ",
        Command::Submit(Submission {
            local: "http://h",
            mode: "-m",
            conversation: "",
            media: "",
        }),
    ),
    (
        "collect http://h:65535/ 0 0 F",
        Command::Collect(Collection {
            local: "http://h:65535/",
            first: 0,
            count: 0,
            folder: "F",
        }),
    ),
    (
        "collect http://h:1/ 9223372036854775808 9223372036854775808 ",
        Command::Collect(Collection {
            local: "http://h:1/",
            first: 9_223_372_036_854_775_808,
            count: 9_223_372_036_854_775_808,
            folder: "",
        }),
    ),
    ("answer 0 0", Command::Answer { stamp: 0, nonce: 0 }),
    ("check", Command::Check),
    ("drill", Command::Drill(DrillKind::Pair)),
    ("drill --draw", Command::Drill(DrillKind::Drawing)),
    ("drill --hub", Command::Drill(DrillKind::Hub)),
    (
        "drill --generate 0 1",
        Command::Generate { seed: 0, count: 1 },
    ),
    (
        "drill --generate 18446744073709551615 1000",
        Command::Generate {
            seed: 18_446_744_073_709_551_615,
            count: 1_000,
        },
    ),
    (
        "audit m.toml j",
        Command::Audit {
            of: JOURNAL,
            draws: false,
        },
    ),
    (
        "audit --draw m.toml j",
        Command::Audit {
            of: JOURNAL,
            draws: true,
        },
    ),
    (
        "relay m.toml j m 1048576",
        Command::Relay(Relaying {
            from: JOURNAL,
            mode: "m",
            count: 1_048_576,
        }),
    ),
    ("suite", Command::Suite(Suite::Check)),
    ("suite --verify", Command::Suite(Suite::Verify)),
    ("suite --list", Command::Suite(Suite::List)),
];

/// The first of these lines that isn't read as its command.
fn first_other(alloc: Global, lines: &[(&str, Command)]) -> Option<usize> {
    for (at, (line, command)) in lines.iter().enumerate() {
        if !are_read(alloc, line, Some(*command)) {
            return Some(at);
        }
    }
    None
}

#[test]
fn commands_are_read_with_numbers_in_range(rt: HostRuntime) {
    assert_eq!(rt; first_other(rt.alloc(), &COMMANDS), None);
}

const NO_COMMANDS: [&str; 46] = [
    "handler m.toml j http://h:1/ http://h:2/ --workers 0",
    "handler m.toml j http://h:1/ http://h:2/ --workers 12",
    "handler m.toml j http://h:1/ http://h:2/ --workers 04",
    "handler m.toml j http://h:1/ http://h:2/ --workers",
    "handler m.toml j http://h:1/ http://h:2/ --workers 1 --workers 1",
    "handler m.toml j http://h:1/ http://h:2/ --turns 9223372036854775809",
    "handler m.toml j http://h:1/x http://h:2/",
    "handler m.toml j http://h:1/ http://h:2/x",
    "handler m.toml j h:1 http://h:2/",
    "handler m.toml j http://h:1/",
    "handler m.toml j http://h:1/ http://h:2/ 4",
    "submit http://h:1/ m c",
    "submit http://h:1/ m c text/plain x",
    "submit http://h:1/  c text/plain",
    "submit http://h:1// m c text/plain",
    "submit http://h:0/ m c text/plain",
    "submit h:1 m c text/plain",
    "submit http://h:1/ -m c text/plain",
    "submit http://h:1/ m c text/plain\n",
    "submit --version",
    "collect http://h:1/ 9223372036854775809 0 F",
    "collect http://h:1/ 0 9223372036854775809 F",
    "collect http://h:1/ 00 1 F",
    "collect http://h:1/ 0 1",
    "collect http://h:1/x 0 1 F",
    "drill --generate 18446744073709551616 1000",
    "drill --generate 0 1001",
    "drill --generate 00 1",
    "drill --generate 0 01",
    "drill --generate 0 -1",
    "drill --generate 0",
    "drill --generate 0 1 2",
    "drill --draw --generate 0 1",
    "drill --draw=true",
    "drill --draw --draw",
    "drill --draw --hub",
    "drill --hub --generate 0 1",
    "audit m.toml",
    "audit m.toml j k",
    "relay m.toml j m 1048577",
    "relay m.toml j  1",
    "suite --verify --list",
    "suite 1",
    "drill --Generate 0 1",
    "Drill --generate 0 1",
    "Drill",
];

/// The first of these lines that is read as a command.
fn first_command(alloc: Global, lines: &[&str]) -> Option<usize> {
    for (at, line) in lines.iter().enumerate() {
        if !are_read(alloc, line, None) {
            return Some(at);
        }
    }
    None
}

#[test]
fn words_out_of_range_are_no_command(rt: HostRuntime) {
    assert_eq!(rt; first_command(rt.alloc(), &NO_COMMANDS), None);
}

/// Whether a mode and a conversation of these lengths are read.
fn lengths_are_read(alloc: Global, mode: usize, conversation: usize) -> Option<bool> {
    let mode = vec![in alloc; b'm'; mode].ok()?;
    let conversation = vec![in alloc; b'c'; conversation].ok()?;
    let mut words = Vec::new(alloc);
    for word in [
        b"submit".as_slice(),
        b"http://h:1/",
        &mode,
        &conversation,
        b"text/plain",
    ] {
        words
            .push(Octets::of(Vec::from_slice(alloc, word).ok()?))
            .ok()?;
    }
    let words = Seq::of(words);
    let texts = texts_of(alloc, &words).ok()?;
    Some(command_of(alloc, &texts).is_ok())
}

#[test]
fn names_have_at_most_255_bytes(rt: HostRuntime) {
    let alloc = rt.alloc();
    assert_eq!(rt; lengths_are_read(alloc, 255, 255), Some(true));
    assert_eq!(rt; lengths_are_read(alloc, 256, 0), Some(false));
    assert_eq!(rt; lengths_are_read(alloc, 1, 256), Some(false));
}

/// The end of the run of a word that is no text.
fn a_broken_word_is_bad(alloc: Global) -> Option<bool> {
    let mut words = Vec::new(alloc);
    words
        .push(Octets::of(Vec::from_slice(alloc, b"check\xff").ok()?))
        .ok()?;
    Some(end_so(alloc, &Seq::of(words), b"", NOTHING_FAILS, (64, b"", TOLD)))
}

#[test]
fn other_bytes_are_bad(rt: HostRuntime) {
    assert_eq!(rt; a_broken_word_is_bad(rt.alloc()), Some(true));
}

#[test]
fn no_words_are_bad(rt: HostRuntime) {
    let words = Seq::of(Vec::new(rt.alloc()));
    assert!(rt; end_so(rt.alloc(), &words, b"", NOTHING_FAILS, (64, b"", TOLD)));
}

#[test]
fn help_and_version_are_written(rt: HostRuntime) {
    let alloc = rt.alloc();
    assert!(rt; ends(alloc, "--help", b"", NOTHING_FAILS, (0, HELP, b"")));
    assert!(rt; ends(alloc, "--version", b"", NOTHING_FAILS, (0, VERSION, b"")));
    assert!(rt; VERSION == b"as4 1.0.0\n".as_slice());
}

/// Lines that a user relies on.
const HELP_PARTS: [&str; 35] = [
    "\n  as4 handler MODES JOURNAL PEER LOCAL  ",
    "\n  as4 submit LOCAL MODE CONVERSATION MEDIA  ",
    "\n  as4 collect LOCAL FIRST COUNT FOLDER  ",
    "8  modes refused:",
    "9  host fault:",
    "10  not a journal at N:",
    "12  bad response:",
    "14  relay:",
    "\n  as4 answer STAMP NONCE  ",
    "\n  as4 check  ",
    "\n  as4 drill [--draw | --hub]  ",
    "\n  relay h MODE  ",
    "\n  as4 audit MODES JOURNAL [--draw]  ",
    "\n  as4 relay MODES JOURNAL MODE COUNT  ",
    "\n  as4 suite [--verify | --list]  ",
    "\n  as4 drill --generate SEED COUNT  ",
    "\n  as4 --help, as4 COMMAND --help  ",
    "\n  as4 --version  ",
    "\n  user ID  ",
    "\n  pull CHANNEL  ",
    "\n  receipt ID  ",
    "\n  errors COUNT  ",
    "\n  pair ID CHANNEL  ",
    "\n  refused EBMS:CODE ID  ",
    "0  done\n",
    "0 to 340282366920938463463374607431768211455",
    "1  check: the message is refused",
    "2  line N:",
    "3  read fault:",
    "4  write fault:",
    "5  no memory:",
    "6  more than 100000 events:",
    "7  not a user message:",
    "11  input too long:",
    "64  bad words:",
];

/// The first of these parts that is missing from the help.
fn first_lacking(help: &str, parts: &[&str]) -> Option<usize> {
    for (at, part) in parts.iter().enumerate() {
        if !help.contains(*part) {
            return Some(at);
        }
    }
    None
}

#[test]
fn the_help_has_each_line(rt: HostRuntime) {
    let help = str::from_utf8(HELP).unwrap_or("");
    assert_eq!(rt; first_lacking(help, &HELP_PARTS), None);
}

/// The greatest number of an entry.
const MOST: u64 = 9_223_372_036_854_775_808;

/// The text before a number in the help, the number, and the text after it.
const NUMBERS: [(&str, u64, &str); 20] = [
    ("turns of each worker, 0 to ", MOST, ","),
    ("first entry to collect, 0 to ", MOST, "\n"),
    ("most entries to collect, 0 to ", MOST, "\n"),
    ("The input of submit has at most ", LIMIT as u64, " bytes"),
    ("HOST:PORT/, at most ", MAX_ADDRESS as u64, " bytes"),
    ("workers at PEER, 1 to ", 11, ";"),
    ("1970-01-01T00:00:00Z, 0 to ", MAX_MOMENT, "\n"),
    ("messages follow from: 0 to ", u64::MAX, ";"),
    ("script submits: 0 to ", MAX_COUNT, "\n"),
    ("A message file has at most ", LIMIT as u64, " bytes"),
    ("a period has 1 to ", MAX_PERIOD, "\n"),
    ("retries are at most ", MAX_RETRIES, ";"),
    ("size=BYTES, at most ", MAX_SIZE, "\n"),
    ("A script has at most ", MAX_LINES, " lines"),
    ("lines of at most ", LINE_LIMIT as u64, " bytes"),
    ("names at most ", MAX_MODES as u64, " modes"),
    ("makes at most ", MAX_EVENTS, "\n"),
    ("6  more than ", MAX_EVENTS, " events"),
    ("NAME and MODE are 1 to ", 32, " of a to"),
    ("its device call CALL, 1 to ", MAX_CALL, ", is\n"),
];

/// The first of these numbers that isn't at its place in the help.
fn first_other_number(alloc: Global, help: &str, rows: &[(&str, u64, &str)]) -> Option<usize> {
    for (at, (front, number, back)) in rows.iter().enumerate() {
        match format!(in alloc; "{front}{number}{back}") {
            Ok(part) => {
                if !help.contains(part.as_str()) {
                    return Some(at);
                }
            }
            Err(_) => return Some(at),
        }
    }
    None
}

#[test]
fn the_help_has_each_limit(rt: HostRuntime) {
    let help = str::from_utf8(HELP).unwrap_or("");
    assert_eq!(rt; first_other_number(rt.alloc(), help, &NUMBERS), None);
}

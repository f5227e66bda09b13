//! How P-Modes are read from a file and found for messages.
use as4_values::{
    Agreement, MessageId, PlainData, Seq, Service, Side, StampText, Text, UserHeader, stamp_text,
};
use mode_values::Mode;
use pmodes::{Key, ModeRefusal, Modes};
use std::alloc::{AllocError, Global};

mod wrong_documents;
mod wrong_parts;
mod wrong_routes;
mod wrong_sides;

/// The lines of a valid table, each with its key.
const LINES: [(&str, &str); 8] = [
    ("name", "name = \"m\"\n"),
    (
        "from",
        "from = { role = \"r\", party = [ { id = \"a\" } ] }\n",
    ),
    ("to", "to = { role = \"s\", party = [ { id = \"b\" } ] }\n"),
    ("service", "service = \"v\"\n"),
    ("action", "action = \"c\"\n"),
    ("push", "push = \"http://h/p\"\n"),
    ("retries", "retries = 10\n"),
    ("period", "period = 3000\n"),
];

/// The result of reading a file.
#[derive(Clone, Copy, Debug, PartialEq, Eq)]
enum Said {
    Modes(u64),
    Toml,
    Missing(u64, Key),
    Range(u64, Key),
    Twice,
    Ambiguous,
    NoMemory,
}

fn count(modes: &Modes) -> u64 {
    let mut count = 0;
    for place in 0..2000 {
        if modes.get(place).is_some() {
            count = place + 1;
        }
    }
    count
}

fn outcome(read: Result<Modes, ModeRefusal>) -> Said {
    match read {
        Ok(modes) => {
            let count = count(&modes);
            drop(modes);
            Said::Modes(count)
        }
        Err(ModeRefusal::Toml) => Said::Toml,
        Err(ModeRefusal::Missing { mode, key }) => Said::Missing(mode, key),
        Err(ModeRefusal::Range { mode, key }) => Said::Range(mode, key),
        Err(ModeRefusal::Twice { name }) => {
            drop(name);
            Said::Twice
        }
        Err(ModeRefusal::Ambiguous { a, b }) => {
            drop(a);
            drop(b);
            Said::Ambiguous
        }
        Err(ModeRefusal::NoMemory) => Said::NoMemory,
    }
}

/// The lines of the valid table except that of one key.
fn lines_without(alloc: Global, without: &str) -> Result<String, AllocError> {
    let mut lines = String::new(alloc);
    for (key, line) in &LINES {
        if *key != without {
            lines.push_str(line)?;
        }
    }
    Ok(lines)
}

/// The valid table without one key, and with a further line.
fn table(alloc: Global, without: &str, line: &str) -> Result<String, AllocError> {
    let lines = lines_without(alloc, without)?;
    format!(in alloc; "[[mode]]\n{lines}{line}\n")
}

/// The result of reading such a table.
fn read_table(alloc: Global, without: &str, line: &str) -> Said {
    match table(alloc, without, line) {
        Ok(text) => outcome(Modes::read(alloc, text.as_bytes())),
        Err(_) => Said::NoMemory,
    }
}

/// The key that a table omits, its further line, and the result.
type Row = (&'static str, &'static str, Said);

/// The first row whose table gives another result.
fn first_other(alloc: Global, rows: &[Row]) -> Option<usize> {
    for (row, (without, line, said)) in rows.iter().enumerate() {
        if read_table(alloc, without, line) != *said {
            return Some(row);
        }
    }
    None
}

/// The first line that isn't refused for the key's range when it replaces the one of this name.
fn first_in_range(alloc: Global, name: &str, key: Key, lines: &[&str]) -> Option<usize> {
    for (row, line) in lines.iter().enumerate() {
        if read_table(alloc, name, line) != Said::Range(0, key) {
            return Some(row);
        }
    }
    None
}

/// The valid table with another name, followed by one that omits a key and has a further line.
fn two_tables(alloc: Global, name: &str, without: &str, line: &str) -> Result<String, AllocError> {
    let first = table(alloc, "name", name)?;
    let second = table(alloc, without, line)?;
    format!(in alloc; "{first}{second}")
}

/// The result of reading such a table after the valid one of the name `n`.
fn read_two(alloc: Global, without: &str, line: &str) -> Said {
    match two_tables(alloc, "name = \"n\"", without, line) {
        Ok(text) => outcome(Modes::read(alloc, text.as_bytes())),
        Err(_) => Said::NoMemory,
    }
}

const RIGHT: [Row; 12] = [
    ("", "", Said::Modes(1)),
    ("", "address = 1\nunknown = 2", Said::Modes(1)),
    ("retries", "retries = 0", Said::Modes(1)),
    ("retries", "retries = 1000", Said::Modes(1)),
    ("period", "period = 1", Said::Modes(1)),
    ("period", "period = 1_000_000_000", Said::Modes(1)),
    ("push", "push = \" http://h \"", Said::Modes(1)),
    ("push", "push = \"http://h:1/\"", Said::Modes(1)),
    ("push", "push = \"http://h?#:65535/a@b:c\"", Said::Modes(1)),
    (
        "push",
        "pull = \"c\"\naddress = \"http://h/p\"\ncollect = true",
        Said::Modes(1),
    ),
    (
        "",
        "agreement = \"g\"\nagreement_type = \"t\"\nservice_type = \"u\"",
        Said::Modes(1),
    ),
    ("", "collect = false", Said::Modes(1)),
];

#[test]
fn right_tables_are_read(rt: HostRuntime) {
    let other = first_other(rt.alloc(), &RIGHT);
    assert_eq!(rt; other, None);
}

/// The result for an action with blanks before this many letters, followed by `back`.
fn read_action(alloc: Global, count: usize, back: &str) -> Option<Said> {
    let letters = "x".repeat(alloc, count).ok()?;
    let line = format!(in alloc; "action = \" \\t{letters}{back}\"").ok()?;
    Some(read_table(alloc, "action", line.as_str()))
}

#[test]
fn a_text_is_trimmed_and_has_255_bytes(rt: HostRuntime) {
    let longest = read_action(rt.alloc(), 255, " \\n");
    let longer = read_action(rt.alloc(), 256, "");
    let wanted = (Some(Said::Modes(1)), Some(Said::Range(0, Key::Action)));
    assert_eq!(rt; (longest, longer), wanted);
}

/// The two sides of the mode.
fn sides_of(alloc: Global, mode: &Mode) -> Option<(Side, Side)> {
    match (mode.from.try_clone(alloc), mode.to.try_clone(alloc)) {
        (Ok(from), Ok(to)) => Some((from, to)),
        (from, to) => {
            drop(from);
            drop(to);
            None
        }
    }
}

/// The agreement, the service and the action of the mode.
fn business_of(alloc: Global, mode: &Mode) -> Option<(Option<Agreement>, Service, Text)> {
    match (
        mode.agreement.try_clone(alloc),
        mode.service.try_clone(alloc),
        mode.action.try_clone(alloc),
    ) {
        (Ok(agreement), Ok(service), Ok(action)) => Some((agreement, service, action)),
        (agreement, service, action) => {
            drop(agreement);
            drop(service);
            drop(action);
            None
        }
    }
}

/// A stamp and an identifier.
fn stamp_and_id(alloc: Global) -> Option<(StampText, MessageId)> {
    let stamp = stamp_text(alloc, 0).ok()?;
    let id = MessageId::read(alloc, b"m1@a").ok()?;
    Some((stamp, id))
}

/// A header that fits the mode.
fn header(alloc: Global, mode: &Mode) -> Option<UserHeader> {
    match (
        stamp_and_id(alloc),
        sides_of(alloc, mode),
        business_of(alloc, mode),
    ) {
        (Some((stamp, id)), Some((from, to)), Some((agreement, service, action))) => {
            Some(UserHeader {
                mpc: None,
                stamp,
                id,
                ref_to: None,
                from,
                to,
                agreement,
                service,
                action,
                conversation: None,
                properties: Seq::of(Vec::new(alloc)),
                parts: Seq::of(Vec::new(alloc)),
            })
        }
        (names, sides, business) => {
            drop(names);
            drop(sides);
            drop(business);
            None
        }
    }
}

/// A push `n` and a pull `m` with another action.
fn push_and_pull(alloc: Global) -> Option<Modes> {
    let name = "name = \"n\"\nagreement = \"g\"";
    let pull = "pull = \"c\"\naddress = \"http://h\"";
    let text = two_tables(alloc, name, "push", pull).ok()?;
    Modes::read(alloc, text.as_bytes()).ok()
}

/// Whether a mode of this name was found.
fn is_named(found: Option<&Mode>, name: &[u8]) -> bool {
    match found {
        Some(mode) => mode.name.bytes() == name,
        None => false,
    }
}

/// Whether the push comes first, then the pull, and nothing after both.
fn are_in_places(modes: &Modes) -> bool {
    is_named(modes.get(0), b"n") && is_named(modes.get(1), b"m") && modes.get(2).is_none()
}

/// Whether the push is found by its name, and by no channel.
fn is_found_by_name(alloc: Global, modes: &Modes) -> bool {
    let Ok(name) = Text::read(alloc, b"n") else {
        return false;
    };
    let is_found = is_named(modes.named(&name), b"n") && modes.channel(&name).is_none();
    drop(name);
    is_found
}

/// Whether the pull is found by its channel, and by no name.
fn is_found_by_channel(alloc: Global, modes: &Modes) -> bool {
    let Ok(channel) = Text::read(alloc, b"c") else {
        return false;
    };
    let is_found = is_named(modes.channel(&channel), b"m") && modes.named(&channel).is_none();
    drop(channel);
    is_found
}

/// Whether the modes are found by index, by name and by channel.
fn are_found(alloc: Global) -> Option<[bool; 3]> {
    let modes = push_and_pull(alloc)?;
    let by_name = is_found_by_name(alloc, &modes);
    let by_channel = is_found_by_channel(alloc, &modes);
    let found = [are_in_places(&modes), by_name, by_channel];
    drop(modes);
    Some(found)
}

#[test]
fn modes_are_found_by_place_name_and_channel(rt: HostRuntime) {
    assert_eq!(rt; are_found(rt.alloc()), Some([true, true, true]));
}

/// Whether a message with the terms of the mode at this index finds the mode of this name.
fn finds(alloc: Global, modes: &Modes, place: u64, name: &[u8]) -> Option<bool> {
    let header = header(alloc, modes.get(place)?)?;
    let is_found = is_named(modes.of(&header), name);
    drop(header);
    Some(is_found)
}

/// Whether a message with its terms finds the push, and one the pull.
fn finds_both(alloc: Global) -> Option<(bool, bool)> {
    let modes = push_and_pull(alloc)?;
    let (push, pull) = (finds(alloc, &modes, 0, b"n"), finds(alloc, &modes, 1, b"m"));
    drop(modes);
    Some((push?, pull?))
}

#[test]
fn a_message_finds_its_mode(rt: HostRuntime) {
    assert_eq!(rt; finds_both(rt.alloc()), Some((true, true)));
}

/// Two copies of the first mode.
fn two_copies(alloc: Global, modes: &Modes) -> Option<(Mode, Mode)> {
    let first = modes.get(0)?;
    match (first.try_clone(alloc), first.try_clone(alloc)) {
        (Ok(one), Ok(two)) => Some((one, two)),
        (one, two) => {
            drop(one);
            drop(two);
            None
        }
    }
}

/// The list of two copies of the push.
fn two_pushes(alloc: Global) -> Option<Vec<Mode>> {
    let modes = push_and_pull(alloc)?;
    let copies = two_copies(alloc, &modes);
    drop(modes);
    let (one, two) = copies?;
    vec![in alloc; one, two].ok()
}

/// The result for an empty list.
fn said_of_none(alloc: Global) -> Said {
    outcome(Modes::of_list(alloc, Seq::of(Vec::new(alloc))))
}

/// The result for the list of two.
fn said_of_two(alloc: Global) -> Option<Said> {
    let list = two_pushes(alloc)?;
    Some(outcome(Modes::of_list(alloc, Seq::of(list))))
}

#[test]
fn a_list_is_taken_over(rt: HostRuntime) {
    let said = (said_of_none(rt.alloc()), said_of_two(rt.alloc()));
    assert_eq!(rt; said, (Said::Modes(0), Some(Said::Twice)));
}

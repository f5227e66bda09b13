//! Files that aren't lists of P-Modes.
use super::{Row, Said, first_other, outcome, read_two};
use pmodes::{Key, Modes};
use std::alloc::Global;

const DOCUMENTS: [(&[u8], Said); 11] = [
    (b"[[", Said::Toml),
    (b"a =", Said::Toml),
    (b"a = 1\na = 2", Said::Toml),
    (b"a = \"\xff\"", Said::Toml),
    (b"mode = 1", Said::Range(0, Key::Mode)),
    (b"[mode]\nname = \"m\"", Said::Range(0, Key::Mode)),
    (b"mode = [ 1 ]", Said::Range(0, Key::Mode)),
    (b"mode = [ { }, 1 ]", Said::Range(0, Key::Mode)),
    (b"[[mode]]", Said::Missing(0, Key::Name)),
    (b"mode = []", Said::Modes(0)),
    (b"", Said::Modes(0)),
];

/// The first document with another result.
fn first_other_document(alloc: Global) -> Option<usize> {
    for (row, (bytes, said)) in DOCUMENTS.iter().enumerate() {
        if outcome(Modes::read(alloc, bytes)) != *said {
            return Some(row);
        }
    }
    None
}

#[test]
fn a_document_has_an_array_of_tables(rt: HostRuntime) {
    assert_eq!(rt; first_other_document(rt.alloc()), None);
}

/// Tables with more than one error.
const TWO_FAULTS: [Row; 2] = [
    (
        "name",
        "name = \" m\"\nperiods = 1\ncollect = 1",
        Said::Range(0, Key::Name),
    ),
    ("period", "collect = 1", Said::Missing(0, Key::Period)),
];

#[test]
fn the_first_fault_is_named(rt: HostRuntime) {
    let first = first_other(rt.alloc(), &TWO_FAULTS);
    let second = read_two(rt.alloc(), "retries", "retries = 1001");
    assert_eq!(rt; (first, second), (None, Said::Range(1, Key::Retries)));
}

/// Tables after the valid one, and the result for both.
const SECOND_TABLES: [Row; 6] = [
    ("name", "name = \"n\"", Said::Twice),
    ("action", "action = \"d\"", Said::Modes(2)),
    ("", "agreement = \"g\"", Said::Modes(2)),
    ("", "", Said::Ambiguous),
    ("period", "period = 1", Said::Ambiguous),
    ("action", "action = \" c \"", Said::Ambiguous),
];

/// The first row whose table after the valid one gives another result.
fn first_other_second(alloc: Global) -> Option<usize> {
    for (row, (without, line, said)) in SECOND_TABLES.iter().enumerate() {
        if read_two(alloc, without, line) != *said {
            return Some(row);
        }
    }
    None
}

#[test]
fn modes_have_different_names_and_terms(rt: HostRuntime) {
    assert_eq!(rt; first_other_second(rt.alloc()), None);
}

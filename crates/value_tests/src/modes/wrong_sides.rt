//! Wrong names and sides of P-Modes.
use super::{Row, Said, first_in_range, first_other};
use pmodes::Key;

const WRONG_NAMES: [&str; 6] = [
    "name = 1",
    "name = \"\"",
    "name = \" m\"",
    "name = \"a/b\"",
    "name = \"\u{e9}\"",
    "name = \"aaaaaaaaaaaaaaaaaaaaaaaaaaaaaaaaaaaaaaaaaaaaaaaaaaaaaaaaaaaaaaaaa\"",
];

#[test]
fn a_name_is_1_to_64_plain_characters(rt: HostRuntime) {
    let in_range = first_in_range(rt.alloc(), "name", Key::Name, &WRONG_NAMES);
    assert_eq!(rt; in_range, None);
}

const WRONG_SIDES: [Row; 11] = [
    ("name", "", Said::Missing(0, Key::Name)),
    ("from", "", Said::Missing(0, Key::From)),
    ("from", "from = \"a\"", Said::Range(0, Key::From)),
    ("from", "from = []", Said::Range(0, Key::From)),
    ("to", "", Said::Missing(0, Key::To)),
    ("to", "to = 1", Said::Range(0, Key::To)),
    ("from", "from = { party = [] }", Said::Missing(0, Key::Role)),
    ("from", "from = { role = 1 }", Said::Range(0, Key::Role)),
    (
        "from",
        "from = { role = \" \\t\" }",
        Said::Range(0, Key::Role),
    ),
    ("to", "to = { }", Said::Missing(0, Key::Role)),
    ("to", "to = { role = \"\" }", Said::Range(0, Key::Role)),
];

#[test]
fn a_side_is_a_table_with_a_role(rt: HostRuntime) {
    let other = first_other(rt.alloc(), &WRONG_SIDES);
    assert_eq!(rt; other, None);
}

const WRONG_PARTIES: [Row; 11] = [
    ("to", "to = { role = \"s\" }", Said::Missing(0, Key::Party)),
    (
        "to",
        "to = { role = \"s\", party = { id = \"a\" } }",
        Said::Range(0, Key::Party),
    ),
    (
        "to",
        "to = { role = \"s\", party = [] }",
        Said::Range(0, Key::Party),
    ),
    (
        "to",
        "to = { role = \"s\", party = [ 1 ] }",
        Said::Range(0, Key::Party),
    ),
    (
        "to",
        "to = { role = \"s\", party = [ { }, \"a\" ] }",
        Said::Range(0, Key::Party),
    ),
    (
        "to",
        "to = { role = \"s\", party = [ {}, {}, {}, {}, {}, {}, {}, {}, {}, {}, {}, {}, {}, {}, {}, {}, {} ] }",
        Said::Range(0, Key::Party),
    ),
    (
        "to",
        "to = { role = \"s\", party = [ { } ] }",
        Said::Missing(0, Key::PartyKey),
    ),
    (
        "to",
        "to = { role = \"s\", party = [ { id = 1 } ] }",
        Said::Range(0, Key::PartyKey),
    ),
    (
        "to",
        "to = { role = \"s\", party = [ { id = \"a\" }, { type = \"t\" } ] }",
        Said::Missing(0, Key::PartyKey),
    ),
    (
        "to",
        "to = { role = \"s\", party = [ { id = \"a\", type = \"\" } ] }",
        Said::Range(0, Key::PartyKey),
    ),
    (
        "to",
        "to = { role = \"s\", party = [ { id = \"a\", type = true } ] }",
        Said::Range(0, Key::PartyKey),
    ),
];

#[test]
fn a_side_has_parties(rt: HostRuntime) {
    let other = first_other(rt.alloc(), &WRONG_PARTIES);
    assert_eq!(rt; other, None);
}

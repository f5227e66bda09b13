//! Wrong routes of P-Modes.
use super::{Row, Said, first_in_range, first_other};
use pmodes::Key;

const WRONG_ADDRESSES: [&str; 14] = [
    "push = 1",
    "push = \"\"",
    "push = \"h\"",
    "push = \"https://h/\"",
    "push = \"HTTP://h/\"",
    "push = \"http://\"",
    "push = \"http:///p\"",
    "push = \"http://u@h/\"",
    "push = \"http://h /\"",
    "push = \"http://h:/\"",
    "push = \"http://h:0/\"",
    "push = \"http://h:080/\"",
    "push = \"http://h:65536/\"",
    "push = \"http://h/\u{e9}\"",
];

#[test]
fn an_address_has_its_form(rt: HostRuntime) {
    let in_range = first_in_range(rt.alloc(), "push", Key::Push, &WRONG_ADDRESSES);
    assert_eq!(rt; in_range, None);
}

const WRONG_ROUTES: [Row; 8] = [
    ("push", "", Said::Missing(0, Key::Push)),
    (
        "push",
        "address = \"http://h\"",
        Said::Missing(0, Key::Push),
    ),
    ("", "pull = \"c\"", Said::Range(0, Key::Pull)),
    ("push", "push = 1\npull = 2", Said::Range(0, Key::Pull)),
    ("push", "pull = 1", Said::Range(0, Key::Pull)),
    ("push", "pull = \"c\"", Said::Missing(0, Key::Address)),
    (
        "push",
        "pull = \"c\"\naddress = 1",
        Said::Range(0, Key::Address),
    ),
    (
        "push",
        "pull = \"c\"\naddress = \"http://\"",
        Said::Range(0, Key::Address),
    ),
];

#[test]
fn a_mode_pushes_or_pulls(rt: HostRuntime) {
    let other = first_other(rt.alloc(), &WRONG_ROUTES);
    assert_eq!(rt; other, None);
}

//! The end of a script's drill.

use crate::ended::{NOTHING_FAILS, Wanted, ends};
use std::alloc::{AllocError, Global};

/// Whether the drill of the script ends so.
fn is_drilled(alloc: Global, script: &[u8], wanted: Wanted) -> bool {
    ends(alloc, "drill", script, NOTHING_FAILS, wanted)
}

/// The reports for an error in the first line of a script, and in the third.
const FIRST_IS_WRONG: &[u8] = b"line 1\n";

const THIRD_IS_WRONG: &[u8] = b"line 3\n";

const WRONG_FROM_THE_START: [(&str, &str); 4] = [
    ("hello\n", ""),
    ("take a", ""),
    ("\n", ""),
    ("take c\ntake a\n", ""),
];

/// The first of these scripts that doesn't end with this report of a wrong line, or writes another text before it.
fn first_other(alloc: Global, scripts: &[(&str, &str)], told: &[u8]) -> Option<usize> {
    for (at, (script, written)) in scripts.iter().enumerate() {
        if !is_drilled(alloc, script.as_bytes(), (2, written.as_bytes(), told)) {
            return Some(at);
        }
    }
    None
}

#[test]
fn a_wrong_line_of_a_script_is_told(rt: HostRuntime) {
    assert_eq!(rt;
        first_other(rt.alloc(), &WRONG_FROM_THE_START, FIRST_IS_WRONG),
        None
    );
}

/// The third line is wrong, isn't allowed at its place, or is unended.
const WRONG_AT_THE_THIRD: [(&str, &str); 6] = [
    ("mode m push 1 1\ntake a\nhop a\n", "a nothing\n"),
    (
        "mode m push 3 1000\nsubmit a m hex=68656c6c6f\ntake c\n",
        "a submitted 0 0.00000000-0000-0000-0000-000000000000@as4\n",
    ),
    (
        "take a\ntake b\nmode m push 3 1000\n",
        "a nothing\nb nothing\n",
    ),
    (
        "tick a 1\ntick b 2\ntick a 03\n",
        "a ticked 0\nb ticked 0\n",
    ),
    (
        "came a 0\nread b 0\ntake  a\n",
        "a no-package\nb no-entry\n",
    ),
    (
        "status a 7\nconfirm b 0\ntake a",
        "a status 7 unknown\nb no-entry\n",
    ),
];

#[test]
fn what_stands_before_a_wrong_line_is_run(rt: HostRuntime) {
    assert_eq!(rt;
        first_other(rt.alloc(), &WRONG_AT_THE_THIRD, THIRD_IS_WRONG),
        None
    );
}

#[test]
fn a_script_is_run(rt: HostRuntime) {
    let written = b"a no-mode\na end 0 0 0 0 0\nb end 0 0 0 0 0\n".as_slice();
    assert!(rt; is_drilled(rt.alloc(), b"submit a m none\n", (0, written, b"")));
}

/// This line, repeated this many times.
fn repeated(alloc: Global, line: &[u8], times: u32) -> Result<Vec<u8>, AllocError> {
    let mut lines = Vec::new(alloc);
    for _ in 0..times {
        lines.extend_from_slice(line)?;
    }
    Ok(lines)
}

/// Whether a script of 100,001 events ends after the first 100,000. Setting a clock to its own moment is an event too,
/// and no submission expires.
fn ends_behind_the_last_event(alloc: Global) -> Result<bool, AllocError> {
    let script = repeated(alloc, b"tick a 0\n", 100_001)?;
    let written = repeated(alloc, b"a ticked 0\n", 100_000)?;
    let wanted = (
        6,
        written.as_slice(),
        b"more than 100000 events\n".as_slice(),
    );
    Ok(is_drilled(alloc, &script, wanted))
}

#[test]
fn event_100_001_is_one_too_many(rt: HostRuntime) {
    assert!(rt; ends_behind_the_last_event(rt.alloc()).unwrap_or(false));
}

#[test]
fn a_script_of_a_chain_is_run(rt: HostRuntime) {
    let script = b"mode m fh push 3 1000
mode n hl push 3 1000
submit f m hex=6869
take f
came h f 0
relay h n
take h
came l h 1
";
    let written = b"f submitted 0 0.00000000-0000-0000-0000-000000000000@as4
f sent 0 user 0.00000000-0000-0000-0000-000000000000@as4
h sent 0 receipt 0.00000000-0000-0000-0000-000000000000@as4
h submitted 0 0.00000000-0000-0000-0000-000000000003@as4
h sent 1 user 0.00000000-0000-0000-0000-000000000003@as4
l sent 0 receipt 0.00000000-0000-0000-0000-000000000003@as4
f end 1 0 0 0 0
h end 1 0 0 0 1
l end 0 0 0 0 1
";
    assert!(rt;
        ends(
            rt.alloc(),
            "drill --hub",
            script,
            NOTHING_FAILS,
            (0, written, b"")
        )
    );
}

#[test]
fn a_line_of_a_pair_is_none_of_a_chain(rt: HostRuntime) {
    let wanted = (2, b"f nothing\n".as_slice(), b"line 2\n".as_slice());
    assert!(rt;
        ends(
            rt.alloc(),
            "drill --hub",
            b"take f\ntake a\n",
            NOTHING_FAILS,
            wanted
        )
    );
    let wanted = (2, b"a nothing\n".as_slice(), b"line 2\n".as_slice());
    assert!(rt;
        ends(
            rt.alloc(),
            "drill",
            b"take a\ntake f\n",
            NOTHING_FAILS,
            wanted
        )
    );
}

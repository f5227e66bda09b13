//! What the contracts don't cover: that memory suffices. Scripts with their output, and scripts that end early.
//! `as4_examples` runs the full examples.
ghost use Rattle.std.specs.Prelude.{◌≤◌};

use as4_flow::{MemorySink, MemorySource};
use drill::{DrillEnd, drill, generate, hub_drill};
use std::alloc::{AllocError, Global};

/// Whether the script ends so on a pair of endpoints and writes this text.
pub(crate) fn plays(alloc: Global, script: &[u8], end: DrillEnd, wanted: &[u8]) -> bool {
    ends_so(alloc, false, script, end, wanted)
}

/// The same on a chain of three.
pub(crate) fn plays_in_chain(alloc: Global, script: &[u8], end: DrillEnd, wanted: &[u8]) -> bool {
    ends_so(alloc, true, script, end, wanted)
}

fn ends_so(alloc: Global, in_chain: bool, script: &[u8], end: DrillEnd, wanted: &[u8]) -> bool {
    match script.to_vec(alloc) {
        Ok(bytes) => {
            let mut source = MemorySource::of(bytes, Vec::new(alloc), Vec::new(alloc));
            let mut sink = MemorySink::of(alloc, Vec::new(alloc), Vec::new(alloc));
            let ended = if in_chain {
                hub_drill(alloc, &mut source, &mut sink)
            } else {
                drill(alloc, &mut source, &mut sink)
            };
            drop(source);
            let is_written = sink.bytes() == wanted;
            drop(sink);
            ended == end && is_written
        }
        Err(_) => false,
    }
}

/// The same for a script and a text that are built first.
pub(crate) fn plays_made(
    alloc: Global,
    script: Result<Vec<u8>, AllocError>,
    end: DrillEnd,
    wanted: Result<Vec<u8>, AllocError>,
) -> bool {
    match (script, wanted) {
        (Ok(script), Ok(wanted)) => {
            let is_so = plays(alloc, script.as_slice(), end, wanted.as_slice());
            drop(script);
            drop(wanted);
            is_so
        }
        (script, wanted) => {
            drop(script);
            drop(wanted);
            false
        }
    }
}

/// The front, the middle repeated this many times, and the back.
pub(crate) fn repeated(
    alloc: Global,
    front: &[u8],
    middle: &[u8],
    times: u32,
    back: &[u8],
) -> Result<Vec<u8>, AllocError> {
    let mut bytes = Vec::new(alloc);
    match put_repeated(&mut bytes, front, middle, times, back) {
        Ok(()) => Ok(bytes),
        Err(error) => {
            drop(bytes);
            Err(error)
        }
    }
}

fn put_repeated(
    bytes: &mut Vec<u8>,
    front: &[u8],
    middle: &[u8],
    times: u32,
    back: &[u8],
) -> Result<(), AllocError> {
    bytes.extend_from_slice(front)?;
    for _ in 0..times {
        bytes.extend_from_slice(middle)?;
    }
    bytes.extend_from_slice(back)
}

/// The totals of two endpoints without submissions.
const ENDS_OF_NOTHING: &[u8] = b"a end 0 0 0 0 0\nb end 0 0 0 0 0\n";

#[test]
fn a_line_of_no_word_ends_the_drill(rt: HostRuntime) {
    let script = b"mode m push 1 1\ntake a\nhop a\n";
    let wanted = b"a nothing\n";
    assert!(rt; plays(rt.alloc(), script, DrillEnd::Line { number: 3 }, wanted));
}

#[test]
fn a_mode_that_none_has_is_told(rt: HostRuntime) {
    let script = b"submit a m none\n";
    let wanted = b"a no-mode\na end 0 0 0 0 0\nb end 0 0 0 0 0\n";
    assert!(rt; plays(rt.alloc(), script, DrillEnd::Read, wanted));
}

#[test]
fn a_line_without_its_end_is_none(rt: HostRuntime) {
    let script = b"take a\ntake a";
    let wanted = b"a nothing\n";
    assert!(rt; plays(rt.alloc(), script, DrillEnd::Line { number: 2 }, wanted));
}

#[test]
fn modes_come_first(rt: HostRuntime) {
    let script = b"take a\nmode m push 1 1\n";
    let wanted = b"a nothing\n";
    assert!(rt; plays(rt.alloc(), script, DrillEnd::Line { number: 2 }, wanted));
}

#[test]
fn a_mode_is_named_once(rt: HostRuntime) {
    let script = b"mode m push 1 1\nmode m pull 1 1\n";
    let wanted = b"";
    assert!(rt; plays(rt.alloc(), script, DrillEnd::Line { number: 2 }, wanted));
}

/// A pull request for an empty channel: the reply warns, and changes neither endpoint.
#[test]
fn an_empty_channel_is_told(rt: HostRuntime) {
    let script = b"mode m pull 3 1000\nask b m\ncame a 0\n";
    let wanted =
        b"b sent 0 pull drill-m\na sent 0 error EBMS:0006\na end 0 0 0 0 0\nb end 0 0 0 0 0\n";
    assert!(rt; plays(rt.alloc(), script, DrillEnd::Read, wanted));
}

#[test]
fn numbers_of_nothing_are_told(rt: HostRuntime) {
    let script = b"came a 0\nstatus b 7\nread a 1\nconfirm b 0\n";
    let wanted =
        b"a no-package\nb status 7 unknown\na no-entry\nb no-entry\na end 0 0 0 0 0\nb end 0 0 0 0 0\n";
    assert!(rt; plays(rt.alloc(), script, DrillEnd::Read, wanted));
}

#[test]
fn a_package_and_a_submission_that_none_has_are_told(rt: HostRuntime) {
    let script = b"came a 0\nlost b 1\nstatus b 7\n";
    let wanted =
        b"a no-package\nb no-package\nb status 7 unknown\na end 0 0 0 0 0\nb end 0 0 0 0 0\n";
    assert!(rt; plays(rt.alloc(), script, DrillEnd::Read, wanted));
}

const ANSWERS: &[u8] = b"mode m push 1 1000
mode p pull 1 1000
ask b none
ask b m
submit a m hex=0102
take b
ask b p
came a 0
came b 0
status a 0
take a
came b 1
read b 1
confirm b 1
read b 0
confirm b 0
came b 1
read b 1
read b 0
confirm b 0
status a 0
came a 2
came a 1
status a 0
came b 9
take a
";

const ANSWERS_TEXT: &[u8] = b"b no-mode
b no-mode
a submitted 0 0.00000000-0000-0000-0000-000000000002@as4
b nothing
b sent 0 pull drill-p
a sent 0 error EBMS:0006
b quiet
a status 0 pending 0
a sent 1 user 0.00000000-0000-0000-0000-000000000002@as4
b sent 1 receipt 0.00000000-0000-0000-0000-000000000002@as4
b no-entry
b no-entry
b entry 0 0.00000000-0000-0000-0000-000000000002@as4 1 2
b confirmed 0
b sent 2 receipt 0.00000000-0000-0000-0000-000000000002@as4
b no-entry
b gone
b gone
a status 0 pending 1
a quiet
a quiet
a status 0 receipted
b no-package
a nothing
a end 1 1 0 0 0
b end 0 0 0 0 1
";

/// A pull of an empty channel, a mode that doesn't exist or only pushes, a number past the inbox, and a message that is
/// received again after its confirmation.
#[test]
fn each_end_answers_by_the_rules(rt: HostRuntime) {
    assert!(rt; plays(rt.alloc(), ANSWERS, DrillEnd::Read, ANSWERS_TEXT));
}

const PAIRS: &[u8] = b"mode m pull 3 1000
submit a m hex=31
submit a m hex=32
ask b m
came a 0
came b 0
pair b m 0
came a 2
came a 2
status a 0
";

const PAIRS_TEXT: &[u8] = b"a submitted 0 0.00000000-0000-0000-0000-000000000000@as4
a submitted 1 1.00000000-0000-0000-0000-000000000001@as4
b sent 0 pull drill-m
a sent 0 user 0.00000000-0000-0000-0000-000000000000@as4
b sent 1 receipt 0.00000000-0000-0000-0000-000000000000@as4
b sent 2 pair 0.00000000-0000-0000-0000-000000000000@as4 drill-m
a sent 1 user 1.00000000-0000-0000-0000-000000000001@as4
a sent 2 error EBMS:0006
a status 0 receipted
a end 2 1 0 0 0
b end 0 0 0 0 1
";

/// A receipt is sent with the pull request for the next message; the pair is repeated, and then the channel is empty.
#[test]
fn a_receipt_is_bundled_with_the_next_pull(rt: HostRuntime) {
    assert!(rt; plays(rt.alloc(), PAIRS, DrillEnd::Read, PAIRS_TEXT));
}

/// Without a delivered message, there is no receipt to bundle.
#[test]
fn a_pair_of_no_entry_is_told(rt: HostRuntime) {
    let script = b"mode m pull 3 1000\npair b m 0\n";
    let wanted = b"b no-entry\na end 0 0 0 0 0\nb end 0 0 0 0 0\n";
    assert!(rt; plays(rt.alloc(), script, DrillEnd::Read, wanted));
}

const PAIR_ANSWERS: &[u8] = b"mode m push 1 1000
mode p pull 1 1000
pair b none 0
pair b m 0
pair b p 0
submit a m hex=01
take a
came b 0
pair b p 0
lost a 1
status a 0
confirm b 0
pair b p 0
pair b p 1
pair b m 0
";

const PAIR_ANSWERS_TEXT: &[u8] = b"b no-mode
b no-mode
b no-entry
a submitted 0 0.00000000-0000-0000-0000-000000000003@as4
a sent 0 user 0.00000000-0000-0000-0000-000000000003@as4
b sent 0 receipt 0.00000000-0000-0000-0000-000000000003@as4
b sent 1 pair 0.00000000-0000-0000-0000-000000000003@as4 drill-p
a lost error EBMS:0006
a status 0 receipted
b confirmed 0
b gone
b no-entry
b no-mode
a end 1 1 0 0 0
b end 0 0 0 0 1
";

/// A mode that doesn't exist or only pushes, numbers before and past the inbox, and the receipt for a pushed message
/// with a pull request for another channel.
#[test]
fn a_pair_is_answered_by_the_rules(rt: HostRuntime) {
    assert!(rt; plays(rt.alloc(), PAIR_ANSWERS, DrillEnd::Read, PAIR_ANSWERS_TEXT));
}

const LONG_LOAD_TEXT: &[u8] = b"a submitted 0 0.00000000-0000-0000-0000-000000000000@as4
a sent 0 user 0.00000000-0000-0000-0000-000000000000@as4
b sent 0 receipt 0.00000000-0000-0000-0000-000000000000@as4
b entry 0 0.00000000-0000-0000-0000-000000000000@as4 1 524280
a end 1 0 0 0 0
b end 0 0 0 0 1
";

/// Whether a line with a load of 524,280 bytes, after this front, ends the drill so.
fn plays_long(alloc: Global, front: &[u8], end: DrillEnd, wanted: &[u8]) -> bool {
    let back = b"\ntake a\ncame b 0\nread b 0\n";
    let script = repeated(alloc, front, b"5a", 524_280, back);
    plays_made(alloc, script, end, wanted.to_vec(alloc))
}

/// A line of 1,048,576 bytes is read to its last digit; a line of one more byte is refused.
#[test]
fn a_line_has_at_most_1048576_bytes(rt: HostRuntime) {
    let longest = b"mode mm push 0 1\nsubmit a mm hex=";
    let too_long = b"mode mmm push 0 1\nsubmit a mmm hex=";
    let end = DrillEnd::Line { number: 2 };
    assert!(rt; plays_long(rt.alloc(), longest, DrillEnd::Read, LONG_LOAD_TEXT));
    assert!(rt; plays_long(rt.alloc(), too_long, end, b""));
}

/// The end of a drill whose second line is wrong.
const WRONG: DrillEnd = DrillEnd::Line { number: 2 };

/// A line, the end of a drill with it, and the text that the drill writes.
const LIMITS: [(&[u8], DrillEnd, &[u8]); 17] = [
    (
        b"came a 18446744073709551615\n",
        DrillEnd::Read,
        b"a no-package\n",
    ),
    (b"came a 18446744073709551616\n", WRONG, b""),
    (
        b"read b 18446744073709551615\n",
        DrillEnd::Read,
        b"b no-entry\n",
    ),
    (b"read b 18446744073709551616\n", WRONG, b""),
    (
        b"confirm b 18446744073709551615\n",
        DrillEnd::Read,
        b"b no-entry\n",
    ),
    (b"confirm b 99999999999999999999\n", WRONG, b""),
    (
        b"pair b m 18446744073709551615\n",
        DrillEnd::Read,
        b"b no-mode\n",
    ),
    (b"pair b m 18446744073709551616\n", WRONG, b""),
    (b"tick a 253402300799999\n", DrillEnd::Read, b"a ticked 0\n"),
    (b"tick a 253402300800000\n", WRONG, b""),
    (b"submit a m size=16777217\n", WRONG, b""),
    (b"mode n pull 1000 1000000000\n", DrillEnd::Read, b""),
    (b"mode n pull 1001 1000000000\n", WRONG, b""),
    (b"mode n pull 1000 1000000001\n", WRONG, b""),
    (b"mode n pull 1000 0\n", WRONG, b""),
    (
        b"ask a abcdefghijklmnopqrstuvwxyz012345\n",
        DrillEnd::Read,
        b"a no-mode\n",
    ),
    (b"ask a abcdefghijklmnopqrstuvwxyz0123456\n", WRONG, b""),
];

/// Whether the line, after a line of a mode, ends the drill so and writes this text.
fn plays_second(alloc: Global, line: &[u8], end: DrillEnd, wanted: &[u8]) -> bool {
    let ends = if end == DrillEnd::Read {
        ENDS_OF_NOTHING
    } else {
        b""
    };
    let script = repeated(alloc, b"mode m push 0 1\n", line, 1, b"");
    plays_made(alloc, script, end, repeated(alloc, wanted, ends, 1, b""))
}

/// The first row with another end or another text.
fn first_other(alloc: Global, rows: &[(&[u8], DrillEnd, &[u8])]) -> Option<usize> {
    for (row, (line, end, wanted)) in rows.iter().enumerate() {
        if !plays_second(alloc, line, *end, wanted) {
            return Some(row);
        }
    }
    None
}

/// The values of a line are in range up to their limits; one past a limit, the line is wrong.
#[test]
fn numbers_and_names_have_limits(rt: HostRuntime) {
    assert_eq!(rt; first_other(rt.alloc(), &LIMITS), None);
}

/// The largest load that a line can name is submitted.
#[test]
fn a_load_of_16777216_bytes_is_handed_in(rt: HostRuntime) {
    let script = b"mode m push 0 1\nsubmit a m size=16777216\n";
    let wanted =
        b"a submitted 0 0.00000000-0000-0000-0000-000000000000@as4\na end 1 0 0 0 0\nb end 0 0 0 0 0\n";
    assert!(rt; plays(rt.alloc(), script, DrillEnd::Read, wanted));
}

const LETTERS: &[u8; 32] = b"abcdefghijklmnopqrstuvwxyz012345";

/// As many modes as there are names of two of the letters, followed by this line.
fn modes_and(alloc: Global, line: &[u8]) -> Result<Vec<u8>, AllocError> {
    let mut script = Vec::new(alloc);
    match put_modes(&mut script, line) {
        Ok(()) => Ok(script),
        Err(error) => {
            drop(script);
            Err(error)
        }
    }
}

fn put_modes(script: &mut Vec<u8>, line: &[u8]) -> Result<(), AllocError> {
    for first in LETTERS {
        put_modes_of(script, *first)?;
    }
    script.extend_from_slice(line)
}

fn put_modes_of(script: &mut Vec<u8>, first: u8) -> Result<(), AllocError> {
    for second in LETTERS {
        script.extend_from_slice(b"mode ")?;
        script.extend_from_slice(&[first, *second])?;
        script.extend_from_slice(b" push 0 1\n")?;
    }
    Ok(())
}

/// 1,024 modes are allowed, and one more is refused.
#[test]
fn a_script_has_at_most_1024_modes(rt: HostRuntime) {
    let alloc = rt.alloc();
    let submits = modes_and(alloc, b"submit a 55 none\n");
    let wanted =
        b"a submitted 0 0.00000000-0000-0000-0000-000000000000@as4\na end 1 0 0 0 0\nb end 0 0 0 0 0\n";
    assert!(rt; plays_made(alloc, submits, DrillEnd::Read, wanted.to_vec(alloc)));
    let names = modes_and(alloc, b"mode a push 0 1\n");
    let end = DrillEnd::Line { number: 1025 };
    assert!(rt; plays_made(alloc, names, end, Ok(Vec::new(alloc))));
}

/// Event 100,000 is made, and lines without an event may follow it; the next event is too many.
#[test]
fn event_100001_is_too_many(rt: HostRuntime) {
    let alloc = rt.alloc();
    let back = b"came a 0\ntick a 0\n";
    let script = repeated(alloc, b"", b"tick a 0\n", 100_000, back);
    let wanted = repeated(alloc, b"", b"a ticked 0\n", 100_000, b"a no-package\n");
    assert!(rt; plays_made(alloc, script, DrillEnd::TooMany, wanted));
}

/// Whether a generated drill with this many messages ends, and writes this text.
fn settles(alloc: Global, count: u64, wanted: &[u8]) -> bool
    requires { count ≤ 1000 }
{
    let mut sink = MemorySink::of(alloc, Vec::new(alloc), Vec::new(alloc));
    let end = generate(alloc, 0, count, &mut sink);
    let is_written = sink.bytes() == wanted;
    drop(sink);
    end == DrillEnd::Read && is_written
}

/// A large generated drill with losses and repeats: every message is delivered once, and each sender holds its receipt.
#[test]
fn a_generated_world_settles(rt: HostRuntime) {
    let some = b"a end 200 200 0 0 0\nb end 0 0 0 0 200\n";
    assert!(rt; settles(rt.alloc(), 0, ENDS_OF_NOTHING));
    assert!(rt; settles(rt.alloc(), 200, some));
}

/// A script, the numbers of the read and the write that fail (the first is 1), the end of the drill, and the number of
/// bytes left of the script. A read returns at most seven bytes.
const FAULTS: [(&[u8], u64, u64, DrillEnd, usize); 9] = [
    (b"take a\ntake a\n", 0, 0, DrillEnd::Read, 0),
    (b"take a\ntake a\n", 1, 0, DrillEnd::ReadFault, 14),
    (b"take a\ntake a\n", 2, 0, DrillEnd::ReadFault, 7),
    (b"take a\ntake a\n", 3, 0, DrillEnd::ReadFault, 0),
    (b"take a\ntake a\n", 0, 1, DrillEnd::WriteFault, 7),
    (b"take a\ntake a\n", 0, 2, DrillEnd::WriteFault, 0),
    (b"take a\ntake a\n", 0, 3, DrillEnd::WriteFault, 0),
    (b"hop  a\ntake a\n", 2, 2, DrillEnd::Line { number: 1 }, 7),
    (
        b"take a\nhop  a\ntake a\n",
        3,
        2,
        DrillEnd::Line { number: 2 },
        7,
    ),
];

/// The end of a script's drill in which these calls fail, and the number of bytes left.
fn ends_with(alloc: Global, script: &[u8], read: u64, write: u64) -> Option<(DrillEnd, usize)> {
    match (
        script.to_vec(alloc),
        vec![in alloc; 7, 7, 7],
        vec![in alloc; read],
        vec![in alloc; write],
    ) {
        (Ok(bytes), Ok(pieces), Ok(reads), Ok(writes)) => {
            let mut source = MemorySource::of(bytes, pieces, reads);
            let mut sink = MemorySink::of(alloc, Vec::new(alloc), writes);
            let end = drill(alloc, &mut source, &mut sink);
            let left = source.rest().len();
            drop(source);
            drop(sink);
            Some((end, left))
        }
        (bytes, pieces, reads, writes) => {
            drop(bytes);
            drop(pieces);
            drop(reads);
            drop(writes);
            None
        }
    }
}

/// The first row with another end.
fn first_other_fault(alloc: Global, rows: &[(&[u8], u64, u64, DrillEnd, usize)]) -> Option<usize> {
    for (row, (script, read, write, end, left)) in rows.iter().enumerate() {
        if ends_with(alloc, script, *read, *write) != Some((*end, *left)) {
            return Some(row);
        }
    }
    None
}

/// Each fault is reported, and a drill that has ended reads no further.
#[test]
fn a_fault_ends_a_drill(rt: HostRuntime) {
    assert_eq!(rt; first_other_fault(rt.alloc(), &FAULTS), None);
}

//! What the contracts don't cover: that memory suffices. Each line of the grammar, wrong lines, and sources line by
//! line.
use as4_disk::Pick;
use as4_flow::MemorySource;
use drill_script::{
    EndName, LINE_LIMIT, Line, LineGot, LineReader, LinkName, ScriptLoad, Stoppable, Way, line_of,
};
use std::alloc::{AllocError, Global};
use std::test::Fail;

/// A line in a short form.
#[derive(Clone, Copy, Debug, PartialEq, Eq)]
struct Shape {
    kind: u8,
    // Whether it names the endpoint b, or a pull.
    is_second: bool,
    named: usize,
    number: u64,
}

fn shape_of(line: &Line) -> Shape {
    match line {
        Line::Mode {
            name,
            link,
            way,
            period,
            ..
        } => told(
            b'm',
            *way == Way::Pull,
            name.bytes().len().wrapping_add(link_of(*link)),
            *period,
        ),
        Line::Run(line) => run_shape_of(line),
        Line::Ask { end, mode } => told(b'a', is_b(*end), mode.bytes().len(), 0),
        Line::Relay { end, mode } => told(b'y', is_b(*end), mode.bytes().len(), 0),
        Line::Pair { end, mode, number } => told(b'p', is_b(*end), mode.bytes().len(), *number),
        Line::Lost { end, from, package } => told(b'l', is_b(*end), from_of(*from), *package),
        Line::Read { end, number } => told(b'r', is_b(*end), 0, *number),
        Line::Status { end, number } => told(b'u', is_b(*end), 0, *number),
        Line::Crash { end } => told(b'x', is_b(*end), 0, 0),
        Line::Stop { call, pick, line } => stopped_shape(*call, *pick, run_shape_of(line)),
        Line::Fold { end } => told(b'z', is_b(*end), 0, 0),
    }
}

fn run_shape_of(line: &Stoppable) -> Shape {
    match line {
        Stoppable::Submit { end, mode, load } => {
            told(b's', is_b(*end), mode.bytes().len(), weight_of(load))
        }
        Stoppable::Tick { end, moment } => told(b't', is_b(*end), 0, *moment),
        Stoppable::Take { end } => told(b'k', is_b(*end), 0, 0),
        Stoppable::Came { end, from, package } => {
            told(b'c', is_b(*end), from_of(*from), *package)
        }
        Stoppable::Confirm { end, number } => told(b'f', is_b(*end), 0, *number),
    }
}

// The shape of the stopped line, with a capital letter as its kind, and the call and a letter for the pick.
fn stopped_shape(call: u8, pick: Pick, shape: Shape) -> Shape {
    let letter = match pick {
        Pick::Old => b'o',
        Pick::New => b'n',
        Pick::Other => b'x',
    };
    Shape {
        kind: shape.kind.to_ascii_uppercase(),
        named: usize::from(letter),
        number: shape.number.wrapping_mul(10).wrapping_add(u64::from(call)),
        ..shape
    }
}

fn told(kind: u8, is_second: bool, named: usize, number: u64) -> Shape {
    Shape {
        kind,
        is_second,
        named,
        number,
    }
}

// Whether it is the endpoint b, or the last one of a chain.
fn is_b(end: EndName) -> bool {
    end == EndName::B || end == EndName::Last
}

// A number for the endpoint that a package comes from.
fn from_of(from: Option<EndName>) -> usize {
    match from {
        None => 0,
        Some(EndName::A) => 1,
        Some(EndName::B) => 2,
        Some(EndName::First) => 3,
        Some(EndName::Hub) => 4,
        Some(EndName::Last) => 5,
    }
}

// A number for the link of a mode.
fn link_of(link: Option<LinkName>) -> usize {
    match link {
        None => 0,
        Some(LinkName::Front) => 100,
        Some(LinkName::Rear) => 200,
    }
}

// The size of a load, or its last byte.
fn weight_of(load: &ScriptLoad) -> u64 {
    match load {
        ScriptLoad::Nothing => 0,
        ScriptLoad::Hex(bytes) => match bytes.bytes() {
            [] => 1,
            [.., last] => u64::from(*last),
        },
        ScriptLoad::Size(size) => u64::from(*size),
    }
}

/// The shape of the line with these bytes, if they are one.
fn shape_in(alloc: Global, bytes: &[u8]) -> Result<Option<Shape>, Fail> {
    match line_of(alloc, bytes) {
        Ok(Some(line)) => {
            let shape = shape_of(&line);
            drop(line);
            Ok(Some(shape))
        }
        Ok(None) => Ok(None),
        Err(error) => Err(Fail::from(error)),
    }
}

/// Lines, and the fields of their shapes.
const LINES: [(&[u8], u8, bool, usize, u64); 29] = [
    (b"mode m1 push 3 5000", b'm', false, 2, 5_000),
    (b"mode z pull 1000 1000000000", b'm', true, 1, 1_000_000_000),
    (b"submit a m1 none", b's', false, 2, 0),
    (b"submit b m1 hex=", b's', true, 2, 1),
    (b"submit a m1 hex=00ff9a", b's', false, 2, 154),
    (b"submit a m1 size=16777216", b's', false, 2, 16_777_216),
    (
        b"tick a 253402300799999",
        b't',
        false,
        0,
        253_402_300_799_999,
    ),
    (b"take b", b'k', true, 0, 0),
    (b"ask b 0123456789abcdefghijklmnopqrstuv", b'a', true, 32, 0),
    (b"pair b m1 0", b'p', true, 2, 0),
    (b"pair a m 18446744073709551615", b'p', false, 1, u64::MAX),
    (b"came a 18446744073709551615", b'c', false, 0, u64::MAX),
    (b"lost b 0", b'l', true, 0, 0),
    (b"read a 7", b'r', false, 0, 7),
    (b"confirm b 10", b'f', true, 0, 10),
    (b"status a 2", b'u', false, 0, 2),
    (b"crash b", b'x', true, 0, 0),
    (b"stop 1 old take b", b'K', true, 111, 1),
    (b"stop 4 other came a 7", b'C', false, 120, 74),
    (b"stop 2 new submit b m1 size=5", b'S', true, 110, 52),
    (b"stop 3 new confirm a 0", b'F', false, 110, 3),
    (b"fold a", b'z', false, 0, 0),
    (b"mode m fh push 3 1000", b'm', false, 101, 1_000),
    (b"mode n hl pull 3 1000", b'm', true, 201, 1_000),
    (b"relay h n", b'y', false, 1, 0),
    (b"came h f 0", b'c', false, 3, 0),
    (b"came l h 12", b'c', true, 4, 12),
    (b"lost h l 1", b'l', false, 5, 1),
    (b"stop 1 new came f h 2", b'C', false, 110, 21),
];

/// The first row with another shape.
fn first_other(alloc: Global) -> Result<Option<usize>, Fail> {
    for (row, (bytes, kind, is_second, named, number)) in LINES.iter().enumerate() {
        let shape = told(*kind, *is_second, *named, *number);
        if shape_in(alloc, bytes)? != Some(shape) {
            return Ok(Some(row));
        }
    }
    Ok(None)
}

#[test]
fn each_line_of_the_grammar_is_read(rt: HostRuntime) -> Result<(), Fail> {
    assert_eq!(rt; first_other(rt.alloc())?, None);
    Ok(())
}

const WRONG_LINES: [&[u8]; 40] = [
    b"",
    b"take",
    b"take  a",
    b"take a ",
    b"take c",
    b"hop a",
    b"read a 07",
    b"read a +7",
    b"read a -7",
    b"read a ",
    b"read a 7 7",
    b"came a 18446744073709551616",
    b"tick a 253402300800000",
    b"submit a m1 hex=0F",
    b"submit a m1 hex=0ff",
    b"submit a m1 hex",
    b"submit a m1 size=16777217",
    b"mode 0123456789abcdefghijklmnopqrstuvw push 3 5000",
    b"mode M1 push 3 5000",
    b"mode m1 push 1001 5000",
    b"mode m1 push 3 0",
    b"mode m1 push 3 1000000001",
    b"mode m1 hold 3 5000",
    b"pair b m1",
    b"pair b 0",
    b"pair b m1 0x1f",
    b"pair b m1 00",
    b"pair b M1 0",
    b"pair b m1 18446744073709551616",
    b"crash",
    b"crash a 0",
    b"fold c",
    b"stop 0 old take a",
    b"stop 5 old take a",
    b"stop 01 old take a",
    b"stop 1 next take a",
    b"stop 1 old lost a 0",
    b"stop 1 old tick a 253402300800000",
    b"stop 1 old crash a",
    b"stop 1 old stop 1 old take a",
];

/// The first row that is a line.
fn first_line(alloc: Global) -> Result<Option<usize>, Fail> {
    for (row, bytes) in WRONG_LINES.iter().enumerate() {
        if shape_in(alloc, bytes)?.is_some() {
            return Ok(Some(row));
        }
    }
    Ok(None)
}

#[test]
fn what_is_no_line_is_refused(rt: HostRuntime) -> Result<(), Fail> {
    assert_eq!(rt; first_line(rt.alloc())?, None);
    Ok(())
}

/// Adds a letter for the next result, and the line.
fn put_next(
    reader: &mut LineReader,
    source: &mut MemorySource,
    told: &mut Vec<u8>,
) -> Result<(), AllocError> {
    match reader.next(source) {
        LineGot::Line(line) => {
            let put = put_line(told, line.bytes());
            drop(line);
            put
        }
        LineGot::End => told.extend_from_slice(b"e"),
        LineGot::Unended => told.extend_from_slice(b"u"),
        LineGot::TooLong => told.extend_from_slice(b"t"),
        LineGot::Failed => told.extend_from_slice(b"f"),
        LineGot::NoMemory => told.extend_from_slice(b"m"),
    }
}

fn put_line(told: &mut Vec<u8>, line: &[u8]) -> Result<(), AllocError> {
    told.push(b'l')?;
    told.extend_from_slice(line)
}

fn put_answers(
    reader: &mut LineReader,
    source: &mut MemorySource,
    told: &mut Vec<u8>,
    answers: usize,
) -> Result<(), AllocError> {
    for _ in 0..answers {
        put_next(reader, source, told)?;
    }
    Ok(())
}

/// A source of these bytes: first this many pieces of one byte, and then the rest at once. One call fails.
fn source_of(alloc: Global, bytes: &[u8], pieces: usize, fails: u64) -> Option<MemorySource> {
    match (
        bytes.to_vec(alloc),
        vec![in alloc; 1; pieces],
        vec![in alloc; fails],
    ) {
        (Ok(bytes), Ok(sizes), Ok(failing)) => Some(MemorySource::of(bytes, sizes, failing)),
        (bytes, sizes, failing) => {
            drop(bytes);
            drop(sizes);
            drop(failing);
            None
        }
    }
}

/// The first results of the reader for this source.
fn told_by(alloc: Global, mut source: MemorySource, answers: usize) -> Option<Vec<u8>> {
    let mut reader = LineReader::new(alloc);
    let mut told = Vec::new(alloc);
    let put = put_answers(&mut reader, &mut source, &mut told, answers);
    drop(source);
    drop(reader);
    match put {
        Ok(()) => Some(told),
        Err(_) => {
            drop(told);
            None
        }
    }
}

/// Whether these are the first results.
fn is_told(
    alloc: Global,
    source: Option<MemorySource>,
    answers: usize,
    wanted: &[u8],
) -> Option<bool> {
    let told = told_by(alloc, source?, answers)?;
    let is_same = told.as_slice() == wanted;
    drop(told);
    Some(is_same)
}

#[test]
fn a_source_is_read_line_by_line(rt: HostRuntime) {
    // At once, and in pieces of one byte. The second call fails.
    let alloc = rt.alloc();
    let bytes = b"take a\n\nask b m1\ntick";
    let whole = is_told(
        alloc,
        source_of(alloc, bytes, 0, 2),
        6,
        b"ltake allask b m1fuu",
    );
    let pieces = is_told(
        alloc,
        source_of(alloc, bytes, 100, 2),
        6,
        b"fltake allask b m1uu",
    );
    assert_eq!(rt; (whole, pieces), (Some(true), Some(true)));
}

#[test]
fn nothing_has_no_line(rt: HostRuntime) {
    let alloc = rt.alloc();
    let nothing = source_of(alloc, b"", 0, 0);
    assert_eq!(rt; is_told(alloc, nothing, 2, b"ee"), Some(true));
}

/// A source of one line of this length.
fn line_source(alloc: Global, length: usize) -> Option<MemorySource> {
    let mut bytes = vec![in alloc; b'x'; length].ok()?;
    match bytes.push(b'\n') {
        Ok(()) => Some(MemorySource::of(bytes, Vec::new(alloc), Vec::new(alloc))),
        Err(_) => {
            drop(bytes);
            None
        }
    }
}

/// The letter for a line of this length.
fn letter_of(alloc: Global, length: usize) -> Option<u8> {
    let source = line_source(alloc, length)?;
    let told = told_by(alloc, source, 1)?;
    let letter = told.as_slice().first().copied();
    drop(told);
    letter
}

#[test]
fn a_line_has_a_longest_length(rt: HostRuntime) {
    assert_eq!(rt; letter_of(rt.alloc(), LINE_LIMIT), Some(b'l'));
    assert_eq!(rt; letter_of(rt.alloc(), LINE_LIMIT + 1), Some(b't'));
}

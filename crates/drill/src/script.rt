//! A script is read line by line, and each line is played.
ghost use Rattle.std.specs.Prelude.{◌⊎◌, Some, false, true, ◌≡◌, ℕ, [], ◌+◌, ◌<◌, ◌≤◌, List, Option, IsNone, IsTrue, MatchOption, length};
ghost use Rattle.as4_flow.specs.Flow.{Flow, between, flow, Told, before};
ghost use Rattle.drill.specs.Ends.{Ends};
ghost use Rattle.drill.specs.Running.{SoFar};
ghost use Rattle.drill.specs.Playing.{chain_meaning, pair_meaning};
ghost use Rattle.drill_world.specs.Transcript.{lines_limit};
ghost use Rattle.byte_forms.specs.Parted.{parted};
ghost use Rattle.drill_script.specs.LineText.{is_line, line_limit, line_text};

use crate::next::{Next, next_line};
use crate::play::Play;
use as4_flow::{Sink, Source, send_all};
use drill_script::{Line, LineReader};
use drill_world::{DrillState, Refused, a_drill_delivers_once};
use hub_world::{HubState, a_chain_drill_delivers_once};
use std::alloc::Global;

/// The most lines that a script has.
pub const MAX_LINES: u64 = 1_000_000;

const _: () = prove!(MAX_LINES == 1000000);

/// How a drill ends.
#[derive(Clone, Copy, Debug, PartialEq, Eq)]
pub enum DrillEnd {
    /// The script was read to its end, and all that it leads to was written.
    Read,
    /// This line, the first being 1, isn't one of a script, or not in its place.
    Line { number: u64 },
    /// The next line would make event 100,001.
    TooMany,
    /// The source failed.
    ReadFault,
    /// The sink failed.
    WriteFault,
    /// Memory ran out.
    NoMemory,
}

/// Runs the script on a pair of endpoints, and writes a line for each that does something. Where the script ends early, or
/// a fault comes, what the lines before have written stays.
pub fn drill<S: Source, K: Sink>(alloc: Global, source: &mut S, sink: &mut K) -> DrillEnd
    ensures ends { Ends pair_meaning result (between
        (flow (S.left source.old) (K.taken sink.old) (S.faults source.old) (K.faults sink.old))
        (flow (S.left source.new) (K.taken sink.new) (S.faults source.new) (K.faults sink.new))) }
    ensures counted { (S.faults source.old ≤ S.faults source.new) × (K.faults sink.old ≤ K.faults sink.new) }
{
    a_drill_delivers_once();
    match DrillState::new(alloc) {
        Ok(mut state) => {
            let end = run(alloc, source, &mut state, sink);
            drop(state);
            end
        }
        Err(_) => DrillEnd::NoMemory,
    }
}

/// The same on a chain of three endpoints, of which the second is a hub that relays.
pub fn hub_drill<S: Source, K: Sink>(alloc: Global, source: &mut S, sink: &mut K) -> DrillEnd
    ensures ends { Ends chain_meaning result (between
        (flow (S.left source.old) (K.taken sink.old) (S.faults source.old) (K.faults sink.old))
        (flow (S.left source.new) (K.taken sink.new) (S.faults source.new) (K.faults sink.new))) }
    ensures counted { (S.faults source.old ≤ S.faults source.new) × (K.faults sink.old ≤ K.faults sink.new) }
{
    a_chain_drill_delivers_once();
    match HubState::new(alloc) {
        Ok(mut state) => {
            let end = run(alloc, source, &mut state, sink);
            drop(state);
            end
        }
        Err(_) => DrillEnd::NoMemory,
    }
}

// Runs the script from its start.
fn run<P: Play, S: Source, K: Sink>(
    alloc: Global,
    source: &mut S,
    state: &mut P,
    sink: &mut K,
) -> DrillEnd
    requires { state.old ≡ P.first }
    ensures ends { Ends P.Play result (between
        (flow (S.left source.old) (K.taken sink.old) (S.faults source.old) (K.faults sink.old))
        (flow (S.left source.new) (K.taken sink.new) (S.faults source.new) (K.faults sink.new))) }
    ensures counted { (S.faults source.old ≤ S.faults source.new) × (K.faults sink.old ≤ K.faults sink.new) }
{
    state.laws();
    let mut reader = LineReader::new(alloc);
    let end = play_lines(alloc, &mut reader, source, state, sink);
    drop(reader);
    end
}

// Reads, plays and writes line by line, until the drill ends.
fn play_lines<P: Play, S: Source, K: Sink>(
    alloc: Global,
    reader: &mut LineReader,
    source: &mut S,
    state: &mut P,
    sink: &mut K,
) -> DrillEnd
    ensures ends { (start : Flow)
        → SoFar P.Play state.old reader.old 0 start (flow (S.left source.old) (K.taken sink.old) (S.faults source.old) (K.faults sink.old))
        → Ends P.Play result (between start (flow (S.left source.new) (K.taken sink.new) (S.faults source.new) (K.faults sink.new))) }
    ensures counted { (S.faults source.old ≤ S.faults source.new) × (K.faults sink.old ≤ K.faults sink.new) }
{
    let mut played = 0;
    'lines: loop {
        if let Some(end) = play_next(alloc, reader, source, state, sink, played) {
            return end;
        }
        played += 1;
    }
}

// Reads the next line, plays it and writes its text, where so many were played before. It answers how the drill ends, if
// it does here.
fn play_next<P: Play, S: Source, K: Sink>(
    alloc: Global,
    reader: &mut LineReader,
    source: &mut S,
    state: &mut P,
    sink: &mut K,
    played: u64,
) -> Option<DrillEnd>
    requires { played ≤ lines_limit }
    ensures so_far { (start : Flow)
        → SoFar P.Play state.old reader.old played start (flow (S.left source.old) (K.taken sink.old) (S.faults source.old) (K.faults sink.old))
        → let now : Flow = flow (S.left source.new) (K.taken sink.new) (S.faults source.new) (K.faults sink.new) in
        MatchOption result (SoFar P.Play state.new reader.new (played + 1) start now) (λ end. Ends P.Play end (between start now)) }
    ensures more { IsNone result → played < lines_limit }
    ensures counted { (S.faults source.old ≤ S.faults source.new) × (K.faults sink.old ≤ K.faults sink.new) }
{
    state.laws();
    match next_line(alloc, reader, source) {
        Next::Line(line) => play_line(state, &line, sink, played),
        Next::End => Some(finish(state, sink)),
        Next::Outside => Some(DrillEnd::Line { number: played + 1 }),
        Next::Failed => Some(DrillEnd::ReadFault),
        Next::NoMemory => Some(DrillEnd::NoMemory),
    }
}

// Plays a line and writes its text, where so many were played before. It answers how the drill ends, if it does here.
fn play_line<P: Play, K: Sink>(
    state: &mut P,
    line: &Line,
    sink: &mut K,
    played: u64,
) -> Option<DrillEnd>
    requires spelled { IsTrue (is_line line.now) }
    requires short { length (line_text line.now) ≤ line_limit }
    requires few { played ≤ lines_limit }
    ensures so_far { (start : Flow) (held : List ℕ) (left : Option (List ℕ)) (reads : ℕ)
        → SoFar P.Play state.old (parted 10 (line_text line.now) held) played start (flow left (K.taken sink.old) reads (K.faults sink.old))
        → let now : Flow = flow left (K.taken sink.new) reads (K.faults sink.new) in
        MatchOption result (SoFar P.Play state.new held (played + 1) start now) (λ end. Ends P.Play end (between start now)) }
    ensures more { IsNone result → played < lines_limit }
    ensures counted { K.faults sink.old ≤ K.faults sink.new }

    // A line that isn't in its place, or one event too many, is told as such, whether or not memory would suffice.
    ensures wrong { (played ≡ lines_limit) ⊎ (P.right line.now state.old ≡ false)
        → result ≡ Some (DrillEnd.Line (played + 1)) }
    ensures full { played < lines_limit → P.right line.now state.old ≡ true → P.too_many line.now state.old ≡ true
        → result ≡ Some DrillEnd.TooMany }
{
    state.laws();
    if played == MAX_LINES {
        return Some(DrillEnd::Line { number: played + 1 });
    }
    match state.play_line(line) {
        Ok(text) => match send_all(sink, text.bytes()) {
            Ok(()) => None,
            Err(_) => Some(DrillEnd::WriteFault),
        },
        Err(Refused::Wrong) => Some(DrillEnd::Line { number: played + 1 }),
        Err(Refused::TooMany) => Some(DrillEnd::TooMany),
        Err(Refused::NoMemory) => Some(DrillEnd::NoMemory),
    }
}

// Writes the numbers of the endpoints, where nothing is left to read.
fn finish<P: Play, K: Sink>(state: &P, sink: &mut K) -> DrillEnd
    ensures ends { (start : Flow) (held : List ℕ) (count : ℕ) (left : Option (List ℕ)) (reads : ℕ)
        → SoFar P.Play state.now held count start (flow left (K.taken sink.old) reads (K.faults sink.old))
        → Told (before held left) (λ bytes. bytes ≡ [])
        → Ends P.Play result (between start (flow left (K.taken sink.new) reads (K.faults sink.new))) }
    ensures counted { K.faults sink.old ≤ K.faults sink.new }
{
    state.laws();
    match state.last_lines() {
        Ok(text) => match send_all(sink, text.bytes()) {
            Ok(()) => DrillEnd::Read,
            Err(_) => DrillEnd::WriteFault,
        },
        Err(_) => DrillEnd::NoMemory,
    }
}

//! A world that a seed and a count generate, run.
ghost use Rattle.std.specs.Prelude.{◌≡◌, ℕ, ◌+◌, ◌*◌, ◌%◌, ◌≤◌, ◌<◌, ◌∷◌, [], IfOk, IsTrue, None, OnOk, Some, length, true};
ghost use Rattle.drill.specs.Ends.{CountsAt};
ghost use Rattle.drill.specs.Generated.{GeneratedEnds, IsGenerated, Leads, PlaysRound, Rounds, TakesAll, carried, carried_both, counted, invoice, next_number, size_by, submissions, ticks_a};
ghost use Rattle.drill.specs.Generating.{Grows, IsPushed, PlaysTransmission, handed, to_push};
ghost use Rattle.drill_world.specs.Transcript.{DrillState as StateValue, events_limit, is_right, new_state};
ghost use Rattle.drill_script.specs.LineText.{is_line, line_limit, line_text};
ghost use Rattle.drill_script.specs.Scripts.{is_of_pair};
ghost use Rattle.drill_script.specs.declared.line.EndName.TheVariants as name;
ghost use Rattle.drill_script.specs.declared.line.Line.TheVariants as line;
ghost use Rattle.drill_script.specs.declared.line.Stoppable.TheVariants as run;
ghost use Rattle.drill_script.specs.declared.line.ScriptLoad.TheVariants.{Size as Sized};
ghost use Rattle.drill_script.specs.declared.line.Way.TheVariants.{Push as Pushed};

use crate::script::DrillEnd;
use as4_flow::{Sink, send_all};
use as4_values::{NoMemory, Octets};
use drill_script::{EndName, Line, ScriptLoad, Stoppable, Way};
use drill_world::{DrillState, Refused, a_drill_delivers_once};
use std::alloc::Global;

// The line is played, where the script may still make an event.
fn play_one(state: &mut DrillState, line: Line) -> Result<(), NoMemory>
    requires spelled { IsTrue (is_line line) }
    requires short { length (line_text line) ≤ line_limit }
    requires right { is_right line state.old ≡ true }
    requires few { state.old.events < events_limit }
    ensures { OnOk result (Leads (line ∷ []) state.old state.new) }
{
    let played = state.play(&line);
    drop(line);
    match played {
        Ok(text) => {
            drop(text);
            Ok(())
        }
        Err(Refused::NoMemory) => Err(NoMemory),
        Err(Refused::Wrong) => unreachable!(),
        Err(Refused::TooMany) => unreachable!(),
    }
}

// The package of this place is carried to the end, by the rule of the counter.
fn carry(state: &mut DrillState, counter: u64, end: EndName, place: u64) -> Result<(), NoMemory>
    requires few { state.old.events + 2 ≤ events_limit }
    requires pair { is_of_pair end ≡ true }
    ensures { OnOk result (Leads (carried counter end place) state.old state.new) }
{
    if counter % 3 == 2 {
        return Ok(());
    }
    play_one(
        state,
        Line::Run(Stoppable::Came {
            end,
            from: None,
            package: place,
        }),
    )?;
    if counter % 5 == 4 {
        play_one(
            state,
            Line::Lost {
                end,
                from: None,
                package: place,
            },
        )
    } else {
        Ok(())
    }
}

// A package is carried, and what is answered to it.
fn carry_both(state: &mut DrillState, counter: u64, place: u64, answer: u64) -> Result<(), NoMemory>
    requires counter { counter < 1000000 }
    requires few { state.old.events + 4 ≤ events_limit }
    ensures { OnOk result (Leads (carried_both counter place answer) state.old state.new) }
{
    if counter % 3 == 2 {
        return Ok(());
    }
    carry(state, counter, EndName::B, place)?;
    carry(state, counter + 1, EndName::A, answer)
}

// The counter behind a package.
fn next_counter(counter: u64) -> u64
    requires { counter < 1000000 }
    ensures { result ≡ counted counter }
{
    if counter % 3 == 2 {
        counter + 1
    } else {
        counter + 2
    }
}

// End a takes what it has to push. It answers whether a message was pushed.
fn take_one(state: &mut DrillState) -> Result<bool, NoMemory>
    requires { state.old.events < events_limit }
    ensures { IfOk result (λ pushed. Leads (line.Run (run.Take name.A) ∷ []) state.old state.new × IsPushed pushed state.old.world.left.end) }
{
    let before = state.said(EndName::A);
    play_one(state, Line::Run(Stoppable::Take { end: EndName::A }))?;
    Ok(state.said(EndName::A) != before)
}

// A transmission of the counter is played, if something is pushed. It answers the counter behind it.
fn play_transmission(state: &mut DrillState, counter: u64) -> Result<Option<u64>, NoMemory>
    requires counter { counter ≤ 2 * state.old.events }
    requires few { state.old.events + 5 * to_push state.old.world.left.end < events_limit }
    ensures { IfOk result (PlaysTransmission counter state.old state.new) }
{
    let place = state.said(EndName::A);
    let answer = state.said(EndName::B);
    let pushed = take_one(state)?;
    if pushed {
        carry_both(state, counter, place, answer)?;
        Ok(Some(next_counter(counter)))
    } else {
        Ok(None)
    }
}

// End a takes until nothing is pushed. It answers the counter behind the last.
fn take_all(state: &mut DrillState, counter: u64) -> Result<u64, NoMemory>
    requires counter { counter ≤ 2 * state.old.events }
    requires few { state.old.events + 5 * to_push state.old.world.left.end < events_limit }
    ensures counter { IfOk result (λ later. later ≤ 2 * state.new.events) }
    ensures takes { IfOk result (λ later. (takes : ℕ) × TakesAll takes counter state.old later state.new) }
    ensures grows { OnOk result (Grows (5 * to_push state.old.world.left.end + 1) 0 state.old state.new) }
{
    let mut now = counter;
    'takes: loop {
        match play_transmission(state, now)? {
            Some(later) => now = later,
            None => return Ok(now),
        }
    }
}

// The clock of end a is set.
fn tick(state: &mut DrillState, moment: u64) -> Result<(), NoMemory>
    requires dated { moment ≤ 33000 }
    requires few { state.old.events < events_limit }
    ensures { OnOk result (Leads (ticks_a moment) state.old state.new) }
{
    play_one(
        state,
        Line::Run(Stoppable::Tick {
            end: EndName::A,
            moment,
        }),
    )
}

// One round. It answers the counter behind it.
fn play_round(state: &mut DrillState, round: u64, counter: u64) -> Result<u64, NoMemory>
    requires rounds { round ≤ 11 }
    requires counter { counter ≤ 2 * state.old.events }
    requires handed { handed state.old ≤ 1000 }
    requires few { state.old.events + 5002 ≤ events_limit }
    ensures counter { IfOk result (λ later. later ≤ 2 * state.new.events) }
    ensures plays { IfOk result (λ later. PlaysRound round counter state.old later state.new) }
    ensures grows { OnOk result (Grows 5002 0 state.old state.new) }
{
    tick(state, 3000 * round)?;
    take_all(state, counter)
}

// All rounds, the first at 0.
fn play_rounds(state: &mut DrillState) -> Result<(), NoMemory>
    requires handed { handed state.old ≤ 1000 }
    requires few { state.old.events ≤ 1000 }
    ensures rounds { OnOk result (Rounds 11 0 0 state.old state.new) }
    ensures few { OnOk result (state.new.events ≤ 1000 + 11 * 5002) }
{
    let mut counter = 0;
    let mut round = 0;
    'rounds: while round < 11 {
        let later = play_round(state, round, counter)?;
        counter = later;
        round += 1;
    }
    Ok(())
}

// The number behind another.
fn number_after(number: u64) -> u64
    ensures { result ≡ next_number number }
{
    number
        .wrapping_mul(6_364_136_223_846_793_005)
        .wrapping_add(1_442_695_040_888_963_407)
}

// How many bytes the message of this number has.
fn size_of(seed: u64, number: u64) -> u32
    ensures value { result ≡ size_by seed number }
    ensures small { result ≤ 40960 }
{
    if seed == 0 {
        return 40960;
    }
    ((number >> 33) % 40961) as u32
}

// The name of the mode.
fn invoice_name(alloc: Global) -> Result<Octets, NoMemory>
    ensures { IfOk result (λ name. name ≡ invoice) }
{
    Ok(Octets::of(Vec::from_slice(alloc, b"invoice")?))
}

// Both ends get the mode.
fn name_mode(alloc: Global, state: &mut DrillState) -> Result<(), NoMemory>
    requires { state.old ≡ new_state }
    ensures { OnOk result (Leads (line.Mode invoice None Pushed 10 3000 ∷ []) state.old state.new) }
{
    let name = invoice_name(alloc)?;
    let line = Line::Mode {
        name,
        link: None,
        way: Way::Push,
        retries: 10,
        period: 3000,
    };
    play_one(state, line)
}

// End a submits a message of so many bytes.
fn submit_one(alloc: Global, state: &mut DrillState, size: u32) -> Result<(), NoMemory>
    requires small { size ≤ 40960 }
    requires few { state.old.events < events_limit }
    ensures { OnOk result (Leads (line.Run (run.Submit name.A invoice (Sized size)) ∷ []) state.old state.new) }
{
    let mode = invoice_name(alloc)?;
    play_one(
        state,
        Line::Run(Stoppable::Submit {
            end: EndName::A,
            mode,
            load: ScriptLoad::Size(size),
        }),
    )
}

// End a submits so many messages.
fn submit_all(alloc: Global, state: &mut DrillState, seed: u64, count: u64) -> Result<(), NoMemory>
    requires { state.old.events + count ≤ events_limit }
    ensures leads { OnOk result (Leads (submissions seed seed count) state.old state.new) }
    ensures grows { OnOk result (Grows count count state.old state.new) }
{
    let mut number = seed;
    let mut sent = 0;
    'messages: while sent < count {
        let next = number_after(number);
        let size = size_of(seed, next);
        submit_one(alloc, state, size)?;
        number = next;
        sent += 1;
    }
    Ok(())
}

// The mode is named and all is submitted.
fn prepare(alloc: Global, state: &mut DrillState, seed: u64, count: u64) -> Result<(), NoMemory>
    requires new { state.old ≡ new_state }
    requires few { count ≤ 1000 }
    ensures leads { OnOk result (Leads (line.Mode invoice None Pushed 10 3000 ∷ submissions seed seed count) state.old state.new) }
    ensures grows { OnOk result (Grows count count state.old state.new) }
{
    name_mode(alloc, state)?;
    submit_all(alloc, state, seed, count)
}

// All lines of the generated world are played.
fn run(alloc: Global, state: &mut DrillState, seed: u64, count: u64) -> Result<(), NoMemory>
    requires new { state.old ≡ new_state }
    requires few { count ≤ 1000 }
    ensures { OnOk result (IsGenerated seed count state.new) }
{
    prepare(alloc, state, seed, count)?;
    run_on(state)
}

// All rounds are played, and the last tick.
fn run_on(state: &mut DrillState) -> Result<(), NoMemory>
    requires handed { handed state.old ≤ 1000 }
    requires few { state.old.events ≤ 1000 }
    ensures { OnOk result ((done : StateValue) × Rounds 11 0 0 state.old done × Leads (ticks_a 33000) done state.new) }
{
    play_rounds(state)?;
    tick(state, 33000)
}

/// Runs the world of a seed and a count, at most 1,000: end a submits so many messages and pushes each over a network
/// that loses some and repeats some. Writes the numbers of both ends.
pub fn generate<K: Sink>(alloc: Global, seed: u64, count: u64, sink: &mut K) -> DrillEnd
    requires { count ≤ 1000 }
    ensures ends { GeneratedEnds seed count result (record {
      left = None;
      rest = None;
      taken = K.taken sink.old;
      later = K.taken sink.new;
      read_faults = 0;
      later_read_faults = 0;
      write_faults = K.faults sink.old;
      later_write_faults = K.faults sink.new;
    }) }
    ensures counted { K.faults sink.old ≤ K.faults sink.new }
{
    match DrillState::new(alloc) {
        Ok(mut state) => {
            let end = generate_on(alloc, &mut state, seed, count, sink);
            drop(state);
            end
        }
        Err(_) => DrillEnd::NoMemory,
    }
}

// The same, on a new state.
fn generate_on<K: Sink>(
    alloc: Global,
    state: &mut DrillState,
    seed: u64,
    count: u64,
    sink: &mut K,
) -> DrillEnd
    requires few { count ≤ 1000 }
    requires new { state.old ≡ new_state }
    ensures ends { GeneratedEnds seed count result (record {
      left = None;
      rest = None;
      taken = K.taken sink.old;
      later = K.taken sink.new;
      read_faults = 0;
      later_read_faults = 0;
      write_faults = K.faults sink.old;
      later_write_faults = K.faults sink.new;
    }) }
    ensures counted { K.faults sink.old ≤ K.faults sink.new }
{
    match run(alloc, state, seed, count) {
        Ok(()) => write_ends(state, sink),
        Err(_) => DrillEnd::NoMemory,
    }
}

// Writes the numbers of both ends.
fn write_ends<K: Sink>(state: &DrillState, sink: &mut K) -> DrillEnd
    ensures ends { (seed count : ℕ) → IsGenerated seed count state.now → GeneratedEnds seed count result (record {
      left = None;
      rest = None;
      taken = K.taken sink.old;
      later = K.taken sink.new;
      read_faults = 0;
      later_read_faults = 0;
      write_faults = K.faults sink.old;
      later_write_faults = K.faults sink.new;
    }) }
    ensures counted { K.faults sink.old ≤ K.faults sink.new }
{
    a_drill_delivers_once();
    match state.end_lines() {
        Ok(text) => match send_all(sink, text.bytes()) {
            Ok(()) => DrillEnd::Read,
            Err(_) => DrillEnd::WriteFault,
        },
        Err(_) => DrillEnd::NoMemory,
    }
}

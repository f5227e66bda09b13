//! The drawing of a drill: the lines of its script, and what the drill wrote for each.

use crate::drawing::{Anchor, Drawing, Lane, Place};
use crate::flights::{Fate, Flight, Flights};
use crate::played::{
    Endpoint, Kind, Played, Stopped, first_word, is_silent, package_of, played_of, said_of,
    stopped_of,
};
use crate::strokes::{Ending, Stroke};
use as4_values::NoMemory;
use byte_forms::{cut_at, strip_prefix};
use std::alloc::Global;

/// Where the lifelines are, and the middle of the network between the endpoints.
const APPLICATION_A: u16 = 90;

const ENDPOINT_A: u16 = 530;

const MIDDLE: u16 = 690;

const ENDPOINT_B: u16 = 850;

const APPLICATION_B: u16 = 1290;

const WIDTH: u16 = 1380;

const LANES: [Lane; 4] = [
    Lane {
        x: APPLICATION_A,
        name: "application at a",
    },
    Lane {
        x: ENDPOINT_A,
        name: "endpoint a",
    },
    Lane {
        x: ENDPOINT_B,
        name: "endpoint b",
    },
    Lane {
        x: APPLICATION_B,
        name: "application at b",
    },
];

/// The numbers at the end of a drill, in their order.
const TOTALS: [&[u8]; 5] = [
    b" submitted, ",
    b" receipted, ",
    b" failed, ",
    b" refused, ",
    b" in the inbox",
];

/// Draws the script of a drill with what the drill wrote for it: a line for each line of the script but its modes, and
/// the numbers of both endpoints. The drawing ends where the drill did.
pub fn draw_drill(alloc: Global, script: &[u8], transcript: &[u8]) -> Result<Vec<u8>, NoMemory> {
    let mut pen = Pen {
        alloc,
        drawing: Drawing::new(alloc, WIDTH),
        flights: Flights::new(alloc),
    };
    let mut rest = transcript;
    for line in script.split(|byte| *byte == b'\n') {
        if is_silent(line) {
            continue;
        }
        let Some((reply, replies)) = cut_at(b'\n', rest) else {
            break;
        };
        pen.play(line, reply)?;
        rest = replies;
    }
    pen.finish(rest)
}

/// The drawing, and the packages that were sent so far.
#[derive(Drop)]
struct Pen {
    alloc: Global,
    drawing: Drawing,
    flights: Flights,
}

impl Pen {
    fn play(&mut self, line: &[u8], reply: &[u8]) -> Result<(), NoMemory> {
        let Some((_, said)) = said_of(reply) else {
            return Ok(());
        };
        if let Some(stopped) = stopped_of(line) {
            return self.play_stopped(&stopped, said);
        }
        match played_of(line) {
            Some(played) => self.play_line(&played, said),
            None => Ok(()),
        }
    }

    // A line that is stopped is a note; a package that comes in arrives.
    fn play_stopped(&mut self, stopped: &Stopped, said: &[u8]) -> Result<(), NoMemory> {
        let played = &stopped.line;
        let Some(row) = self.begin(played)? else {
            return Ok(());
        };
        let label = stop_label(self.alloc, stopped, said)?;
        self.note(played.end, row, label.as_slice())
    }

    fn play_line(&mut self, played: &Played, said: &[u8]) -> Result<(), NoMemory> {
        let Some(row) = self.begin(played)? else {
            return Ok(());
        };
        let label = label_of(self.alloc, played, said)?;
        self.draw(played, row, label.as_slice(), said)
    }

    // The row of a line. A package that comes in arrives there.
    fn begin(&mut self, played: &Played) -> Result<Option<u8>, NoMemory> {
        let row = self.drawing.next_row();
        if played.kind() == Kind::Meets {
            self.arrive(played.end, played.word, row)?;
        }
        Ok(row)
    }

    fn draw(
        &mut self,
        played: &Played,
        row: u8,
        label: &[u8],
        said: &[u8],
    ) -> Result<(), NoMemory> {
        let end = played.end;
        let (application, endpoint) = (application_of(end), endpoint_of(end));
        match played.kind() {
            Kind::Submits => self
                .drawing
                .arrow(Stroke::Submit, row, application, endpoint, label),
            Kind::Confirms => self
                .drawing
                .arrow(Stroke::Local, row, application, endpoint, label),
            Kind::Reads => self
                .drawing
                .arrow(Stroke::Local, row, endpoint, application, label),
            Kind::Sends | Kind::Meets => self.send(end, row, label, said),
            Kind::Notes => self.note(end, row, label),
        }
    }

    fn note(&mut self, end: Endpoint, row: u8, label: &[u8]) -> Result<(), NoMemory> {
        self.drawing
            .note(outward(end), endpoint_of(end), row, label)
    }

    // Draws the package of the other endpoint that comes in, if it was drawn when it was sent.
    fn arrive(&mut self, end: Endpoint, word: &[u8], row: Option<u8>) -> Result<(), NoMemory> {
        let Some(number) = package_of(word) else {
            return Ok(());
        };
        match (self.flights.arrive(end.other(), number, row), row) {
            (Some(flight), Some(row)) => {
                let from = Place::leaving(endpoint_of(end.other()), flight.row);
                let to = Place::arriving(endpoint_of(end), row);
                self.drawing.stroke(flight.stroke, Ending::Head, from, to)
            }
            _ => Ok(()),
        }
    }

    // Draws what a line that may send a package led to. The label stands outside of the network, where no stroke crosses it.
    fn send(&mut self, end: Endpoint, row: u8, label: &[u8], said: &[u8]) -> Result<(), NoMemory> {
        self.drawing
            .label_at(outward(end), endpoint_of(end), row, label)?;
        if let Some(sent) = strip_prefix(b"sent ", said) {
            let (_, summary) = first_word(sent);
            return self.flights.send(end, row, stroke_of(summary));
        }
        match strip_prefix(b"lost ", said) {
            Some(summary) => self.lose(end, row, stroke_of(summary)),
            None => Ok(()),
        }
    }

    // Draws a reply that is lost.
    fn lose(&mut self, end: Endpoint, row: u8, stroke: Stroke) -> Result<(), NoMemory> {
        let from = Place::leaving(endpoint_of(end), row);
        let to = Place::arriving(MIDDLE, row.saturating_add(1));
        self.drawing.stroke(stroke, Ending::Cross, from, to)
    }

    // Draws the packages that didn't arrive, and the numbers at the end.
    fn finish(mut self, totals: &[u8]) -> Result<Vec<u8>, NoMemory> {
        self.end_flights(Endpoint::A)?;
        self.end_flights(Endpoint::B)?;
        for line in totals.split(|byte| *byte == b'\n').take(2) {
            self.add_totals(line)?;
        }
        let Pen {
            alloc: _,
            drawing,
            flights,
        } = self;
        drop(flights);
        drawing.finish("Drill", &LANES)
    }

    fn end_flights(&mut self, end: Endpoint) -> Result<(), NoMemory> {
        let mut spot: u8 = 0;
        for flight in self.flights.of(end) {
            spot = spot % 9 + 1;
            let to = Place::arriving(spot_of(end, spot), self.drawing.last_row());
            end_flight(&mut self.drawing, flight, endpoint_of(end), to)?;
        }
        Ok(())
    }

    fn add_totals(&mut self, line: &[u8]) -> Result<(), NoMemory> {
        let Some((end, said)) = said_of(line) else {
            return Ok(());
        };
        let Some(numbers) = strip_prefix(b"end ", said) else {
            return Ok(());
        };
        let label = totals_label(self.alloc, numbers)?;
        let row = self.drawing.last_row().saturating_add(1);
        self.note(end, row, label.as_slice())
    }
}

/// Draws a package that didn't arrive, from its endpoint to this place.
fn end_flight(drawing: &mut Drawing, flight: &Flight, x: u16, to: Place) -> Result<(), NoMemory> {
    let from = Place::leaving(x, flight.row);
    match flight.fate {
        Fate::Lost => drawing.stroke(flight.stroke, Ending::Cross, from, to),
        Fate::Later => drawing.stroke(flight.stroke, Ending::Open, from, to),
        Fate::Arrived => Ok(()),
    }
}

/// Where a package that didn't arrive ends: spots side by side, so that crosses don't hide each other.
fn spot_of(end: Endpoint, spot: u8) -> u16 {
    match end {
        Endpoint::A => MIDDLE - 14 * (spot as u16 % 10),
        Endpoint::B => MIDDLE + 14 * (spot as u16 % 10),
    }
}

fn application_of(end: Endpoint) -> u16 {
    match end {
        Endpoint::A => APPLICATION_A,
        Endpoint::B => APPLICATION_B,
    }
}

fn endpoint_of(end: Endpoint) -> u16 {
    match end {
        Endpoint::A => ENDPOINT_A,
        Endpoint::B => ENDPOINT_B,
    }
}

/// How a text stands that is at the endpoint and outside of the network.
fn outward(end: Endpoint) -> Anchor {
    match end {
        Endpoint::A => Anchor::Right,
        Endpoint::B => Anchor::Left,
    }
}

/// How a message is drawn that the drill summarizes so.
fn stroke_of(summary: &[u8]) -> Stroke {
    match first_word(summary).0 {
        b"receipt" => Stroke::Receipt,
        b"error" => Stroke::Fault,
        b"pull" | b"pair" => Stroke::Pull,
        _ => Stroke::User,
    }
}

/// The line's verb and word, and what the drill wrote.
fn label_of(alloc: Global, played: &Played, said: &[u8]) -> Result<Vec<u8>, NoMemory> {
    let mut label = Vec::new(alloc);
    add_label(&mut label, played, said)?;
    Ok(label)
}

/// The same, after the words of the stop.
fn stop_label(alloc: Global, stopped: &Stopped, said: &[u8]) -> Result<Vec<u8>, NoMemory> {
    let mut label = Vec::from_slice(alloc, b"stop ")?;
    label.extend_from_slice(stopped.call)?;
    label.push(b' ')?;
    label.extend_from_slice(stopped.pick)?;
    label.push(b' ')?;
    add_label(&mut label, &stopped.line, said)?;
    Ok(label)
}

fn add_label(label: &mut Vec<u8>, played: &Played, said: &[u8]) -> Result<(), NoMemory> {
    label.extend_from_slice(played.verb)?;
    if !played.word.is_empty() {
        label.push(b' ')?;
        label.extend_from_slice(played.word)?;
    }
    label.extend_from_slice(b": ")?;
    label.extend_from_slice(said)?;
    Ok(())
}

/// The numbers, each with its name.
fn totals_label(alloc: Global, numbers: &[u8]) -> Result<Vec<u8>, NoMemory> {
    let mut label = Vec::new(alloc);
    let mut rest = numbers;
    for name in TOTALS {
        let (number, numbers) = first_word(rest);
        label.extend_from_slice(number)?;
        label.extend_from_slice(name)?;
        rest = numbers;
    }
    Ok(label)
}

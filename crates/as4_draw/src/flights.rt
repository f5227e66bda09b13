//! The packages that the endpoints of a drill sent, and what became of them.

use crate::played::Endpoint;
use crate::strokes::Stroke;
use as4_values::NoMemory;
use std::alloc::Global;

/// What became of a package.
#[derive(Clone, Copy, Debug, PartialEq, Eq)]
pub(crate) enum Fate {
    /// It hasn't come.
    Lost,
    /// It came, and its stroke is drawn.
    Arrived,
    /// It came after the last event that is drawn.
    Later,
}

/// A package that was sent in a row of the drawing.
#[derive(Clone, Copy, Debug)]
pub(crate) struct Flight {
    pub(crate) row: u8,
    pub(crate) stroke: Stroke,
    pub(crate) fate: Fate,
}

/// The packages of each endpoint, by their numbers.
#[derive(Drop)]
pub(crate) struct Flights {
    a: Vec<Flight>,
    b: Vec<Flight>,
}

impl Flights {
    pub(crate) fn new(alloc: Global) -> Flights {
        Flights {
            a: Vec::new(alloc),
            b: Vec::new(alloc),
        }
    }

    /// The packages of this endpoint.
    pub(crate) fn of(&self, end: Endpoint) -> &[Flight] {
        match end {
            Endpoint::A => self.a.as_slice(),
            Endpoint::B => self.b.as_slice(),
        }
    }

    /// Adds the next package of this endpoint.
    pub(crate) fn send(&mut self, end: Endpoint, row: u8, stroke: Stroke) -> Result<(), NoMemory> {
        let flight = Flight {
            row,
            stroke,
            fate: Fate::Lost,
        };
        match end {
            Endpoint::A => self.a.push(flight)?,
            Endpoint::B => self.b.push(flight)?,
        }
        Ok(())
    }

    /// The package of this endpoint and number, which comes in this row, or in none. None if no such package is drawn.
    pub(crate) fn arrive(
        &mut self,
        end: Endpoint,
        number: usize,
        row: Option<u8>,
    ) -> Option<Flight> {
        match end {
            Endpoint::A => arrive_among(&mut self.a, number, row),
            Endpoint::B => arrive_among(&mut self.b, number, row),
        }
    }
}

fn arrive_among(flights: &mut Vec<Flight>, number: usize, row: Option<u8>) -> Option<Flight> {
    if number >= flights.len() {
        return None;
    }
    let mut flight = flights[number];
    flight.fate = fate_after(flight.fate, row);
    flights[number] = flight;
    Some(flight)
}

/// What became of a package that comes in this row, or in none. A stroke that is drawn stays.
fn fate_after(fate: Fate, row: Option<u8>) -> Fate {
    match (fate, row) {
        (_, Some(_)) => Fate::Arrived,
        (Fate::Lost, None) => Fate::Later,
        (fate, None) => fate,
    }
}

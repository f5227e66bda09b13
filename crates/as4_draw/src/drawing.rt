//! A drawing: lifelines that go down, and below their names a row for each event.
//!
//!     names
//!     a note on what comes before the events
//!     row 0      an arriving stroke ends, a note or a label stands, a leaving stroke starts
//!     row 1      the same, and so on
//!     ..
//!     the rows that end the drawing

use crate::escaped::{MAX_SHOWN, add_escaped};
use crate::strokes::{Ending, STYLES, Stroke};
use as4_values::NoMemory;
use std::alloc::Global;

/// The maximum number of events that are drawn.
pub(crate) const MAX_EVENTS: u8 = 200;

/// Where the first row starts, in pixels from the top.
const FIRST_ROW: u16 = 72;

const ROW_HEIGHT: u16 = 30;

/// Where the names and the lifelines start.
const NAME_BASE: u16 = 24;

const LIFE_START: u16 = 34;

/// The places in a row, in pixels below its start.
const ARRIVAL: u8 = 3;

const NOTE_TOP: u8 = 1;

const BASE: u8 = 14;

const DEPARTURE: u8 = 18;

/// How high the end of the drawing is, below the rows of the events.
const END_HEIGHT: u8 = 60;

/// About how wide a character is, in pixels.
const CHARACTER: u16 = 6;

/// A lifeline.
#[derive(Clone, Copy, Debug)]
pub(crate) struct Lane {
    pub(crate) x: u16,
    pub(crate) name: &'static str,
}

/// A place on a lifeline, where a stroke starts or ends.
#[derive(Clone, Copy, Debug)]
pub(crate) struct Place {
    x: u16,
    y: u16,
}

impl Place {
    /// Where a stroke that arrives in this row ends.
    pub(crate) fn arriving(x: u16, row: u8) -> Place {
        Place {
            x,
            y: y_of(row, ARRIVAL),
        }
    }

    /// Where a stroke that leaves in this row starts.
    pub(crate) fn leaving(x: u16, row: u8) -> Place {
        Place {
            x,
            y: y_of(row, DEPARTURE),
        }
    }
}

/// Where a text stands, compared with its place.
#[derive(Clone, Copy, Debug, PartialEq, Eq)]
pub(crate) enum Anchor {
    Left,
    Right,
    Centre,
}

impl Anchor {
    fn class(self) -> &'static str {
        match self {
            Anchor::Left => "left",
            Anchor::Right => "right",
            Anchor::Centre => "centre",
        }
    }
}

/// A drawing, as far as it is made.
#[derive(Drop)]
pub(crate) struct Drawing {
    alloc: Global,
    strokes: Vec<u8>,
    // The notes and the texts, which stand above the strokes.
    texts: Vec<u8>,
    width: u16,
    events: u8,
    // The number of events that aren't drawn.
    more: u64,
}

impl Drawing {
    /// A drawing without events, at least this wide.
    pub(crate) fn new(alloc: Global, width: u16) -> Drawing {
        Drawing {
            alloc,
            strokes: Vec::new(alloc),
            texts: Vec::new(alloc),
            width,
            events: 0,
            more: 0,
        }
    }

    /// The row of the next event; None if it is only counted.
    pub(crate) fn next_row(&mut self) -> Option<u8> {
        if self.events >= MAX_EVENTS {
            self.more = self.more.saturating_add(1);
            return None;
        }
        let row = self.events;
        self.events += 1;
        Some(row)
    }

    /// The row after those of the events.
    pub(crate) fn last_row(&self) -> u8 {
        self.events
    }

    pub(crate) fn stroke(
        &mut self,
        stroke: Stroke,
        ending: Ending,
        from: Place,
        to: Place,
    ) -> Result<(), NoMemory> {
        let (class, end) = (stroke.class(), ending.class());
        let (x1, y1, x2, y2) = (from.x, from.y, to.x, to.y);
        let line = format!(in self.alloc;
            "<line class=\"{class}{end}\" x1=\"{x1}\" y1=\"{y1}\" x2=\"{x2}\" y2=\"{y2}\"/>\n"
        )?;
        self.strokes.extend_from_slice(line.as_bytes())?;
        Ok(())
    }

    /// Adds an arrow that leaves and arrives in one row, and its label.
    pub(crate) fn arrow(
        &mut self,
        stroke: Stroke,
        row: u8,
        from: u16,
        to: u16,
        label: &[u8],
    ) -> Result<(), NoMemory> {
        let (start, end) = (Place::leaving(from, row), Place::leaving(to, row));
        self.stroke(stroke, Ending::Head, start, end)?;
        self.label(Anchor::Left, from.min(to).saturating_add(14), row, label)
    }

    // Adds a text in this row.
    fn label(&mut self, anchor: Anchor, x: u16, row: u8, text: &[u8]) -> Result<(), NoMemory> {
        if anchor == Anchor::Left {
            self.reach(x, text);
        }
        self.text(anchor.class(), x, y_of(row, BASE), text)
    }

    /// Adds a moment at the left of this row.
    pub(crate) fn moment(&mut self, row: u8, text: &[u8]) -> Result<(), NoMemory> {
        self.text("moment", 10, y_of(row, BASE), text)
    }

    /// Adds a note to the lifeline at this place, in this row. It starts there, ends there, or has it in its centre.
    pub(crate) fn note(
        &mut self,
        anchor: Anchor,
        x: u16,
        row: u8,
        text: &[u8],
    ) -> Result<(), NoMemory> {
        self.sticker(anchor, x, y_of(row, NOTE_TOP), text)?;
        self.label_at(anchor, x, row, text)
    }

    /// Adds a text to the lifeline at this place, in this row.
    pub(crate) fn label_at(
        &mut self,
        anchor: Anchor,
        x: u16,
        row: u8,
        text: &[u8],
    ) -> Result<(), NoMemory> {
        let x = match anchor {
            Anchor::Left => x.saturating_add(8),
            Anchor::Right => x.saturating_sub(8),
            Anchor::Centre => x,
        };
        self.label(anchor, x, row, text)
    }

    /// Adds a note above the rows.
    pub(crate) fn first_note(&mut self, x: u16, text: &[u8]) -> Result<(), NoMemory> {
        self.sticker(Anchor::Centre, x, FIRST_ROW - 28, text)?;
        self.text("centre", x, FIRST_ROW - 15, text)
    }

    /// The document, with these lifelines below the rest.
    pub(crate) fn finish(mut self, title: &str, lanes: &[Lane]) -> Result<Vec<u8>, NoMemory> {
        self.add_more()?;
        let Drawing {
            alloc,
            strokes,
            texts,
            width,
            events,
            more: _,
        } = self;
        let bottom = y_of(events, END_HEIGHT);
        let mut out = head(alloc, title, width, bottom)?;
        for lane in lanes {
            add_lane(alloc, &mut out, *lane, bottom)?;
        }
        out.extend_from_slice(strokes.as_slice())?;
        out.extend_from_slice(texts.as_slice())?;
        out.extend_from_slice(b"</svg>\n")?;
        Ok(out)
    }

    // Adds the line that counts the events that aren't drawn.
    fn add_more(&mut self) -> Result<(), NoMemory> {
        if self.more == 0 {
            return Ok(());
        }
        let more = self.more;
        let line = format!(in self.alloc; "... and {more} more")?;
        self.text("left", 10, y_of(self.events, BASE), line.as_bytes())
    }

    // Makes the drawing wide enough for a text that starts here.
    fn reach(&mut self, x: u16, text: &[u8]) {
        let end = x.saturating_add(width_of(text));
        self.width = self.width.max(end);
    }

    fn sticker(&mut self, anchor: Anchor, x: u16, y: u16, text: &[u8]) -> Result<(), NoMemory> {
        let width = width_of(text);
        let left = match anchor {
            Anchor::Left => x,
            Anchor::Right => x.saturating_sub(width),
            Anchor::Centre => x.saturating_sub(width / 2),
        };
        let element = format!(in self.alloc;
            "<rect class=\"note\" x=\"{left}\" y=\"{y}\" width=\"{width}\" height=\"18\"/>\n"
        )?;
        self.texts.extend_from_slice(element.as_bytes())?;
        Ok(())
    }

    fn text(&mut self, class: &str, x: u16, y: u16, text: &[u8]) -> Result<(), NoMemory> {
        let start = format!(in self.alloc; "<text class=\"{class}\" x=\"{x}\" y=\"{y}\">")?;
        self.texts.extend_from_slice(start.as_bytes())?;
        add_escaped(&mut self.texts, text)?;
        self.texts.extend_from_slice(b"</text>\n")?;
        Ok(())
    }
}

/// The pixel that is this far below the start of a row.
fn y_of(row: u8, below: u8) -> u16 {
    FIRST_ROW + ROW_HEIGHT * row as u16 + below as u16
}

/// About how wide a text is, with some space.
fn width_of(text: &[u8]) -> u16 {
    let len = text.len().min(MAX_SHOWN) as u16;
    CHARACTER * len + 16
}

/// The start of a document of this size.
fn head(alloc: Global, title: &str, width: u16, height: u16) -> Result<Vec<u8>, NoMemory> {
    let start = format!(in alloc;
        "<svg xmlns=\"http://www.w3.org/2000/svg\" width=\"{width}\" height=\"{height}\" viewBox=\"0 0 {width} {height}\" font-family=\"sans-serif\" font-size=\"10\">\n<title>{title}</title>\n"
    )?;
    let mut out = start.into_bytes();
    out.extend_from_slice(STYLES)?;
    Ok(out)
}

/// Adds a lifeline that goes down to the bottom.
fn add_lane(alloc: Global, out: &mut Vec<u8>, lane: Lane, bottom: u16) -> Result<(), NoMemory> {
    let (x, name) = (lane.x, lane.name);
    let text = format!(in alloc;
        "<text class=\"name\" x=\"{x}\" y=\"{NAME_BASE}\">{name}</text>\n<line class=\"life\" x1=\"{x}\" y1=\"{LIFE_START}\" x2=\"{x}\" y2=\"{bottom}\"/>\n"
    )?;
    out.extend_from_slice(text.as_bytes())?;
    Ok(())
}

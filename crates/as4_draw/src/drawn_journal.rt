//! The drawing of a journal: what its records did, from the first to the last.

use crate::drawing::{Anchor, Drawing, Lane};
use crate::labels::{counted, counted_and_named, named};
use crate::strokes::Stroke;
use as4_effects::{Delivery, Effect, Submission, Tick};
use as4_values::{Code, NoMemory, Seq, stamp_text};
use std::alloc::Global;

/// Where the lifelines are.
const APPLICATION: u16 = 210;

const ENDPOINT: u16 = 630;

const PARTNERS: u16 = 1050;

const WIDTH: u16 = 1120;

const LANES: [Lane; 3] = [
    Lane {
        x: APPLICATION,
        name: "local application",
    },
    Lane {
        x: ENDPOINT,
        name: "this endpoint",
    },
    Lane {
        x: PARTNERS,
        name: "partners",
    },
];

/// Draws the records of a leaf (one of the two log files of a journal). A compaction wrote the first `start` of them: they
/// are one note. A record without effects (None) is a note, too.
pub fn draw_journal(
    alloc: Global,
    records: &[Option<Seq<Effect>>],
    start: usize,
) -> Result<Vec<u8>, NoMemory> {
    let (compacted, rest) = records.split_at(start.min(records.len()));
    let mut pen = Pen {
        alloc,
        drawing: Drawing::new(alloc, WIDTH),
        received: 0,
    };
    pen.add_start(compacted)?;
    for entry in rest {
        pen.add_record(entry)?;
    }
    pen.finish()
}

/// The drawing, and the number of messages that were received so far.
#[derive(Drop)]
struct Pen {
    alloc: Global,
    drawing: Drawing,
    received: u64,
}

impl Pen {
    // Adds the note for the records that a compaction wrote.
    fn add_start(&mut self, records: &[Option<Seq<Effect>>]) -> Result<(), NoMemory> {
        if records.is_empty() {
            return Ok(());
        }
        let Compacted {
            submissions,
            received,
        } = compacted_by(records);
        self.received = received;
        let text = format!(in self.alloc;
            "compacted: {submissions} submissions, {received} received"
        )?;
        self.drawing.first_note(ENDPOINT, text.as_bytes())
    }

    fn add_record(&mut self, entry: &Option<Seq<Effect>>) -> Result<(), NoMemory> {
        match entry {
            Some(effects) => self.add_effects(effects.items()),
            None => self.add_note(b"a record without effects"),
        }
    }

    fn add_effects(&mut self, effects: &[Effect]) -> Result<(), NoMemory> {
        for effect in effects {
            self.add_effect(effect)?;
        }
        Ok(())
    }

    fn add_effect(&mut self, effect: &Effect) -> Result<(), NoMemory> {
        match effect {
            Effect::Submitted(submission) => self.add_submission(submission),
            Effect::Ticked(tick) => self.add_tick(tick),
            Effect::Tried { number } => self.add_try(*number),
            Effect::Delivered(delivery) => self.add_delivery(delivery),
            Effect::Receipted { number } => self.add_receipt(*number),
            Effect::Refused { number, code } => self.add_refusal(*number, code),
            Effect::Confirmed { upto } => self.add_confirmation(*upto),
            Effect::Carried(carried) => self.add_carried(carried.submission.number),
            Effect::Kept(kept) => self.add_kept(kept.header.id.bytes()),
        }
    }

    fn add_submission(&mut self, submission: &Submission) -> Result<(), NoMemory> {
        let (number, id) = (submission.number, submission.header.id.bytes());
        let label = counted_and_named(self.alloc, "submit", number, id)?;
        self.add_arrow(Stroke::Submit, APPLICATION, ENDPOINT, label.as_slice())
    }

    fn add_confirmation(&mut self, upto: u64) -> Result<(), NoMemory> {
        let label = counted(self.alloc, "confirm up to", upto)?;
        self.add_arrow(Stroke::Local, APPLICATION, ENDPOINT, label.as_slice())
    }

    fn add_try(&mut self, number: u64) -> Result<(), NoMemory> {
        let label = counted(self.alloc, "send", number)?;
        self.add_arrow(Stroke::User, ENDPOINT, PARTNERS, label.as_slice())
    }

    fn add_receipt(&mut self, number: u64) -> Result<(), NoMemory> {
        let label = counted(self.alloc, "receipt for", number)?;
        self.add_arrow(Stroke::Receipt, PARTNERS, ENDPOINT, label.as_slice())
    }

    fn add_refusal(&mut self, number: u64, code: &Code) -> Result<(), NoMemory> {
        let mut label = named(self.alloc, b"error ", code.bytes())?;
        let rest = counted(self.alloc, " for", number)?;
        label.extend_from_slice(rest.as_slice())?;
        self.add_arrow(Stroke::Fault, PARTNERS, ENDPOINT, label.as_slice())
    }

    // Adds a message that was received, with its number in the inbox.
    fn add_delivery(&mut self, delivery: &Delivery) -> Result<(), NoMemory> {
        let mut label = named(self.alloc, b"message ", delivery.header.id.bytes())?;
        let rest = counted(self.alloc, ", inbox", self.received)?;
        label.extend_from_slice(rest.as_slice())?;
        self.received = self.received.saturating_add(1);
        self.add_arrow(Stroke::User, PARTNERS, ENDPOINT, label.as_slice())
    }

    fn add_tick(&mut self, tick: &Tick) -> Result<(), NoMemory> {
        let Some(row) = self.drawing.next_row() else {
            return Ok(());
        };
        let stamp = stamp_text(self.alloc, tick.moment)?;
        self.drawing.moment(row, stamp.bytes())
    }

    // What only a compaction writes stands at the start; elsewhere it is a note.
    fn add_carried(&mut self, number: u64) -> Result<(), NoMemory> {
        let text = counted(self.alloc, "carried", number)?;
        self.add_note(text.as_slice())
    }

    fn add_kept(&mut self, id: &[u8]) -> Result<(), NoMemory> {
        let text = named(self.alloc, b"kept ", id)?;
        self.add_note(text.as_slice())
    }

    fn add_arrow(
        &mut self,
        stroke: Stroke,
        from: u16,
        to: u16,
        label: &[u8],
    ) -> Result<(), NoMemory> {
        match self.drawing.next_row() {
            Some(row) => self.drawing.arrow(stroke, row, from, to, label),
            None => Ok(()),
        }
    }

    fn add_note(&mut self, text: &[u8]) -> Result<(), NoMemory> {
        match self.drawing.next_row() {
            Some(row) => self.drawing.note(Anchor::Centre, ENDPOINT, row, text),
            None => Ok(()),
        }
    }

    fn finish(self) -> Result<Vec<u8>, NoMemory> {
        let Pen {
            alloc: _,
            drawing,
            received: _,
        } = self;
        drawing.finish("Journal", &LANES)
    }
}

/// The numbers of submissions and of received messages.
#[derive(Clone, Copy, Debug)]
struct Compacted {
    submissions: u64,
    received: u64,
}

impl Compacted {
    // Adds what these effects carry over.
    fn and(self, effects: &[Effect]) -> Compacted {
        let mut sums = self;
        for effect in effects {
            match effect {
                Effect::Carried(_) => sums.submissions = sums.submissions.saturating_add(1),
                Effect::Kept(_) | Effect::Delivered(_) => sums.received = sums
                    .received
                    .saturating_add(1),
                _ => {}
            }
        }
        sums
    }
}

/// What a compaction carried over by these records.
fn compacted_by(records: &[Option<Seq<Effect>>]) -> Compacted {
    let mut sums = Compacted {
        submissions: 0,
        received: 0,
    };
    for entry in records {
        if let Some(effects) = entry {
            sums = sums.and(effects.items());
        }
    }
    sums
}

//! Sequence diagrams as SVG documents: of the records of a journal, and of a drill.
#![tactic(auto)]

mod drawing;
mod drawn_drill;
mod drawn_journal;
mod escaped;
mod flights;
mod labels;
mod played;
mod strokes;

pub use drawn_drill::draw_drill;
pub use drawn_journal::draw_journal;

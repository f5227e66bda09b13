//! Audits the journal of a handler over any host: reads its modes file and its files, and writes a line for each change,
//! or a drawing.
//!
//!     audit_journal  checks the leaf that is in use, and writes its lines and the answer, or draws it
#![tactic(auto)]

mod auditing;
mod ending;
mod files;
mod form;
mod lines;
mod pieces;

pub use auditing::audit_journal;
pub use ending::AuditEnd;
pub use files::LEAF_LIMIT;
pub use form::Form;

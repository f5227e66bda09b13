//! Audits a journal: whether its records could have come about by the machine's rules alone, and by which events.
#![tactic(auto)]

mod auditing;
mod collecting;
mod events;
mod failures;
mod finding;
mod laws;
mod made;
mod mode_list;
mod nonce;
mod own;
mod partner;
mod records;
mod stamp;
mod start;
mod walk;

pub use auditing::{audit, check};
pub use finding::{Audit, AuditRefusal, Finding};
pub use laws::{a_leaf_has_one_answer, what_a_step_gives_is_made};
pub use records::{record_of, records_of};
pub use stamp::stamp_ms;
pub use start::{stage_after, start_of};

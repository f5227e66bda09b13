//! The office: one end, its journal and the history of its calls. A step is on the disk before it is answered.
//!
//!     open        the end that the journal's records lead to
//!     prepare     what the end does with an event, with all memory that it takes
//!     enact       the record is put on the disk, the step is made, the call is entered, and then comes the reply
//!     checkpoint  the journal is folded, where that makes it shorter
//!
//! After a fault of the disk the office stands still: each event is answered with the counts of that fault, until the
//! journal is opened again.
#![tactic(auto)]

mod call;
mod checkpoint;
mod crossing;
mod drill;
mod enacting;
mod entering;
mod fault;
mod laws;
mod office;
mod opening;
mod preparing;
mod ready;
mod step_to_make;

pub use call::Call;
pub use fault::OfficeFault;
pub use journal::JournalFault;
pub use laws::{
    a_cut_off_opening_leaves_the_same, a_history_may_happen, a_stop_leaves_what_may_happen,
    openings_may_happen, reopened_histories_join, what_came_stays_over_calls,
    what_came_stays_over_openings, what_is_settled_stays_over_openings,
};
pub use msh_core::Totals;
pub use office::Office;
pub use ready::Ready;

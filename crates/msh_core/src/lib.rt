//! The message service handler's machine: what one endpoint does with each event.
#![tactic(auto)]

mod applying;
mod folding;
mod given;
mod machine;
mod places;
mod plan;
mod replaying;
mod small;

pub use exchange_model::{Event, Outcome, Reply, What};
pub use folding::{Folding, a_fold_can_be_replayed};
pub use given::{a_filled_read_is_a_step, any_other_outcome_is_a_step};
pub use machine::{Core, MAX_JOURNAL};
pub use msh_state::{Held, Totals};
pub use plan::Plan;
pub use replaying::ReplayRefusal;
pub use small::SmallPlan;

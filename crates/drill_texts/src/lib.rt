//! The texts of a drill: the lines for replies, and the modes and loads that a script names.
#![tactic(auto)]

mod loads;
mod messages;
mod modes;
mod pieces;
mod replies;

pub use loads::loads_of;
pub use modes::{drill_mode, modes_of};
pub use replies::{
    end_line, folded_line, no_mode_line, no_package_line, reopened_line, reply_line, unknown_line,
};

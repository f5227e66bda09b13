//! The lines of a drill script: of a pair of endpoints, or of a chain of three.
#![tactic(auto)]

mod hex;
mod line;
mod lines;
mod load;
mod pieces;
mod reading;
mod scripts;
mod stoppable;
mod verb;
mod words;

pub use line::{EndName, Line, LinkName, ScriptLoad, Stoppable, Way};
pub use lines::{LINE_LIMIT, LineGot, LineReader};
pub use load::MAX_SIZE;
pub use reading::{MAX_PERIOD, MAX_RETRIES, line_of, one_line};
pub use scripts::{is_chain_line, is_pair_line};
pub use words::MAX_CALL;

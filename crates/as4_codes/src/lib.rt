//! The errors that a handler reports to its partner, a row for each code, and the signals that it makes: error signals,
//! receipts and pull requests.
#![tactic(auto)]

mod errors;
mod pulls;
mod receipts;
mod rows;

pub use errors::error_signal;
pub use pulls::{pull_request, receipt_with_pull};
pub use receipts::receipt;
pub use rows::{Row, TABLE, codes_differ, find, table};

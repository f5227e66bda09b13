//! Forms of bytes by which the formats of this handler are defined: definitions in `specs/`, their laws in `proofs/`,
//! and the calls that cut bytes by them.
#![tactic(auto)]

mod class;
mod cuts;
mod decimal;
mod digits;
mod runs;
mod trim;

pub use class::{Blank, ByteClass, Space, is_blank, is_space};
pub use cuts::{cut_at, strip_prefix};
pub use decimal::decimal_of;
pub use digits::{digit_value, hex_digit};
pub use runs::{run_at, run_len, skip};
pub use trim::{end_without_blanks, trimmed};

//! A written message unit is read back, and what the meaning of an envelope doesn't depend on.
#![tactic(auto)]

mod again;
mod laws;
mod reading;

pub use again::Again;
pub use laws::{
    header_is_read_again, pair_is_read_again, signal_is_read_again, tree_is_read_again,
    unit_is_read_again,
};
pub use reading::{
    no_meaning_is_out_of_memory, the_order_of_names_says_nothing, what_is_skipped_says_nothing,
};

//! Compaction keeps the endpoint's state: laws about the effects of a compaction.
#![tactic(auto)]

mod laws;

pub use laws::{
    a_fold_gives_the_end_back, a_reached_end_can_be_written, a_reached_end_has_a_fold,
    an_end_has_one_fold, no_reached_one_is_spent, what_fits_goes_on,
};

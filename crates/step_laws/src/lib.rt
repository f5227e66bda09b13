//! The effects of a step fit the endpoint, so each endpoint that events and compactions lead to can be compacted.
#![tactic(auto)]

mod laws;

pub use laws::{
    an_end_can_be_folded_at_any_moment, what_a_step_gives_fits, what_happens_leads_to_reached_ends,
};

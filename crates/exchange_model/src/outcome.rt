//! Outcomes of events.

use crate::reply::Reply;
use as4_effects::Effect;
use as4_values::Seq;

/// The outcome of an event at an endpoint: its effects and its reply.
#[derive(Drop)]
pub struct Outcome {
    pub effects: Seq<Effect>,
    pub reply: Reply,
}

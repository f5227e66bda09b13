//! The guarantees of a chain of three endpoints: a first one, a hub that relays, and a last one.
#![tactic(auto)]

mod laws;

pub use laws::{
    a_chain_goes_on, an_end_of_a_chain_is_an_end_alone, chains_deliver_once, some_chain_delivers,
    what_is_read_may_be_relayed,
};

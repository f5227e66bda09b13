//! The tables of a conformance suite: messages with their check lines, HTTP streams with what they begin with, and scripts
//! of a drill with their transcripts.
#![tactic(auto)]

mod exchange_table;
mod header_rows;
mod message_rows;
mod mime_rows;
mod pieces;
mod play_table;
mod rows;
mod tables;
mod xml_rows;

pub use tables::{cases, exchanges, listed, plays, vectors};

//! The result of reading an inbox.

use as4_values::UserHeader;

/// What an inbox has for a number.
#[derive(Drop)]
pub enum Held<'a> {
    /// The message that was received with this number.
    Entry {
        header: &'a UserHeader,
        /// The gate of the journal's record that has its payloads.
        gate: u64,
        /// The length of a record's body that delivers this message alone.
        length: u64,
    },
    /// It was confirmed.
    Gone,
    /// No message of this number has been received.
    NoEntry,
}

//! Refusals of a modes file.

use as4_values::Text;

/// A key of a modes file.
#[derive(Clone, Copy, Debug, PartialEq, Eq)]
pub enum Key {
    Name,
    From,
    To,
    Service,
    ServiceType,
    Action,
    Agreement,
    AgreementType,
    Push,
    Pull,
    Retries,
    Period,
    Collect,
    /// The array of the modes itself.
    Mode,
    /// `role`, of either side.
    Role,
    /// `party`, of either side.
    Party,
    /// `id` or `type` of a party.
    PartyKey,
    /// `address`, where the mode pulls.
    Address,
}

/// Why a modes file or list is refused.
#[derive(Drop)]
pub enum ModeRefusal {
    /// The bytes aren't a TOML document.
    Toml,
    /// The mode at this place, from 0, lacks a key.
    Missing { mode: u64, key: Key },
    /// The mode at this place, from 0, has a key with a wrong value. The key `Mode` at place 0 means the list itself:
    /// it isn't an array of tables, or has more than 1,024.
    Range { mode: u64, key: Key },
    /// Two modes have this name.
    Twice { name: Text },
    /// The same messages belong to the first and to the second of these modes.
    Ambiguous { a: Text, b: Text },
    /// Memory ran out.
    NoMemory,
}

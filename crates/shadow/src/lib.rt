//! A value that only proofs see. At run time it has no bytes, and its calls do nothing.
//!
//! A table that keeps its payloads on the disk keeps them here for its contracts.
#![tactic(auto)]

ghost use Rattle.std.specs.Prelude.{◌≡◌, ◌∷◌, [], List, map};

use http_server::Log;
use std::marker::Model;

/// A value, or none. A clause sees a list with at most that one value.
#[derive(Drop)]
pub struct Shadow<T> {
    noted: Log<T, ()>,
}

impl<T> Model for Shadow<T> {
    ghost Value = { List T };

    ghost view = { λ s. map (λ n. n.0) s.noted.items };
}

impl<T> Shadow<T> {
    /// No value.
    pub fn none() -> Shadow<T>
        ensures { result ≡ [] }
    {
        Shadow { noted: Log::new() }
    }

    /// Notes this value. Reads and copies nothing.
    pub fn of(value: &T) -> Shadow<T>
        ensures { result ≡ value.now ∷ [] }
    {
        Shadow {
            noted: Log::new().and(value, &()),
        }
    }
}

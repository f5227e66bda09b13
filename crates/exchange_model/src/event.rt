//! Events.

ghost use Rattle.std.specs.Prelude.{◌≤◌, IsTrue};
ghost use Rattle.exchange_model.specs.Coming.{may_come};

use crate::what::What;

/// An event at an endpoint, with the moment and the nonce for its signals and submissions.
#[derive(Drop)]
pub struct Event {
    /// In milliseconds since 1970-01-01T00:00:00Z, before the year 10,000.
    pub stamp: u64,
    pub nonce: u128,
    /// A received user message is deliverable.
    pub what: What,
    pub ghost dated: { stamp ≤ 253402300799999 },
    pub ghost deliverable: { IsTrue (may_come what) },
}

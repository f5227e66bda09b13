//! Events.

ghost use Rattle.std.specs.Prelude.{◌≡◌, ◌≤◌, IsTrue};
ghost use Rattle.exchange_model.specs.Coming.{may_come};

use as4_values::MAX_MOMENT;
use exchange_model::{Event, What};

/// An event at this moment.
pub fn event_at(stamp: u64, nonce: u128, what: What) -> Event
    requires stamp { stamp ≤ MAX_MOMENT }
    requires coming { IsTrue (may_come what) }
    ensures stamp { result.stamp ≡ stamp }
    ensures nonce { result.nonce ≡ nonce }
    ensures what { result.what ≡ what }
{
    Event { stamp, nonce, what }
}

/// An event at the first moment, with the nonce 0: neither leaves a trace in its record.
pub fn at_first(what: What) -> Event
    requires { IsTrue (may_come what) }
    ensures { result.what ≡ what }
{
    event_at(0, 0, what)
}

//! The system's clock. The system says nothing of its moments, so it isn't observable.
ghost use Rattle.std.specs.Prelude.{◌≡◌, ◌≤◌, None};
ghost use Rattle.as4_flow.specs.Draws.{last_moment};

use std::time::{Duration, SystemTime};
use std::{thread, time};

/// The last moment that a clock gives: 9999-12-31T23:59:59.999Z.
const LAST_MOMENT: u64 = 253_402_300_799_999;

const _: () = prove!(LAST_MOMENT == 253402300799999);

/// The wall clock. A moment after the last one that a clock may give is cut down to it. Where the system's clock can't
/// be read or is before 1970, it gives its last answer again.
#[derive(Drop)]
pub struct SystemClock<R: time::Clock + Drop> {
    clock: R,
    rest: Duration,
    last: u64,
}

impl<R: time::Clock + Drop> SystemClock<R> {
    ghost use Rattle.host_adapters.specs.Adapters.{clock_last};

    /// `rest` is how long each call of `Clock::rest` waits.
    pub fn of(clock: R, rest: Duration) -> SystemClock<R>
        ensures { clock_last result ≡ 0 }
    {
        SystemClock {
            clock,
            rest,
            last: 0,
        }
    }
}

impl<R: time::Clock + Drop> as4_flow::Clock for SystemClock<R> {
    ghost last = { λ c. c.last };

    ghost to_come = { λ _ _. None };

    fn now(&mut self) -> u64 {
        self.last = moment(&self.clock).unwrap_or(self.last).min(LAST_MOMENT);
        self.last
    }

    fn rest(&mut self) {
        thread::sleep(&self.clock, self.rest);
    }
}

// The milliseconds since 1970.
fn moment(clock: &impl time::Clock) -> Option<u64> {
    let now = SystemTime::now(clock).ok()?;
    let since = now.duration_since(SystemTime::UNIX_EPOCH).ok()?;
    u64::try_from(since.as_millis()).ok()
}

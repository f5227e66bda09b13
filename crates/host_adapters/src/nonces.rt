//! The system's random source. The system says nothing of its numbers, so it isn't observable.
ghost use Rattle.std.specs.Prelude.{◌≡◌, None};

use as4_flow::Nonces;
use std::random::RandomSource;
use std::time;
use std::time::{Duration, SystemTime};

/// Random numbers of 128 bits. Where the random source fails, a number is the nanoseconds since 1970 by the system's clock,
/// times 2^64, plus the last answer and one.
#[derive(Drop)]
pub struct SystemNonces<R: RandomSource + time::Clock + Drop> {
    system: R,
    last: u128,
}

impl<R: RandomSource + time::Clock + Drop> SystemNonces<R> {
    ghost use Rattle.host_adapters.specs.Adapters.{nonces_last};

    pub fn of(system: R) -> SystemNonces<R>
        ensures { nonces_last result ≡ 0 }
    {
        SystemNonces { system, last: 0 }
    }
}

impl<R: RandomSource + time::Clock + Drop> Nonces for SystemNonces<R> {
    ghost last = { λ n. n.last };

    ghost to_come = { λ _ _. None };

    fn next(&mut self) -> u128 {
        let mut bytes = [0; 16];
        self.last = match self.system.fill_bytes(&mut bytes) {
            Ok(()) => u128::from_le_bytes(bytes),
            Err(_) => (nanoseconds(&self.system) << 64).wrapping_add(self.last.wrapping_add(1)),
        };
        self.last
    }
}

// The nanoseconds since 1970, or 0 where the clock can't be read.
fn nanoseconds(clock: &impl time::Clock) -> u128 {
    match SystemTime::now(clock) {
        Ok(now) => now
            .duration_since(SystemTime::UNIX_EPOCH)
            .unwrap_or(Duration::ZERO)
            .as_nanos(),
        Err(_) => 0,
    }
}

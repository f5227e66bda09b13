//! The system's clock and its random source.
use as4_flow::{Clock, Nonces};
use host_adapters::{SystemClock, SystemNonces};
use std::test::Fail;
use std::time::{Duration, Instant};

/// 2024-01-01T00:00:00Z.
const PAST: u64 = 1_704_067_200_000;

/// The value: a server sends one like it to another thread.
pub fn sent<T: Send>(value: T) -> T {
    value
}

#[test]
fn a_clock_gives_moments_and_rests(rt: HostRuntime) -> Result<(), Fail> {
    let mut clock = sent(SystemClock::of(rt, Duration::from_millis(50)));
    let before = clock.now();
    let start = Instant::now(&rt)?;
    clock.rest();
    let rested = start.elapsed(&rt)?;
    let after = clock.now();
    drop(clock);
    assert!(rt; before > PAST && after > PAST && rested >= Duration::from_millis(50));
    Ok(())
}

#[test]
fn nonces_differ(rt: HostRuntime) {
    let mut nonces = sent(SystemNonces::of(rt));
    let first = nonces.next();
    let second = nonces.next();
    drop(nonces);
    assert!(rt; first != second);
}

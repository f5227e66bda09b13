//! What a clock and nonces in memory give.

use as4_flow::{Clock, CountNonces, ListClock, Nonces};
use std::alloc::Global;

/// 9999-12-31T23:59:59.999Z.
const LAST: u64 = 253_402_300_799_999;

/// The moments of a list, and the first four that its clock gives.
static CLOCKS: [(&[u64], [u64; 4]); 5] = [
    (&[], [0, 0, 0, 0]),
    (&[5], [5, 5, 5, 5]),
    (&[5, 3, 8], [5, 3, 8, 8]),
    (&[0, u64::MAX, 1], [0, LAST, 1, 1]),
    (&[LAST, LAST + 1], [LAST, LAST, LAST, LAST]),
];

/// The first four moments of a clock, with a rest after each.
fn four_moments(alloc: Global, moments: &[u64]) -> Option<[u64; 4]> {
    let mut clock = ListClock::of(moments.to_vec(alloc).ok()?);
    let mut given = [0; 4];
    for moment in given.iter_mut() {
        *moment = clock.now();
        clock.rest();
    }
    drop(clock);
    Some(given)
}

fn first_other_clock(alloc: Global) -> Option<usize> {
    for (row, (moments, given)) in CLOCKS.iter().enumerate() {
        if four_moments(alloc, moments) != Some(*given) {
            return Some(row);
        }
    }
    None
}

#[test]
fn a_clock_gives_its_moments_and_repeats_the_last(rt: HostRuntime) {
    assert_eq!(rt; first_other_clock(rt.alloc()), None);
}

/// The first three numbers that are counted from this one.
fn three_nonces(first: u128) -> [u128; 3] {
    let mut nonces = CountNonces::of(first);
    let given = [nonces.next(), nonces.next(), nonces.next()];
    drop(nonces);
    given
}

#[test]
fn nonces_count_up_and_wrap(rt: HostRuntime) {
    assert_eq!(rt; three_nonces(0), [0, 1, 2]);
    assert_eq!(rt; three_nonces(u128::MAX - 1), [u128::MAX - 1, u128::MAX, 0]);
}

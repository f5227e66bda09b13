//! Calls in a fixed pseudo-random order, compared with a plain list of places.

use crate::example::{least_two, put};
use due_heap::Heaps;
use std::alloc::Global;

const NUMBERS: usize = 60;

const HEAPS: u64 = 3;

type Places = [Option<(u64, u64)>; NUMBERS];

/// The next number of a linear congruential generator.
fn next(random: u64) -> u64 {
    random
        .wrapping_mul(6_364_136_223_846_793_005)
        .wrapping_add(1_442_695_040_888_963_407)
}

/// The number of this heap that is due first, except the skipped one.
fn least_of(places: &Places, heap: u64, skipped: Option<u64>) -> Option<(u64, u64)> {
    let mut least: Option<(u64, u64)> = None;
    for (number, place) in places.iter().enumerate() {
        let number = number as u64;
        let Some((place, due)) = *place else {
            continue;
        };
        if place == heap && skipped != Some(number) && least.is_none_or(|(first, _)| due < first) {
            least = Some((due, number));
        }
    }
    least
}

/// One call: a number that is in no heap is inserted, another one is moved or removed.
fn call(heaps: &mut Heaps, places: &mut Places, random: u64) -> Option<()> {
    let number = (random >> 33) % NUMBERS as u64;
    let due = (random >> 20) % 40;
    let heap = (random >> 50) % HEAPS;
    let place = &mut places[number as usize];
    match heaps.place(number) {
        None => {
            put(heaps, heap, due, number)?;
            *place = Some((heap, due));
        }
        Some(_) if random % 3 == 0 => {
            heaps.remove(number);
            *place = None;
        }
        Some((heap, _)) => {
            heaps.set_due(number, due);
            *place = Some((heap, due));
        }
    }
    Some(())
}

/// How many numbers of this heap are due by a moment.
fn due_by(places: &Places, heap: u64, moment: u64) -> u64 {
    let mut count = 0u64;
    for place in places {
        if matches!(place, Some((other, due)) if *other == heap && *due <= moment) {
            count = count.saturating_add(1);
        }
    }
    count
}

/// Whether heaps and places agree: on each heap with and without this number, and on the numbers due by a moment.
fn agree(heaps: &Heaps, places: &Places, number: u64) -> bool {
    for heap in 0..HEAPS {
        let moment = number % 40;
        if heap >= heaps.count() || heaps.count_due(heap, moment) != due_by(places, heap, moment) {
            return false;
        }
        let least = [
            least_of(places, heap, None),
            least_of(places, heap, Some(number)),
        ];
        if least_two(heaps, heap, number) != least {
            return false;
        }
    }
    true
}

/// The number of calls that left heaps and places in agreement, leaving out some number and the first heap's least.
fn agreeing(heaps: &mut Heaps, calls: u64) -> Option<u64> {
    for _ in 0..HEAPS {
        heaps.add().ok()?;
    }
    let mut places: Places = [None; NUMBERS];
    let mut random = 1;
    let mut count = 0u64;
    for _ in 0..calls {
        random = next(random);
        call(heaps, &mut places, random)?;
        let least = least_of(&places, 0, None).map_or(0, |(_, number)| number);
        if agree(heaps, &places, least) && agree(heaps, &places, random % NUMBERS as u64) {
            count = count.saturating_add(1);
        }
    }
    Some(count)
}

fn agreeing_in_new(alloc: Global, calls: u64) -> Option<u64> {
    let mut heaps = Heaps::new(alloc);
    let count = agreeing(&mut heaps, calls);
    drop(heaps);
    count
}

#[test]
fn two_thousand_calls_leave_what_a_plain_list_has(rt: HostRuntime) {
    assert_eq!(rt; agreeing_in_new(rt.alloc(), 2000), Some(2000));
}

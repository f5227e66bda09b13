//! Two heaps: one holds the pairs (5, 1) and (5, 0), the other (3, 2).

ghost use Rattle.std.specs.Prelude.{◌<◌};

use due_heap::Heaps;

/// Inserts a number that is in no heap into this one.
pub fn put(heaps: &mut Heaps, heap: u64, due: u64, number: u64) -> Option<()>
    requires { number < 1048576 }
{
    if heap >= heaps.count() || heaps.place(number).is_some() {
        return None;
    }
    heaps.reserve(heap, number).ok()?;
    heaps.insert(heap, due, number);
    Some(())
}

/// The least pair of a heap, and the least one without a number.
pub fn least_two(heaps: &Heaps, heap: u64, number: u64) -> [Option<(u64, u64)>; 2] {
    if heap >= heaps.count() {
        return [None, None];
    }
    [heaps.least(heap), heaps.least_without(heap, number)]
}

/// The least pairs of the two heaps, also without the number 0: at first, after 0 is moved to 9, and after 1 is
/// removed.
fn least_pairs(heaps: &mut Heaps) -> Option<[[Option<(u64, u64)>; 2]; 5]> {
    let first = heaps.add().ok()?;
    let second = heaps.add().ok()?;
    put(heaps, first, 5, 1)?;
    put(heaps, first, 5, 0)?;
    put(heaps, second, 3, 2)?;
    let at_first = [least_two(heaps, first, 0), least_two(heaps, second, 0)];
    if heaps.place(0).is_some() {
        heaps.set_due(0, 9);
    }
    let moved = least_two(heaps, first, 0);
    if heaps.place(1).is_some() {
        heaps.remove(1);
    }
    let [one, two] = at_first;
    Some([
        one,
        two,
        moved,
        least_two(heaps, first, 0),
        least_two(heaps, second, 2),
    ])
}

#[test]
fn the_least_is_due_first_and_has_the_least_number(rt: HostRuntime) {
    let mut heaps = Heaps::new(rt.alloc());
    let pairs = least_pairs(&mut heaps);
    drop(heaps);
    let expected = [
        [Some((5, 0)), Some((5, 1))],
        [Some((3, 2)), Some((3, 2))],
        [Some((5, 1)), Some((5, 1))],
        [Some((9, 0)), None],
        [Some((3, 2)), None],
    ];
    assert_eq!(rt; pairs, Some(expected));
}

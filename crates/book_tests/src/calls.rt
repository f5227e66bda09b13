//! Calls from one thread.
ghost use Rattle.std.specs.Prelude.{◌≡◌};

use pass_book::{Keeper, MAX_ENTRIES, Pass};
use std::test::Fail;

type Opened<'a> = (Keeper<'a, u64>, Pass<'a, u64>);

fn enter_four(keeper: &mut Keeper<'_, u64>, pass: &mut Pass<'_, u64>)
    requires { pass.old.book ≡ keeper.old.book }
    ensures { (keeper.new.book ≡ keeper.old.book) × (pass.new.book ≡ pass.old.book) }
{
    for call in 0..4 {
        let _ = keeper.enter(pass, &call);
    }
}

/// The number of entries that the pass has seen, its share and its stake.
fn numbers(pass: &Pass<'_, u64>) -> [u64; 3] {
    [pass.seen(), pass.share(), pass.stake()]
}

#[test]
fn three_passes_make_twelve_calls(rt: HostRuntime) -> Result<(), Fail> {
    let (mut keeper, mut all): Opened<'_> = Keeper::new(rt.alloc())?;
    let mut one = all.split(1);
    let mut two = all.split(1);
    let mut three = all.split(1);
    enter_four(&mut keeper, &mut one);
    enter_four(&mut keeper, &mut two);
    enter_four(&mut keeper, &mut three);
    all.join(one);
    all.join(two);
    all.join(three);
    let share = all.share();
    let count = keeper.close(all);
    assert_eq!(rt; [share, count], [12, 12]);
    Ok(())
}

#[test]
fn a_pass_sees_what_it_meets(rt: HostRuntime) -> Result<(), Fail> {
    let (mut keeper, mut one): Opened<'_> = Keeper::new(rt.alloc())?;
    let mut two = one.split(1);
    enter_four(&mut keeper, &mut two);
    let before = numbers(&one);
    one.meet(&mut two);
    let after = [before, numbers(&one), numbers(&two)];
    assert_eq!(rt;
        after,
        [[0, 0, MAX_ENTRIES - 1], [4, 0, MAX_ENTRIES - 1], [4, 4, 1]]
    );
    Ok(())
}

#[test]
fn a_pass_is_split_shown_and_joined(rt: HostRuntime) -> Result<(), Fail> {
    let (mut keeper, mut one): Opened<'_> = Keeper::new(rt.alloc())?;
    let first = keeper.enter(&mut one, &7);
    let mut two = one.split(5);
    let second = keeper.enter(&mut two, &8);
    let apart = [numbers(&one), numbers(&two)];
    keeper.show(&mut one);
    let shown = numbers(&one);
    one.join(two);
    let joined = numbers(&one);
    let count = keeper.len();
    let last = keeper.close(one);
    assert_eq!(rt; (first, second, count, last), (Ok(0), Ok(1), 2, 2));
    assert_eq!(rt; apart, [[1, 1, MAX_ENTRIES - 5], [2, 1, 5]]);
    assert_eq!(rt;
        [shown, joined],
        [[2, 1, MAX_ENTRIES - 5], [2, 2, MAX_ENTRIES]]
    );
    Ok(())
}

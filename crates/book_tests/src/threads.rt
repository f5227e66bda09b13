//! Calls from four threads, which share a keeper under a lock. Each thread has its own pass.
ghost use Rattle.std.specs.Prelude.{◌≡◌, ◌<◌, ◌-◌, ◌^◌};

use pass_book::{Keeper, Pass};
use std::marker::{Brand, PhantomData};
use std::sync::{Mutex, Wait};
use std::test::Fail;
use std::thread;
use std::thread::Threads;

/// Names the opening, since nothing else is known about a value under a lock.
trait Named {
    ghost use Rattle.pass_book.specs.States.{Book};

    ghost book: { Book };
}

impl Named for Brand {
    ghost use Rattle.pass_book.specs.States.{no_book};

    ghost book = { no_book };
}

#[derive(Drop)]
struct Entering<'a, J: Named> {
    keeper: Keeper<'a, u64>,
    of: PhantomData<J>,
    ghost here: { keeper.book ≡ J.book },
}

#[derive(Drop)]
struct Calling<'a, J: Named> {
    pass: Pass<'a, u64>,
    of: PhantomData<J>,
    ghost here: { pass.book ≡ J.book },
}

impl<J: Named> Entering<'_, J> {
    fn enter(&mut self, caller: &mut Calling<'_, J>, call: u64) {
        let _ = self.keeper.enter(&mut caller.pass, &call);
    }
}

/// Four calls.
fn call<J: Named>(rt: &impl Wait, desk: &Mutex<Entering<'_, J>>, caller: &mut Calling<'_, J>) {
    for call in 0..4 {
        desk.lock(rt).enter(caller, call);
    }
}

/// A caller with a part of the stakes.
fn hired<'a, J: Named>(pass: &mut Pass<'a, u64>) -> Calling<'a, J>
    requires stake { 1 < pass.old.stake }
    requires book { pass.old.book ≡ J.book }
    ensures { pass.new ≡ record pass.old { stake = pass.old.stake - 1 } }
{
    Calling {
        pass: pass.split(1),
        of: PhantomData,
    }
}

/// Four callers, each in its own thread, make four calls each. Returns the share of the pass into which theirs are
/// joined, and the number of entries.
fn call_in_threads<J: Named + Send + Sync, R: Threads + Wait + Sync>(
    rt: &R,
    keeper: Keeper<'_, u64>,
    mut pass: Pass<'_, u64>,
) -> [u64; 2]
    requires keeper { keeper.book ≡ J.book }
    requires pass { (pass.book ≡ J.book) × (pass.stake ≡ 2 ^ 63) }
{
    let mut callers: [Calling<'_, J>; 4] = [
        hired(&mut pass),
        hired(&mut pass),
        hired(&mut pass),
        hired(&mut pass),
    ];
    let desk = Mutex::new(Entering {
        keeper,
        of: PhantomData,
    });
    thread::for_each_mut(
        rt,
        &mut callers,
        4,
        &|_, caller: &mut Calling<'_, J>| { call(rt, &desk, caller) },
    );
    for caller in callers {
        let Calling { pass: other, of: _ } = caller;
        pass.join(other);
    }
    let share = pass.share();
    [share, desk.into_inner().keeper.close(pass)]
}

#[test]
fn four_threads_make_sixteen_calls(rt: HostRuntime) -> Result<(), Fail> {
    let (keeper, pass): (Keeper<'_, u64>, Pass<'_, u64>) = Keeper::new(rt.alloc())?;
    assert_eq!(rt; call_in_threads::<Brand, _>(&rt, keeper, pass), [16, 16]);
    Ok(())
}

//! Applies effects one after another, with the room and the queues that were prepared for them.
ghost use Rattle.std.specs.Prelude.{◌≡◌, IfOk, OnOk, map};
ghost use Rattle.msh_state.specs.Places.{places_after_all};
ghost use Rattle.msh_state.specs.Rooms.{queue_for};
ghost use Rattle.msh_state.specs.Standing.{CanStand};
ghost use Rattle.exchange_model.specs.Apply.{after_all};
ghost use Rattle.msh_core.specs.Machine.{HaveRoom};

use as4_effects::{Effect, Queue};
use as4_values::{NoMemory, Seq};
use msh_state::EndTables;
use std::alloc::Global;

/// Reserves room for the effects, of which only the last may take some, and finds the queue in which each moves a
/// submission.
pub fn room_for(
    alloc: Global,
    tables: &mut EndTables,
    effects: &Seq<Effect>,
) -> Result<Seq<Queue>, NoMemory>
    requires { CanStand tables.old.end effects.now }
    ensures room { IfOk result (λ _. HaveRoom tables.new.rooms tables.new.end.sent effects.now) }
    ensures queues { IfOk result (λ queues. queues ≡ map (queue_for tables.new.end.sent) effects.now) }
    ensures end { tables.new.end ≡ tables.old.end }
    ensures places { tables.new.places ≡ tables.old.places }
{
    reserve_last(tables, effects)?;
    queues_for(alloc, tables, effects)
}

/// Reserves room for the last of the effects: the others take none.
fn reserve_last(tables: &mut EndTables, effects: &Seq<Effect>) -> Result<(), NoMemory>
    requires { CanStand tables.old.end effects.now }
    ensures room { OnOk result (HaveRoom tables.new.rooms tables.new.end.sent effects.now) }
    ensures end { tables.new.end ≡ tables.old.end }
    ensures places { tables.new.places ≡ tables.old.places }
{
    let items = effects.items();
    let len = items.len();
    if len == 0 {
        return Ok(());
    }
    tables.reserve(&items[len - 1])
}

/// The queue in which each effect moves a submission.
fn queues_for(
    alloc: Global,
    tables: &EndTables,
    effects: &Seq<Effect>,
) -> Result<Seq<Queue>, NoMemory>
    ensures { IfOk result (λ queues. queues ≡ map (queue_for tables.now.end.sent) effects.now) }
{
    let mut queues = Vec::with_capacity(alloc, effects.items().len())?;
    for effect in effects.items() {
        queues.push(tables.queue_for(effect)?)?;
    }
    Ok(Seq::of(queues))
}

/// Applies all effects of the record at this gate, in order. Takes no memory.
pub fn apply_all(tables: &mut EndTables, effects: Seq<Effect>, queues: &Seq<Queue>, gate: u64)
    requires stands { CanStand tables.old.end effects }
    requires queues { queues.now ≡ map (queue_for tables.old.end.sent) effects }
    requires room { HaveRoom tables.old.rooms tables.old.end.sent effects }
    ensures end { tables.new.end ≡ after_all effects tables.old.end }
    ensures places { tables.new.places ≡ places_after_all effects gate tables.old.places }
{
    let queues = queues.items();
    let mut index = 0;
    for effect in effects.into_vec() {
        tables.apply(effect, &queues[index], gate);
        index += 1;
    }
}

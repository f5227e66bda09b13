//! Replays the effects of records.
ghost use Rattle.std.specs.Prelude.{◌≡◌, ◌+◌, ◌≤◌, ℕ, Err, IfOk, None, Some, IsTrue, OnOk, length};
ghost use Rattle.as4_effects.specs.Effects.{effects_limit};
ghost use Rattle.msh_state.specs.Places.{places_after, places_after_all};
ghost use Rattle.msh_state.specs.Rooms.{HasRoom, queue_for};
ghost use Rattle.exchange_model.specs.Apply.{after, after_all, applied, first_unfit, is_fit, record_len};
ghost use Rattle.msh_core.specs.Machine.{IsConsistent};
ghost use Rattle.msh_core.specs.declared.replaying.ReplayRefusal.TheVariants.{NoMemory as NoMemoryLeft};

use crate::machine::{Core, MAX_JOURNAL, record_len};
use as4_effects::{Effect, Queue};
use as4_values::{NoMemory, Seq};
use msh_state::EndTables;

/// Why a record isn't replayed. Drop the core after this.
#[derive(Clone, Copy, Debug, PartialEq, Eq)]
pub enum ReplayRefusal {
    /// The effect at this place, from 0, doesn't fit after those before it.
    Unfit { index: usize },
    NoMemory,
}

impl From<NoMemory> for ReplayRefusal {
    ghost from_gives = { λ _ e. e ≡ NoMemoryLeft };

    fn from(_error: NoMemory) -> ReplayRefusal {
        ReplayRefusal::NoMemory
    }
}

impl Core {
    /// Replays the effects of the record at this gate. If the first effect is unfit, this is reported even when out of
    /// memory.
    pub fn replay(&mut self, effects: Seq<Effect>, gate: u64) -> Result<(), ReplayRefusal>
        requires some { 1 ≤ length effects }
        requires counted { length effects ≤ effects_limit }
        requires limited { self.old.end.size + record_len effects ≤ MAX_JOURNAL }
        ensures ok { OnOk result (self.new.end ≡ applied effects self.old.end) }
        ensures places { OnOk result (self.new.places ≡ places_after_all effects gate self.old.places) }
        ensures fit { OnOk result (first_unfit effects self.old.end ≡ None) }
        ensures unfit { (index : ℕ) → result ≡ Err (ReplayRefusal.Unfit index) → first_unfit effects self.old.end ≡ Some index }
        ensures first { first_unfit effects self.old.end ≡ Some 0 → result ≡ Err (ReplayRefusal.Unfit 0) }
        ensures modes { self.new.modes ≡ self.old.modes }
    {
        let len = record_len(&effects);
        replay_all(&mut self.tables, effects, gate)?;
        self.tables.grow(len);
        Ok(())
    }
}

/// Applies the effects of the record at this gate one after another.
fn replay_all(tables: &mut EndTables, effects: Seq<Effect>, gate: u64) -> Result<(), ReplayRefusal>
    requires { length effects ≤ effects_limit }
    ensures ok { OnOk result (tables.new.end ≡ after_all effects tables.old.end) }
    ensures places { OnOk result (tables.new.places ≡ places_after_all effects gate tables.old.places) }
    ensures fit { OnOk result (first_unfit effects tables.old.end ≡ None) }
    ensures unfit { (index : ℕ) → result ≡ Err (ReplayRefusal.Unfit index) → first_unfit effects tables.old.end ≡ Some index }
    ensures first { first_unfit effects tables.old.end ≡ Some 0 → result ≡ Err (ReplayRefusal.Unfit 0) }
    ensures consistent { IsConsistent tables.old.end tables.old.places → IsConsistent tables.new.end tables.new.places }
{
    let mut index = 0;
    for effect in effects.into_vec() {
        if !tables.fits(&effect) {
            drop(effect);
            return Err(ReplayRefusal::Unfit { index });
        }
        replay_one(tables, effect, gate)?;
        index += 1;
    }
    Ok(())
}

/// Applies an effect that fits, of the record at this gate.
fn replay_one(tables: &mut EndTables, effect: Effect, gate: u64) -> Result<(), NoMemory>
    requires { IsTrue (is_fit effect tables.old.end) }
    ensures ok { OnOk result (tables.new.end ≡ after effect tables.old.end) }
    ensures places { OnOk result (tables.new.places ≡ places_after effect gate tables.old.places) }
    ensures consistent { IsConsistent tables.old.end tables.old.places → IsConsistent tables.new.end tables.new.places }
{
    match room_for_one(tables, &effect) {
        Ok(queue) => {
            tables.apply(effect, &queue, gate);
            Ok(())
        }
        Err(error) => {
            drop(effect);
            Err(error)
        }
    }
}

/// Reserves room for an effect that fits, and finds its queue.
fn room_for_one(tables: &mut EndTables, effect: &Effect) -> Result<Queue, NoMemory>
    requires { IsTrue (is_fit effect.now tables.old.end) }
    ensures room { IfOk result (λ _. HasRoom tables.new.rooms tables.new.end.sent effect.now) }
    ensures queue { IfOk result (λ queue. queue ≡ queue_for tables.new.end.sent effect.now) }
    ensures end { tables.new.end ≡ tables.old.end }
    ensures places { tables.new.places ≡ tables.old.places }
{
    tables.reserve(effect)?;
    tables.queue_for(effect)
}

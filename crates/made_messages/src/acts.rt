//! Applies effects to tables.
ghost use Rattle.std.specs.Prelude.{◌≡◌, IsTrue, IfSome};
ghost use Rattle.msh_state.specs.Rooms.{HasRoom, queue_for};
ghost use Rattle.exchange_model.specs.Apply.{is_fit};

use as4_effects::{Effect, Queue};
use msh_state::EndTables;

/// Applies the effect to the tables, if it fits and there is memory. Its record is the first of a journal.
pub fn act(tables: &mut EndTables, effect: Effect) -> Option<()> {
    act_at(tables, effect, 8)
}

/// Applies an effect of the record at this gate to the tables, if it fits and there is memory.
pub fn act_at(tables: &mut EndTables, effect: Effect, gate: u64) -> Option<()> {
    match ready(tables, &effect) {
        Some(queue) => {
            tables.apply(effect, &queue, gate);
            drop(queue);
            Some(())
        }
        None => {
            drop(effect);
            None
        }
    }
}

// Reserves room for the effect, if it fits.
fn ready(tables: &mut EndTables, effect: &Effect) -> Option<Queue>
    ensures fit { IfSome result (λ queue. IsTrue (is_fit effect.now tables.new.end)) }
    ensures room { IfSome result (λ queue. HasRoom tables.new.rooms tables.new.end.sent effect.now) }
    ensures queue { IfSome result (λ queue. queue ≡ queue_for tables.new.end.sent effect.now) }
{
    if !tables.fits(effect) {
        return None;
    }
    match tables.reserve(effect) {
        Ok(()) => tables.queue_for(effect).ok(),
        Err(_) => None,
    }
}

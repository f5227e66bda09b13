//! A copy of modes.

ghost use Rattle.std.specs.Prelude.{◌≡◌, IfOk};

use as4_values::{NoMemory, PlainData, Seq};
use mode_values::Mode;
use pmodes::{MAX_MODES, Modes};
use std::alloc::Global;

/// The same modes.
pub fn copy_of(alloc: Global, modes: &Modes) -> Result<Modes, NoMemory>
    ensures { IfOk result (λ copy. copy ≡ modes.now) }
{
    let list = list_of(alloc, modes)?;
    match Modes::of_list(alloc, list) {
        Ok(copy) => Ok(copy),
        Err(refusal) => {
            drop(refusal);
            Err(NoMemory)
        }
    }
}

/// The list of the modes.
fn list_of(alloc: Global, modes: &Modes) -> Result<Seq<Mode>, NoMemory>
    ensures { IfOk result (λ list. list ≡ modes.now) }
{
    let mut list = Vec::new(alloc);
    for place in 0..MAX_MODES {
        let Some(mode) = modes.get(place as u64) else {
            return Ok(Seq::of(list));
        };
        list.push(mode.try_clone(alloc)?)?;
    }
    // For its contract: there are no more.
    let _few = modes.get(0);
    Ok(Seq::of(list))
}

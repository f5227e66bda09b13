//! Reads the body of a record.

ghost use Rattle.std.specs.Prelude.{◌≡◌, ◌≤◌, ◌↔◌, List, length, IfOk, IsErrOf, IsTrue};
ghost use Rattle.as4_effects.specs.Effects.{effects_body, effects_limit};
ghost use Rattle.as4_effects.specs.declared.effect.Effect.{Effect};
ghost use Rattle.event_code.specs.Spelled.{AreSpelled};

use crate::reading::{Readable, read_items};
use crate::refusal::BodyRefusal;
use crate::rest::Rest;
use as4_effects::Effect;
use as4_values::Seq;
use std::alloc::Global;

/// The most effects of a body.
const MAX_EFFECTS: u64 = 1024;

/// Reads the effects of a body: all of the bytes, unchanged.
pub fn read_body(alloc: Global, bytes: &[u8]) -> Result<Seq<Effect>, BodyRefusal>
    ensures found { IfOk result (λ effects. (bytes.now ≡ effects_body effects)
        × (1 ≤ length effects) × (length effects ≤ effects_limit)) }
    ensures spelled { IfOk result (λ effects. AreSpelled effects) }
    ensures not_body { IsErrOf result BodyRefusal.NotBody → (effects : List Effect)
        → 1 ≤ length effects → length effects ≤ effects_limit → AreSpelled effects
        → bytes.now ≡ effects_body effects → ⊥ }
{
    let mut rest = Rest::of(bytes);
    let count = rest.take_number(2)?;
    if !may_count(count) {
        return Err(BodyRefusal::NotBody);
    }
    let effects = read_items(alloc, &mut rest, count)?;
    // Laws: no bytes begin with two effects.
    Effect::once();
    if !rest.is_empty() {
        return Err(BodyRefusal::NotBody);
    }
    Ok(Seq::of(effects))
}

/// Whether a body may have this many effects.
fn may_count(count: u64) -> bool
    ensures { IsTrue result ↔ ((1 ≤ count) × (count ≤ effects_limit)) }
{
    count >= 1 && count <= MAX_EFFECTS
}

/// No bytes are the body of two different lists of effects.
pub fn one_body()
    ensures { (e f : List Effect) → length e ≤ effects_limit → length f ≤ effects_limit → AreSpelled e → AreSpelled f
        → effects_body e ≡ effects_body f → e ≡ f }
{
    // Laws: no bytes begin with two effects.
    Effect::once();
}

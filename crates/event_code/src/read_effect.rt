//! Reads effects, by the byte of their kind.
#![tactic(auto, unfolding(as4_effects::specs::Effects::effect_body, crate::specs::Spelled::IsSpelledEffect))]

ghost use Rattle.std.specs.Prelude.{◌≡◌, ◌≢◌, ◌∷◌, ◌++◌, IfOk, IsErrOf};
ghost use Rattle.byte_forms.specs.Forms.{Refuses};
ghost use Rattle.as4_effects.specs.Effects.{effect_body};
ghost use Rattle.event_code.specs.Spelled.{IsSpelledEffect};

use crate::read_messages::read_carried;
use crate::reading::Readable;
use crate::refusal::BodyRefusal;
use crate::rest::Rest;
use as4_effects::{Delivery, Effect, Kept, Submission, Tick};
use as4_values::Code;
use std::alloc::Global;

impl Readable for Effect {
    ghost body = { effect_body };

    ghost is_one = { IsSpelledEffect };

    fn read(alloc: Global, rest: &mut Rest) -> Result<Effect, BodyRefusal> {
        match rest.take_byte()? {
            1 => Ok(Effect::Submitted(Submission::read(alloc, rest)?)),
            4 => Ok(Effect::Delivered(Delivery::read(alloc, rest)?)),
            8 => Ok(Effect::Carried(read_carried(alloc, rest)?)),
            9 => Ok(Effect::Kept(Kept::read(alloc, rest)?)),
            kind => read_small(alloc, rest, kind),
        }
    }

    fn once() {
        // Laws: the same for each kind of effect with a body of its own.
        Submission::once();
        Tick::once();
        Delivery::once();
        Kept::once();
    }
}

/// Reads an effect that holds no message, after the byte of its kind.
fn read_small(alloc: Global, rest: &mut Rest, kind: u8) -> Result<Effect, BodyRefusal>
    requires small { (kind ≢ 1) × (kind ≢ 4) × (kind ≢ 8) × (kind ≢ 9) }
    ensures found { IfOk result (λ effect. IsSpelledEffect effect × (kind ∷ rest.old ≡ effect_body effect ++ rest.new)) }
    ensures not_body { IsErrOf result BodyRefusal.NotBody → Refuses IsSpelledEffect effect_body (kind ∷ rest.old) }
{
    match kind {
        2 => Ok(Effect::Ticked(Tick::read(alloc, rest)?)),
        3 => Ok(Effect::Tried {
            number: u64::read(alloc, rest)?,
        }),
        5 => Ok(Effect::Receipted {
            number: u64::read(alloc, rest)?,
        }),
        6 => {
            let (number, code) = <(u64, Code)>::read(alloc, rest)?;
            Ok(Effect::Refused { number, code })
        }
        7 => Ok(Effect::Confirmed {
            upto: u64::read(alloc, rest)?,
        }),
        _ => Err(BodyRefusal::NotBody),
    }
}

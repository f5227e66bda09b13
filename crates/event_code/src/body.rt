//! The body of a record: the count of its effects, followed by the effects.

ghost use Rattle.std.specs.Prelude.{◌≡◌, ◌≤◌, ◌+◌, ◌*◌, [], ◌∷◌, ◌++◌, length, OnOk};
ghost use Rattle.std.specs.List.{sum_by};
ghost use Rattle.as4_effects.specs.Bodies.{number_body};
ghost use Rattle.as4_effects.specs.Effects.{submission_body, standing_body, effect_body, effects_body, carried_limit, most_bytes_of, effects_limit};
ghost use Rattle.as4_effects.specs.Marks.{mark_body};
ghost use Rattle.as4_effects.specs.declared.effect.Tick.{Tick};
ghost use Rattle.event_code.specs.Spelled.{AreSpelled};
ghost use Rattle.as4_effects.specs.declared.effect.Effect.TheVariants.{Ticked, Confirmed};

use crate::spelled::Spelled;
use crate::written::{Written, push_all, push_number};
use as4_effects::{Carried, Effect, Mark, Measured};
use as4_values::{MAX_MOMENT, NoMemory, Seq};

/// The number of bytes of an effect.
#[tactic(auto, using(crate::proofs::BodyLemmas::counted_exactly, crate::proofs::BodyLemmas::counted_within, crate::proofs::BodyLemmas::refused_length, as4_effects::proofs::LengthLemmas::number_length), unfolding(as4_effects::specs::Effects::effect_body))]
fn effect_len(effect: &Effect) -> u64
    ensures exact { result ≡ length (effect_body effect.now) }
    ensures limited { result ≤ most_bytes_of effect.now }
{
    match effect {
        Effect::Submitted(submission) => submission.add_len(0),
        Effect::Delivered(delivery) => delivery.add_len(0),
        Effect::Kept(kept) => kept.add_len(0),
        Effect::Carried(carried) => carried_len(carried),
        Effect::Refused { code, .. } => 13 + code.bytes().len() as u64,
        Effect::Ticked(_) => 9,
        Effect::Tried { .. } => 9,
        Effect::Receipted { .. } => 9,
        Effect::Confirmed { .. } => 9,
    }
}

/// The number of bytes of a carried submission: at most 81 more than those of the submission alone.
#[tactic(auto, using(crate::proofs::BodyLemmas::counted_exactly, crate::proofs::BodyLemmas::counted_within, crate::proofs::BodyLemmas::standing_length))]
fn carried_len(carried: &Carried) -> u64
    ensures exact { result ≡ length (8 ∷ standing_body carried.now) }
    ensures more { result ≤ length (submission_body carried.now.submission) + 81 }
    ensures limited { result ≤ carried_limit }
{
    carried.submission.add_len(0) + 12 + mark_len(&carried.standing)
}

#[tactic(auto, using(crate::proofs::BodyLemmas::mark_length), unfolding(as4_effects::specs::Marks::mark_body))]
fn mark_len(mark: &Mark) -> u64
    ensures exact { result ≡ length (mark_body mark.now) }
    ensures limited { result ≤ 69 }
{
    match mark {
        Mark::Refused { code } => 5 + code.bytes().len() as u64,
        _ => 1,
    }
}

/// The number of bytes of the body of these effects.
#[tactic(auto, using(crate::proofs::BodyLemmas::more_length, crate::proofs::BodyLemmas::more_most, crate::proofs::BodyLemmas::most_within, crate::proofs::BodyLemmas::body_length, crate::proofs::BodyLemmas::body_most))]
pub fn body_len(effects: &Seq<Effect>) -> u64
    requires { length effects.now ≤ effects_limit }
    ensures exact { result ≡ length (effects_body effects.now) }
    ensures most { result ≤ 2 + sum_by most_bytes_of effects.now }
    ensures limited { result ≤ 2 + carried_limit * length effects.now }
{
    let mut len = 2;
    for effect in effects.items() {
        len += effect_len(effect);
    }
    len
}

/// The body of one tick to this moment.
#[tactic(auto, unfolding(as4_effects::specs::Effects::effect_body, as4_effects::specs::Effects::effects_body, as4_effects::specs::Bodies::number_body))]
pub fn tick_body(moment: u64) -> [u8; 11]
    requires { moment ≤ MAX_MOMENT }
    ensures { (tick : Tick) → tick.moment ≡ moment → result ≡ effects_body (Ticked tick ∷ []) }
{
    body_of_number(2, moment)
}

/// The body of one effect that confirms the messages up to this one.
#[tactic(auto, unfolding(as4_effects::specs::Effects::effect_body, as4_effects::specs::Effects::effects_body, as4_effects::specs::Bodies::number_body))]
pub fn confirm_body(upto: u64) -> [u8; 11]
    ensures { result ≡ effects_body (Confirmed upto ∷ []) }
{
    body_of_number(7, upto)
}

/// The body of one effect of this kind whose only field is a number.
#[tactic(auto, using(crate::proofs::NumberLemmas::eight_bytes))]
fn body_of_number(kind: u8, number: u64) -> [u8; 11]
    ensures { result ≡ 0 ∷ 1 ∷ kind ∷ number_body 8 number }
{
    let [a, b, c, d, e, f, g, h] = number.to_be_bytes();
    [0, 1, kind, a, b, c, d, e, f, g, h]
}

/// Appends the body of these effects. When out of memory, it may have appended a part of it.
#[tactic(auto, unfolding(as4_effects::specs::Effects::effects_body))]
pub fn push_body(out: &mut Vec<u8>, effects: &Seq<Effect>) -> Result<(), NoMemory>
    requires some { 1 ≤ length effects.now }
    requires counted { length effects.now ≤ effects_limit }
    ensures body { OnOk result (out.new.items ≡ out.old.items ++ effects_body effects.now) }
    // The bytes are read as these effects and no others.
    ensures spelled { AreSpelled effects.now }
{
    // Laws: the parts of each effect satisfy the invariants of their types.
    effects.show();
    push_number(out, 2, effects.items().len() as u64)?;
    push_all(out, effects.items())
}

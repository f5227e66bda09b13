//! Which submissions an error signal refuses (ebMS 3.0 Core, section 6.2).
//!
//!     a failure  names a message by its own reference, else by the signal's; it refuses the pending submission with
//!                this message, unless an earlier item does
//!     a warning  refuses none
//!
//! The calls of `EndTables::submitted` are for its contract: each submission is at the place of its number.

ghost use Rattle.std.specs.Prelude.{◌≡◌, ◌≤◌, IfOk, length, option_copied, option_map};
ghost use Rattle.std.specs.List.{list_any};
ghost use Rattle.std.specs.Option.{option_or};
ghost use Rattle.msh_state.specs.Standing.{CanStand};
ghost use Rattle.exchange_model.specs.Refusing.{refusal_of, refusals_of};
ghost use Rattle.msh_transitions.specs.Naming.{has_number};

use as4_effects::Effect;
use as4_values::{ErrorItem, MessageId, NoMemory, PlainData, Seq, Severity};
use msh_state::EndTables;
use std::alloc::Global;

/// The effects of the items of an error signal that refers to this message: a refusal of each pending submission that a
/// failure names, with the code of the first such failure, in the order of the items.
pub fn refusals_of(
    alloc: Global,
    tables: &EndTables,
    ref_to: &Option<MessageId>,
    items: &[ErrorItem],
) -> Result<Seq<Effect>, NoMemory>
    requires few { length items.now ≤ 256 }
    ensures value { IfOk result (λ effects. effects ≡ refusals_of ref_to.now tables.now.end.sent items.now) }
    ensures stands { IfOk result (λ effects. CanStand tables.now.end effects) }
{
    let _numbered = tables.submitted();
    let mut effects = Vec::new(alloc);
    for item in items {
        let Some(number) = refused_by(tables, ref_to, item) else {
            continue;
        };
        if !has_number(effects.as_slice(), number) {
            let code = item.code.try_clone(alloc)?;
            effects.push(Effect::Refused { number, code })?;
        }
    }
    Ok(Seq::of(effects))
}

/// The number of the pending submission that the item refuses.
fn refused_by(tables: &EndTables, ref_to: &Option<MessageId>, item: &ErrorItem) -> Option<u64>
    ensures { result ≡ option_map (λ refusal. refusal.number) (refusal_of ref_to.now tables.now.end.sent item.now) }
{
    if item.severity == Severity::Warning {
        return None;
    }
    let about = about_of(ref_to, item)?;
    let number = tables.number_of(about)?;
    if tables.is_pending(number) {
        Some(number)
    } else {
        None
    }
}

/// The message that the item is about.
fn about_of<'a>(ref_to: &'a Option<MessageId>, item: &'a ErrorItem) -> Option<&'a MessageId>
    ensures { option_copied result ≡ option_or item.now.about ref_to.now }
{
    match &item.about {
        Some(about) => Some(about),
        None => ref_to.as_ref(),
    }
}

/// Whether one of the effects refuses the submission of this number.
fn has_number(effects: &[Effect], number: u64) -> bool
    ensures { result ≡ list_any (has_number number) effects.now }
{
    for effect in effects {
        if let Effect::Refused { number: other, .. } = effect
            && *other == number
        {
            return true;
        }
    }
    false
}

//! Reads the bodies of records.

ghost use Rattle.std.specs.Prelude.{IfOk, map};
ghost use Rattle.as4_audit.specs.Audit.{AllRead, Reads};

use as4_effects::Effect;
use as4_values::{NoMemory, Seq};
use event_code::{BodyRefusal, read_body};
use std::alloc::Global;

/// The effects of each body; None for one that is no body of effects.
pub fn records_of(alloc: Global, bodies: &[&[u8]]) -> Result<Seq<Option<Seq<Effect>>>, NoMemory>
    ensures { IfOk result (AllRead (map (λ body. body.now) bodies.now)) }
{
    let mut records = Vec::with_capacity(alloc, bodies.len())?;
    for body in bodies {
        records.push(record_of(alloc, body)?)?;
    }
    Ok(Seq::of(records))
}

/// The effects of one body; None if it is no body of effects.
pub fn record_of(alloc: Global, body: &[u8]) -> Result<Option<Seq<Effect>>, NoMemory>
    ensures { IfOk result (Reads body.now) }
{
    match read_body(alloc, body) {
        Ok(effects) => Ok(Some(effects)),
        Err(BodyRefusal::NotBody) => Ok(None),
        Err(BodyRefusal::NoMemory) => Err(NoMemory),
    }
}

//! The loads of a drill's messages.

ghost use Rattle.std.specs.Prelude.{◌≡◌, ◌∷◌, [], IfOk, IsTrue};
ghost use Rattle.drill_script.specs.LineText.{is_load};
ghost use Rattle.drill_texts.specs.Loads.{loads_of, octets_load, pattern};

use as4_values::{Load, NoMemory, Octets, PlainData, Seq};
use drill_script::ScriptLoad;
use std::alloc::Global;

/// The payload of a message of a script: none, or one load of bytes (`application/octet-stream`).
pub fn loads_of(alloc: Global, load: &ScriptLoad) -> Result<Seq<Load>, NoMemory>
    requires { IsTrue (is_load load.now) }
    ensures { IfOk result (λ loads. loads ≡ loads_of load.now) }
{
    match load {
        ScriptLoad::Nothing => Ok(Seq::of(Vec::new(alloc))),
        ScriptLoad::Hex(bytes) => one_load(alloc, bytes.try_clone(alloc)?),
        ScriptLoad::Size(size) => one_load(alloc, pattern(alloc, *size)?),
    }
}

/// One load of these bytes.
fn one_load(alloc: Global, content: Octets) -> Result<Seq<Load>, NoMemory>
    ensures { IfOk result (λ loads. loads ≡ octets_load content ∷ []) }
{
    let mut loads = Vec::with_capacity(alloc, 1)?;
    let media = Octets::of(Vec::from_slice(alloc, b"application/octet-stream")?);
    loads.push_reserved(Load { media, content });
    Ok(Seq::of(loads))
}

/// This many bytes; the byte at index i is i mod 251.
#[tactic(auto, using(crate::proofs::PatternLemmas::pattern_more), unfolding(crate::specs::Loads::pattern))]
fn pattern(alloc: Global, size: u32) -> Result<Octets, NoMemory>
    ensures { IfOk result (λ bytes. bytes ≡ pattern size) }
{
    let mut bytes = Vec::with_capacity(alloc, size as usize)?;
    for place in 0..size {
        bytes.push_reserved((place % 251) as u8);
    }
    Ok(Octets::of(bytes))
}

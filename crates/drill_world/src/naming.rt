//! The modes that a script names, ends that have them, and texts of its names.
ghost use Rattle.std.specs.Prelude.{◌≡◌, ◌≢◌, ◌<◌, ◌≤◌, ◌++◌, ◌∷◌, [], Err, IfOk, IsTrue, OnErr, OnOk, false, length, true};
ghost use Rattle.drill_world.specs.Transcript.{may_be_named};
ghost use Rattle.std.specs.List.{list_any};
ghost use Rattle.std.specs.Str.{bytes_eq};
ghost use Rattle.mode_values.specs.declared.mode.Mode.{Mode as ModeValue};
ghost use Rattle.drill_script.specs.LineText.{is_name};
ghost use Rattle.drill_texts.specs.Modes.{AreDrillModes, IsDrillMode};
ghost use Rattle.exchange_model.specs.World.{new_speaker};

use crate::endpoint::Endpoint;
use crate::playing::MAX_MODES;
use crate::refused::Refused;
use as4_values::{NoMemory, Octets, PlainData, Seq, Text};
use drill_script::{LinkName, Way};
use drill_texts::{drill_mode, modes_of};
use mode_values::Mode;
use pmodes::Modes;
use std::alloc::Global;

/// Copies of modes.
pub fn copies_of(alloc: Global, modes: &[Mode]) -> Result<Seq<Mode>, NoMemory>
    ensures { IfOk result (λ copies. copies ≡ modes.now) }
{
    let mut copies = Vec::with_capacity(alloc, modes.len())?;
    for mode in modes {
        copies.push(mode.try_clone(alloc)?)?;
    }
    Ok(Seq::of(copies))
}

/// Whether a mode has this name.
fn is_named(modes: &[Mode], name: &Octets) -> bool
    ensures { result ≡ list_any (λ (mode : ModeValue). bytes_eq mode.name name.now) modes.now }
{
    modes.iter().any(|mode| mode.name.bytes() == name.bytes())
}

/// Adds the mode of a line.
fn add_mode(
    alloc: Global,
    modes: &mut Vec<Mode>,
    link: Option<LinkName>,
    name: &Octets,
    way: Way,
    retries: u32,
    period: u64,
) -> Result<(), NoMemory>
    requires named { IsTrue (is_name name.now) }
    requires retries { retries ≤ 1000 }
    requires begun { 1 ≤ period }
    requires period { period ≤ 1000000000 }
    ensures adds { OnOk result ((mode : ModeValue) × IsDrillMode link name.now way retries period mode
        × (modes.new.items ≡ modes.old.items ++ mode ∷ [])) }
    ensures stays { OnErr result (modes.new.items ≡ modes.old.items) }
{
    modes.reserve(1)?;
    let mode = drill_mode(alloc, link, name, way, retries, period)?;
    modes.push_reserved(mode);
    Ok(())
}

/// Adds the mode of a line, where the script has only named modes so far, fewer than 1,024, and none of this name.
pub fn name_mode(
    alloc: Global,
    modes: &mut Vec<Mode>,
    begun: bool,
    link: Option<LinkName>,
    name: &Octets,
    way: Way,
    retries: u32,
    period: u64,
) -> Result<(), Refused>
    requires named { IsTrue (is_name name.now) }
    requires retries { retries ≤ 1000 }
    requires some { 1 ≤ period }
    requires period { period ≤ 1000000000 }
    requires made { AreDrillModes modes.old.items }
    ensures placed { OnOk result (may_be_named name.now modes.old.items begun ≡ true) }
    ensures adds { OnOk result ((mode : ModeValue) × IsDrillMode link name.now way retries period mode
        × (modes.new.items ≡ modes.old.items ++ mode ∷ [])) }
    ensures made { AreDrillModes modes.new.items }
    ensures stays { OnErr result (modes.new.items ≡ modes.old.items) }
    ensures wrong { result ≡ Err Refused.Wrong → may_be_named name.now modes.old.items begun ≡ false }
    ensures told { may_be_named name.now modes.old.items begun ≡ false → result ≡ Err Refused.Wrong }
    ensures few { result ≢ Err Refused.TooMany }
{
    if begun || modes.len() >= MAX_MODES || is_named(modes.as_slice(), name) {
        return Err(Refused::Wrong);
    }
    add_mode(alloc, modes, link, name, way, retries, period)?;
    Ok(())
}

/// The text that a name is.
#[tactic(auto, using(drill_texts::proofs::ModeLemmas::name_is_plain))]
pub fn name_text(alloc: Global, name: &Octets) -> Result<Text, NoMemory>
    requires { IsTrue (is_name name.now) }
    ensures { IfOk result (λ text. text ≡ name.now) }
{
    Text::plain(alloc, name.bytes())
}

/// A copy of modes of a script.
pub fn own_modes(alloc: Global, modes: &[Mode]) -> Result<Modes, NoMemory>
    requires { AreDrillModes modes.now }
    ensures { IfOk result (λ own. own ≡ modes.now) }
{
    modes_of(alloc, copies_of(alloc, modes)?)
}

/// An end to which nothing happened yet, with these modes.
pub fn new_endpoint(alloc: Global, modes: &[Mode]) -> Result<Endpoint, NoMemory>
    requires { AreDrillModes modes.now }
    ensures { IfOk result (λ endpoint. endpoint ≡ record { speaker = new_speaker; modes = modes.now }) }
{
    Endpoint::new(alloc, own_modes(alloc, modes)?)
}

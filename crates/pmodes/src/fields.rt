//! Reads the keys of a table: required ones and optional ones.

ghost use Rattle.std.specs.Prelude.{◌≡◌, IsTrue, Ok, IfOk, IfErr, IfSome};
ghost use Rattle.toml.specs.View.{table_view};
ghost use Rattle.mode_values.specs.ModeRanges.{is_short};
ghost use Rattle.pmodes.specs.Verdicts.{needed_text, optional_text, Refuses};

use crate::fault::Fault;
use crate::refusal::Key;
use crate::values::{text_of, value_at};
use as4_values::Text;
use std::alloc::Global;
use toml::Table;

/// A required text.
#[tactic(auto, unfolding(crate::specs::Verdicts::needed_text))]
pub fn needed_text(alloc: Global, table: &Table, name: &str, key: Key) -> Result<Text, Fault>
    ensures found { IfOk result (λ text. needed_text key name.now (table_view table.now) ≡ Ok text) }
    ensures refused { IfErr result (Refuses (needed_text key name.now (table_view table.now))) }
    ensures short { IfOk result (λ text. IsTrue (is_short text)) }
{
    let Some(value) = value_at(table, name) else {
        return Err(Fault::Missing(key));
    };
    match text_of(alloc, value)? {
        Some(text) => Ok(text),
        None => Err(Fault::Range(key)),
    }
}

/// An optional text.
#[tactic(auto, unfolding(crate::specs::Verdicts::optional_text))]
pub fn optional_text(
    alloc: Global,
    table: &Table,
    name: &str,
    key: Key,
) -> Result<Option<Text>, Fault>
    ensures found { IfOk result (λ text. optional_text key name.now (table_view table.now) ≡ Ok text) }
    ensures refused { IfErr result (Refuses (optional_text key name.now (table_view table.now))) }
    ensures short { IfOk result (λ text. IfSome text (λ text. IsTrue (is_short text))) }
{
    let Some(value) = value_at(table, name) else {
        return Ok(None);
    };
    match text_of(alloc, value)? {
        Some(text) => Ok(Some(text)),
        None => Err(Fault::Range(key)),
    }
}

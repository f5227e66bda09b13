//! Reads the values of a table as texts, names, addresses and numbers.

ghost use Rattle.std.specs.Prelude.{◌≡◌, ◌≢◌, ℕ, List, ◌<◌, ◌≤◌, IsTrue, Some, false, IfOk, IfErr, IfSome, IfNone, option_and_then, option_map};
ghost use Rattle.std.specs.List.{list_all};
ghost use Rattle.toml.specs.Data.{as_integer, get_member};
ghost use Rattle.toml.specs.View.{view, table_view};
ghost use Rattle.as4_values.specs.Address.{is_address};
ghost use Rattle.mode_values.specs.ModeRanges.{is_mode_name, is_name_byte, is_short};
ghost use Rattle.as4_values.specs.Texts.{Spells};
ghost use Rattle.pmodes.specs.Values.{text_value, text_of, name_of, address_of, natural, number_of};

use as4_values::{NoMemory, Text, TextRefusal, is_address};
use std::alloc::Global;
use toml::{Table, Value};

/// The value of a key.
pub fn value_at<'a>(table: &'a Table, key: &str) -> Option<&'a Value>
    ensures { option_map (λ value. view value.now) result ≡ get_member key.now (table_view table.now) }
{
    table.get(key)
}

// The text of a string, if it has 1 to 255 bytes.
#[tactic(auto, unfolding(mode_values::specs::ModeRanges::is_short))]
fn short_text(alloc: Global, bytes: &[u8]) -> Result<Option<Text>, NoMemory>
    ensures some { IfOk result (λ read. IfSome read (λ text. Spells bytes.now text × IsTrue (is_short text))) }
    ensures none { IfOk result (λ read. IfNone read ((text : List ℕ) → Spells bytes.now text → is_short text ≡ false)) }
{
    match Text::read(alloc, bytes) {
        Ok(text) => {
            if text.bytes().len() <= 255 {
                Ok(Some(text))
            } else {
                Ok(None)
            }
        }
        Err(TextRefusal::BadText { .. }) => Ok(None),
        Err(TextRefusal::NoMemory) => Err(NoMemory),
    }
}

fn text_value(alloc: Global, bytes: &[u8]) -> Result<Option<Text>, NoMemory>
    ensures { IfOk result (λ read. read ≡ text_value bytes.now) }
{
    short_text(alloc, bytes)
}

/// A text of 1 to 255 bytes.
#[tactic(auto, using(crate::proofs::TextLemmas::text_is_short), unfolding(crate::specs::Values::text_of))]
pub fn text_of(alloc: Global, value: &Value) -> Result<Option<Text>, NoMemory>
    ensures value { IfOk result (λ read. read ≡ text_of (view value.now)) }
    ensures short { IfOk result (λ read. IfSome read (λ text. IsTrue (is_short text))) }
{
    match value.as_str() {
        Some(string) => text_value(alloc, string.as_bytes()),
        None => Ok(None),
    }
}

/// The name of a mode.
#[tactic(auto, using(crate::proofs::TextLemmas::name_is_text), unfolding(crate::specs::Values::name_of))]
pub fn name_of(alloc: Global, value: &Value) -> Result<Option<Text>, NoMemory>
    ensures value { IfOk result (λ read. read ≡ name_of (view value.now)) }
    ensures named { IfOk result (λ read. IfSome read (λ name. IsTrue (is_mode_name name))) }
{
    match value.as_str() {
        Some(string) if is_mode_name(string.as_bytes()) => text_value(alloc, string.as_bytes()),
        _ => Ok(None),
    }
}

#[tactic(auto, unfolding(mode_values::specs::ModeRanges::is_mode_name))]
fn is_mode_name(name: &[u8]) -> bool
    ensures { result ≡ is_mode_name name.now }
{
    !name.is_empty() && name.len() <= 64 && are_name_bytes(name)
}

fn are_name_bytes(bytes: &[u8]) -> bool
    ensures { result ≡ list_all is_name_byte bytes.now }
{
    bytes.iter().all(|byte| is_name_byte(*byte))
}

fn is_name_byte(byte: u8) -> bool
    ensures { result ≡ is_name_byte byte }
{
    byte.is_ascii_alphanumeric() || matches!(byte, b'-' | b'_' | b'.')
}

/// An address.
#[tactic(auto, unfolding(crate::specs::Values::address_of))]
pub fn address_of(alloc: Global, value: &Value) -> Result<Option<Text>, NoMemory>
    ensures value { IfOk result (λ read. read ≡ address_of (view value.now)) }
    ensures right { IfOk result (λ read. IfSome read (λ address. IsTrue (is_address address))) }
{
    match text_of(alloc, value)? {
        Some(text) if is_address(&text) => Ok(Some(text)),
        _ => Ok(None),
    }
}

/// An integer from `low` to `high`.
#[tactic(auto, unfolding(crate::specs::Values::number_of))]
pub fn number_of(low: u64, high: u64, value: &Value) -> Option<u64>
    ensures value { result ≡ number_of low high (view value.now) }
    ensures within { IfSome result (λ number. (low ≤ number) × (number ≤ high)) }
{
    match natural(value) {
        Some(number) if low <= number && number <= high => Some(number),
        _ => None,
    }
}

fn natural(value: &Value) -> Option<u64>
    ensures { result ≡ option_and_then natural (as_integer (view value.now)) }
{
    match value.as_integer() {
        Some(number) if number >= 0 => Some(number as u64),
        _ => None,
    }
}

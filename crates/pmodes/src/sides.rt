//! Reads the two sides of a mode.

ghost use Rattle.std.specs.Prelude.{◌≡◌, ◌≤◌, IsTrue, Ok, IfSome, IfOk, IfErr, codes, length, map, option_map};
ghost use Rattle.std.specs.List.{list_all};
ghost use Rattle.toml.specs.Data.{as_array, get_member};
ghost use Rattle.toml.specs.View.{view, table_view};
ghost use Rattle.mode_values.specs.ModeFields.{side_fields};
ghost use Rattle.mode_values.specs.ModeRanges.{is_short_party, is_short_side};
ghost use Rattle.pmodes.specs.ModeParts.{array_of_tables, are_tables, is_table, list_of, party_in, party_of, parties_in, side_fields_in, side_in};
ghost use Rattle.pmodes.specs.Verdicts.{and_then, needed, Refuses};

use crate::fault::Fault;
use crate::fields::{needed_text, optional_text};
use crate::refusal::Key;
use crate::values::value_at;
use as4_values::{Party, Seq, Side};
use std::alloc::Global;
use toml::{Table, Value};

/// The items of an array of `low` to `high` tables.
#[tactic(auto, unfolding(crate::specs::ModeParts::array_of_tables))]
pub fn array_of_tables(low: usize, high: usize, value: &Value) -> Option<&[Value]>
    ensures value { option_map (λ items. map view items.now) result ≡ array_of_tables low high (view value.now) }
    ensures within { IfSome result (λ items. (low ≤ length items.now) × (length items.now ≤ high)) }
{
    match items_of(value) {
        Some(items) if are_tables(low, high, items) => Some(items),
        _ => None,
    }
}

fn items_of(value: &Value) -> Option<&[Value]>
    ensures { option_map (λ items. map view items.now) result ≡ option_map list_of (as_array (view value.now)) }
{
    match value.as_array() {
        Some(items) => Some(items.as_slice()),
        None => None,
    }
}

// Whether there are `low` to `high` items, all of them tables.
#[tactic(auto, using(crate::proofs::TableLemmas::tables_counted))]
fn are_tables(low: usize, high: usize, items: &[Value]) -> bool
    ensures value { result ≡ are_tables low high (map view items.now) }
    ensures within { IsTrue result → (low ≤ length items.now) × (length items.now ≤ high) }
{
    low <= items.len() && items.len() <= high && are_all_tables(items)
}

fn are_all_tables(items: &[Value]) -> bool
    ensures { result ≡ list_all (λ item. is_table (view item)) items.now }
{
    items.iter().all(|item| item.is_table())
}

/// The side at a key, which is required.
#[tactic(auto, unfolding(crate::specs::ModeParts::side_in))]
pub fn side_in(alloc: Global, table: &Table, name: &str, key: Key) -> Result<Side, Fault>
    ensures found { IfOk result (λ side. side_in key (get_member name.now (table_view table.now)) ≡ Ok (side_fields side)) }
    ensures refused { IfErr result (Refuses (side_in key (get_member name.now (table_view table.now)))) }
    ensures short { IfOk result (λ side. IsTrue (is_short_side side.parties side.role)) }
{
    let Some(value) = value_at(table, name) else {
        return Err(Fault::Missing(key));
    };
    let Some(side) = value.as_table() else {
        return Err(Fault::Range(key));
    };
    side_fields_in(alloc, side)
}

#[tactic(auto, unfolding(crate::specs::ModeParts::side_fields_in, mode_values::specs::ModeRanges::is_short_side))]
fn side_fields_in(alloc: Global, table: &Table) -> Result<Side, Fault>
    ensures found { IfOk result (λ side. side_fields_in (table_view table.now) ≡ Ok (side_fields side)) }
    ensures refused { IfErr result (Refuses (side_fields_in (table_view table.now))) }
    ensures short { IfOk result (λ side. IsTrue (is_short_side side.parties side.role)) }
{
    let role = needed_text(alloc, table, "role", Key::Role)?;
    match listed_parties(alloc, table) {
        Ok(parties) => Ok(Side { parties, role }),
        Err(fault) => {
            drop(role);
            Err(fault)
        }
    }
}

fn listed_parties(alloc: Global, table: &Table) -> Result<Seq<Party>, Fault>
    ensures found { IfOk result (λ parties. and_then (needed Key.Party (array_of_tables 1 16) (get_member (codes "party") (table_view table.now))) parties_in ≡ Ok parties) }
    ensures refused { IfErr result (Refuses (and_then (needed Key.Party (array_of_tables 1 16) (get_member (codes "party") (table_view table.now))) parties_in)) }
    ensures counted { IfOk result (λ parties. (1 ≤ length parties) × (length parties ≤ 16)) }
    ensures short { IfOk result (λ parties. IsTrue (list_all is_short_party parties)) }
{
    let Some(value) = value_at(table, "party") else {
        return Err(Fault::Missing(Key::Party));
    };
    match array_of_tables(1, 16, value) {
        Some(items) => parties_in(alloc, items),
        None => Err(Fault::Range(Key::Party)),
    }
}

fn parties_in(alloc: Global, items: &[Value]) -> Result<Seq<Party>, Fault>
    ensures found { IfOk result (λ parties. parties_in (map view items.now) ≡ Ok parties) }
    ensures refused { IfErr result (Refuses (parties_in (map view items.now))) }
    ensures counted { IfOk result (λ parties. length parties ≡ length items.now) }
    ensures short { IfOk result (λ parties. IsTrue (list_all is_short_party parties)) }
{
    let mut parties = match Vec::with_capacity(alloc, items.len()) {
        Ok(parties) => parties,
        Err(_) => return Err(Fault::NoMemory),
    };
    for item in items {
        match party_of(alloc, item) {
            Ok(party) => parties.push_reserved(party),
            Err(fault) => {
                drop(parties);
                return Err(fault);
            }
        }
    }
    Ok(Seq::of(parties))
}

#[tactic(auto, unfolding(crate::specs::ModeParts::party_of))]
fn party_of(alloc: Global, item: &Value) -> Result<Party, Fault>
    ensures found { IfOk result (λ party. party_of (view item.now) ≡ Ok party) }
    ensures refused { IfErr result (Refuses (party_of (view item.now))) }
    ensures short { IfOk result (λ party. IsTrue (is_short_party party)) }
{
    match item.as_table() {
        Some(table) => party_in(alloc, table),
        None => Err(Fault::Range(Key::Party)),
    }
}

#[tactic(auto, unfolding(crate::specs::ModeParts::party_in, mode_values::specs::ModeRanges::is_short_party))]
fn party_in(alloc: Global, table: &Table) -> Result<Party, Fault>
    ensures found { IfOk result (λ party. party_in (table_view table.now) ≡ Ok party) }
    ensures refused { IfErr result (Refuses (party_in (table_view table.now))) }
    ensures short { IfOk result (λ party. IsTrue (is_short_party party)) }
{
    let id = needed_text(alloc, table, "id", Key::PartyKey)?;
    let kind = optional_text(alloc, table, "type", Key::PartyKey)?;
    Ok(Party { id, kind })
}

//! Reads how a mode's messages are sent.

ghost use Rattle.std.specs.Prelude.{◌≡◌, ◌≤◌, IsTrue, Some, None, Ok, IfOk, IfErr, codes};
ghost use Rattle.toml.specs.Data.{get_member};
ghost use Rattle.toml.specs.View.{view, table_view};
ghost use Rattle.as4_values.specs.Address.{is_address};
ghost use Rattle.mode_values.specs.ModeRanges.{is_mode_route, is_short, may_collect};
ghost use Rattle.pmodes.specs.ModeParts.{route_in, route_with, collect_in};
ghost use Rattle.pmodes.specs.Values.{address_of, text_of, number_of};
ghost use Rattle.pmodes.specs.Verdicts.{in_range, needed, Refuses};

use crate::fault::Fault;
use crate::refusal::Key;
use crate::values::{address_of, number_of, text_of, value_at};
use as4_values::{Route, Text};
use std::alloc::Global;
use toml::{Table, Value};

/// Either a push or a pull; `address` belongs to a pull.
#[tactic(auto, unfolding(crate::specs::ModeParts::route_in, crate::specs::ModeParts::route_with, mode_values::specs::ModeRanges::is_mode_route))]
pub fn route_in(alloc: Global, table: &Table) -> Result<Route, Fault>
    ensures found { IfOk result (λ route. route_in (table_view table.now) ≡ Ok route) }
    ensures refused { IfErr result (Refuses (route_in (table_view table.now))) }
    ensures right { IfOk result (λ route. IsTrue (is_mode_route route)) }
{
    match (value_at(table, "push"), value_at(table, "pull")) {
        (None, None) => Err(Fault::Missing(Key::Push)),
        (Some(_), Some(_)) => Err(Fault::Range(Key::Pull)),
        (Some(push), None) => Ok(Route::Push {
            address: address_in(alloc, Key::Push, push)?,
        }),
        (None, Some(pull)) => pull_in(alloc, table, pull),
    }
}

#[tactic(auto, unfolding(crate::specs::ModeParts::route_with, mode_values::specs::ModeRanges::is_mode_route))]
fn pull_in(alloc: Global, table: &Table, pull: &Value) -> Result<Route, Fault>
    ensures found { IfOk result (λ route. route_with None (Some (view pull.now)) (get_member (codes "address") (table_view table.now)) ≡ Ok route) }
    ensures refused { IfErr result (Refuses (route_with None (Some (view pull.now)) (get_member (codes "address") (table_view table.now)))) }
    ensures right { IfOk result (λ route. IsTrue (is_mode_route route)) }
{
    let mpc = channel_in(alloc, pull)?;
    match pull_address_in(alloc, table) {
        Ok(address) => Ok(Route::Pull { mpc, address }),
        Err(fault) => {
            drop(mpc);
            Err(fault)
        }
    }
}

fn address_in(alloc: Global, key: Key, value: &Value) -> Result<Text, Fault>
    ensures found { IfOk result (λ address. in_range key (address_of (view value.now)) ≡ Ok address) }
    ensures refused { IfErr result (Refuses (in_range key (address_of (view value.now)))) }
    ensures right { IfOk result (λ address. IsTrue (is_address address)) }
{
    match address_of(alloc, value)? {
        Some(address) => Ok(address),
        None => Err(Fault::Range(key)),
    }
}

fn channel_in(alloc: Global, value: &Value) -> Result<Text, Fault>
    ensures found { IfOk result (λ mpc. in_range Key.Pull (text_of (view value.now)) ≡ Ok mpc) }
    ensures refused { IfErr result (Refuses (in_range Key.Pull (text_of (view value.now)))) }
    ensures short { IfOk result (λ mpc. IsTrue (is_short mpc)) }
{
    match text_of(alloc, value)? {
        Some(mpc) => Ok(mpc),
        None => Err(Fault::Range(Key::Pull)),
    }
}

fn pull_address_in(alloc: Global, table: &Table) -> Result<Text, Fault>
    ensures found { IfOk result (λ address. needed Key.Address address_of (get_member (codes "address") (table_view table.now)) ≡ Ok address) }
    ensures refused { IfErr result (Refuses (needed Key.Address address_of (get_member (codes "address") (table_view table.now)))) }
    ensures right { IfOk result (λ address. IsTrue (is_address address)) }
{
    match value_at(table, "address") {
        Some(value) => address_in(alloc, Key::Address, value),
        None => Err(Fault::Missing(Key::Address)),
    }
}

/// A number from `low` to `high`; the key is required.
pub fn number_in(table: &Table, name: &str, key: Key, low: u64, high: u64) -> Result<u64, Fault>
    ensures value { result ≡ needed key (number_of low high) (get_member name.now (table_view table.now)) }
    ensures within { IfOk result (λ number. (low ≤ number) × (number ≤ high)) }
{
    match value_at(table, name) {
        Some(value) => number_of(low, high, value).ok_or(Fault::Range(key)),
        None => Err(Fault::Missing(key)),
    }
}

/// Whether this endpoint sends the pull requests: false where the key is missing; true only where the mode pulls.
#[tactic(auto, unfolding(crate::specs::ModeParts::collect_in))]
pub fn collect_in(table: &Table, route: &Route) -> Result<bool, Fault>
    ensures value { result ≡ collect_in route.now (table_view table.now) }
    ensures right { IfOk result (λ collect. IsTrue (may_collect route.now collect)) }
{
    let collect = match value_at(table, "collect") {
        Some(value) => value.as_bool().ok_or(Fault::Range(Key::Collect))?,
        None => false,
    };
    if may_collect(route, collect) {
        Ok(collect)
    } else {
        Err(Fault::Range(Key::Collect))
    }
}

#[tactic(auto, unfolding(mode_values::specs::ModeRanges::may_collect))]
fn may_collect(route: &Route, collect: bool) -> bool
    ensures { result ≡ may_collect route.now collect }
{
    match route {
        Route::Push { .. } => !collect,
        Route::Pull { .. } => true,
    }
}

//! Rows of values by name. A row stays, and so does its name.
ghost use Rattle.std.specs.Prelude.{◌≡◌, ◌≢◌, ◌<◌, ℕ, List, length, is_some, option_map, option_copied, position, bytes_eq, IfSome, OnOk, IsSome};
ghost use Rattle.as4_host.specs.Rows.{value_at, GetsRow};

use as4_values::{NoMemory, Octets};
use std::alloc::Global;
use std::mem;

/// A value and its name.
#[derive(Drop)]
pub(crate) struct Row<T: Drop> {
    pub(crate) name: Octets,
    pub(crate) value: T,
}

pub(crate) fn value_of<'a, T: Drop>(rows: &'a [Row<T>], name: &[u8]) -> Option<&'a T>
    ensures { option_copied result ≡ value_at rows.now name.now }
{
    match rows.iter().find(|row| row.name.bytes() == name) {
        Some(row) => Some(&row.value),
        None => None,
    }
}

/// Puts a value in the place of the name's value, which it gives back. A name without a row gets none.
pub(crate) fn replace<T: Drop>(rows: &mut [Row<T>], name: &[u8], value: T) -> Option<T>
    ensures was { result ≡ value_at rows.old name.now }
    ensures there { value_at rows.new name.now ≡ option_map (λ _. value) (value_at rows.old name.now) }
    ensures others { (n : List ℕ) → n ≢ name.now → value_at rows.new n ≡ value_at rows.old n }
    ensures kept { (n : List ℕ) → is_some (value_at rows.new n) ≡ is_some (value_at rows.old n) }
{
    let Some(at) = place_of(rows, name) else {
        drop(value);
        return None;
    };
    Some(mem::replace(&mut rows[at].value, value))
}

fn place_of<T: Drop>(rows: &[Row<T>], name: &[u8]) -> Option<usize>
    ensures place { result ≡ position (λ row. bytes_eq row.name name.now) rows.now }
    ensures within { IfSome result (λ at. at < length rows.now) }
{
    rows.iter().position(|row| row.name.bytes() == name)
}

/// Adds a row with this value, where the name has none.
pub(crate) fn add<T: Drop>(
    alloc: Global,
    rows: &mut Vec<Row<T>>,
    name: &[u8],
    value: T,
) -> Result<(), NoMemory>
    ensures ok { OnOk result (IsSome (value_at rows.new.items name.now)) }
    ensures rows { GetsRow value (value_at rows.old.items) (value_at rows.new.items) }
{
    if value_of(rows, name).is_some() {
        drop(value);
        return Ok(());
    }
    let Ok(name) = Vec::from_slice(alloc, name) else {
        drop(value);
        return Err(NoMemory);
    };
    let name = Octets::of(name);
    if let Err(refused) = rows.push(Row { name, value }) {
        drop(refused);
        return Err(NoMemory);
    }
    Ok(())
}

//! The files and guests of a host in memory, as rows by name.
ghost use Rattle.std.specs.Prelude.{◌≡◌, ◌≢◌, ◌⊎◌, List, ℕ, [], ◌++◌, map, None, Some, is_some, unwrap_or, IsSome, IfOk, OnOk};
ghost use Rattle.as4_disk.specs.Files.{image_of};
ghost use Rattle.as4_host.specs.Rows.{value_at, GetsRow};
ghost use Rattle.as4_host.specs.Files.{path_of};
ghost use Rattle.as4_host.specs.HostInMemory.{file_at, guests_at, AreKnown};

use crate::stack::Stack;
use crate::table::{Row, add, replace, value_of};
use as4_disk::{Files, Paths};
use as4_values::{NoMemory, Octets};
use std::alloc::Global;

/// Gives a store's files these bytes, where their paths have rows.
pub(crate) fn settle_files(files: &mut Vec<Row<Option<Octets>>>, paths: Paths<'_>, bytes: Files)
    ensures there { (q : _) → IsSome (value_at files.old.items (path_of paths.entry q))
        → ((r : _) → path_of paths.entry r ≡ path_of paths.entry q → r ≡ q)
        → file_at files.new.items (path_of paths.entry q) ≡ Some (image_of bytes q) }
    ensures elsewhere { (p : List ℕ) → ((q : _) → p ≢ path_of paths.entry q)
        → file_at files.new.items p ≡ file_at files.old.items p }
    ensures rows { (p : List ℕ) → is_some (value_at files.new.items p) ≡ is_some (value_at files.old.items p) }
{
    let Files {
        selector,
        leaf0,
        leaf1,
    } = bytes;
    set_file(files, paths.leaf0, leaf0);
    set_file(files, paths.leaf1, leaf1);
    set_file(files, paths.selector, selector);
}

/// Makes those of a store's files that aren't there, where their paths have rows.
pub(crate) fn make_files(alloc: Global, files: &mut Vec<Row<Option<Octets>>>, paths: Paths<'_>)
    ensures there { (q : _) → IsSome (value_at files.old.items (path_of paths.entry q))
        → file_at files.new.items (path_of paths.entry q) ≡ Some (unwrap_or (file_at files.old.items (path_of paths.entry q)) []) }
    ensures elsewhere { (p : List ℕ) → ((q : _) → p ≢ path_of paths.entry q)
        → file_at files.new.items p ≡ file_at files.old.items p }
    ensures rows { (p : List ℕ) → is_some (value_at files.new.items p) ≡ is_some (value_at files.old.items p) }
{
    make_file(alloc, files, paths.leaf0);
    make_file(alloc, files, paths.leaf1);
    make_file(alloc, files, paths.selector);
}

/// Gives a file these bytes, where its path has a row.
pub(crate) fn set_file(files: &mut Vec<Row<Option<Octets>>>, path: &str, bytes: Octets)
    ensures there { IsSome (value_at files.old.items path.now) → file_at files.new.items path.now ≡ Some bytes }
    ensures elsewhere { (p : List ℕ) → p ≢ path.now → file_at files.new.items p ≡ file_at files.old.items p }
    ensures rows { (p : List ℕ) → is_some (value_at files.new.items p) ≡ is_some (value_at files.old.items p) }
{
    let replaced = replace(files, path.as_bytes(), Some(bytes));
    drop(replaced);
}

// Makes an empty file where there is none, and its path has a row.
fn make_file(alloc: Global, files: &mut Vec<Row<Option<Octets>>>, path: &str)
    ensures there { IsSome (value_at files.old.items path.now) → file_at files.new.items path.now ≡ Some (unwrap_or (file_at files.old.items path.now) []) }
    ensures each { (p : List ℕ) → (file_at files.new.items p ≡ file_at files.old.items p)
        ⊎ (file_at files.new.items p ≡ Some (unwrap_or (file_at files.old.items p) [])) }
    ensures elsewhere { (p : List ℕ) → p ≢ path.now → file_at files.new.items p ≡ file_at files.old.items p }
    ensures rows { (p : List ℕ) → is_some (value_at files.new.items p) ≡ is_some (value_at files.old.items p) }
{
    if let Some(None) = value_of(files, path.as_bytes()) {
        set_file(files, path, Octets::of(Vec::new(alloc)));
    }
}

/// Takes the guests of an address, which then has none.
pub(crate) fn take_guests(doors: &mut Vec<Row<Stack>>, address: &str) -> Stack
    ensures was { result ≡ guests_at doors.old.items address.now }
    ensures there { guests_at doors.new.items address.now ≡ [] }
    ensures elsewhere { (a : List ℕ) → a ≢ address.now → guests_at doors.new.items a ≡ guests_at doors.old.items a }
    ensures rows { (a : List ℕ) → is_some (value_at doors.new.items a) ≡ is_some (value_at doors.old.items a) }
{
    match replace(doors, address.as_bytes(), Stack::new()) {
        Some(guests) => guests,
        None => Stack::new(),
    }
}

/// Adds guests after those of an address, where it has a row.
pub(crate) fn add_guests(doors: &mut Vec<Row<Stack>>, address: &str, others: Stack)
    ensures there { IsSome (value_at doors.old.items address.now)
        → guests_at doors.new.items address.now ≡ guests_at doors.old.items address.now ++ others }
    ensures elsewhere { (a : List ℕ) → a ≢ address.now → guests_at doors.new.items a ≡ guests_at doors.old.items a }
    ensures rows { (a : List ℕ) → is_some (value_at doors.new.items a) ≡ is_some (value_at doors.old.items a) }
{
    let mut guests = take_guests(doors, address);
    guests.put_on(others);
    let replaced = replace(doors, address.as_bytes(), guests);
    drop(replaced);
}

/// Copies of these names.
pub(crate) fn copies(alloc: Global, names: &[&str]) -> Result<Vec<Octets>, NoMemory>
    ensures { IfOk result (λ copies. copies.items ≡ map (λ name. name.now) names.now) }
{
    let mut copies = Vec::new(alloc);
    for name in names {
        let name = Octets::of(Vec::from_slice(alloc, name.as_bytes())?);
        copies.push(name)?;
    }
    Ok(copies)
}

/// Gives each of the names its rows, where it has none.
pub(crate) fn know(
    alloc: Global,
    files: &mut Vec<Row<Option<Octets>>>,
    doors: &mut Vec<Row<Stack>>,
    names: &[Octets],
) -> Result<(), NoMemory>
    ensures known { OnOk result (AreKnown names.now files.new.items doors.new.items) }
    ensures files { GetsRow None (value_at files.old.items) (value_at files.new.items) }
    ensures doors { GetsRow [] (value_at doors.old.items) (value_at doors.new.items) }
{
    for name in names {
        add(alloc, files, name.bytes(), None)?;
        add(alloc, doors, name.bytes(), Stack::new())?;
    }
    Ok(())
}

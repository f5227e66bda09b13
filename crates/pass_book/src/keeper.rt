//! The keeper: enters calls into the history.
ghost use Rattle.std.specs.Prelude.{◌≡◌, ◌+◌, ◌<◌, ◌≤◌, ◌^◌, ◌++◌, [], ◌∷◌, false, length, IfOk, IfErr, IsOk};
ghost use mathlib.Core.List.{IsPrefix};
ghost use Rattle.pass_book.specs.Views.{IsAtRest, IsOfPass};
ghost use Rattle.pass_book.specs.Seats.{IsSeatOf, view_of};

use crate::pass::Pass;
use crate::steps::{BookSeat, BookTable, absorb, append, look, split_all};
use as4_values::NoMemory;
use atomic_table::Table;
use std::alloc::Global;
use std::marker::Model;

/// The most entries that a history has, and the number of stakes.
pub const MAX_ENTRIES: u64 = 1 << 63;

/// The history has 2^63 entries: no more can be entered.
#[derive(Clone, Copy, Debug, PartialEq, Eq)]
pub struct Worn;

/// Enters calls. It knows the whole history: contracts see it as its book, which identifies its opening, and the list
/// of all entries.
#[derive(Drop)]
pub struct Keeper<'a, E> {
    table: &'a BookTable<E>,
    seat: BookSeat<E>,
    count: u64,
}

impl<'a, E> Model for Keeper<'a, E> {
    ghost use Rattle.pass_book.specs.States.{KeeperState};
    ghost use Rattle.pass_book.specs.Seats.{IsKeeperSeat, view_of};

    ghost Value = { KeeperState E };

    ghost view = { λ k. record { book = k.seat.table_id; list = (view_of k.seat).list } };

    ghost invariant = { λ k. IsKeeperSeat k.table.now.table_id k.seat k.count };
}

impl<'a, E> Keeper<'a, E> {
    /// A keeper of an empty history, and the pass that has all stakes. The word that they share is never freed.
    pub fn new(alloc: Global) -> Result<(Keeper<'a, E>, Pass<'a, E>), NoMemory>
        ensures keeper { IfOk result (λ opened. opened.0.list ≡ []) }
        ensures pass { IfOk result (λ opened. opened.1 ≡ record {
          book = opened.0.book;
          list = [];
          share = 0;
          stake = 2 ^ 63;
        }) }
    {
        let (table, mut seat) = Table::<(), _, _, _, _>::of_words(alloc, &[0], &())?;
        let kept: &'a Table<_, _, _, _, _> = Box::leak(Box::new(alloc, table)?);
        let table = &kept.shared;
        let pass = split_all(table, &mut seat);
        let keeper = Keeper {
            table,
            seat,
            count: 0,
        };
        let pass = Pass {
            table,
            seat: pass,
            share: 0,
            stake: MAX_ENTRIES,
            seen: 0,
        };
        Ok((keeper, pass))
    }

    /// Appends the entry, shows the pass the whole history, and returns the entry's place, from 0. If the history is
    /// full, this only shows it.
    pub fn enter(&mut self, pass: &mut Pass<'_, E>, entry: &E) -> Result<u64, Worn>
        requires book { pass.old.book ≡ self.old.book }
        ensures begins { IsPrefix pass.old.list self.old.list }
        ensures whole { pass.new.list ≡ self.new.list }
        ensures entered { IfOk result (λ place. (place ≡ length self.old.list)
            × (self.new.list ≡ self.old.list ++ entry.now ∷ []) × (pass.new.share ≡ pass.old.share + 1)) }
        ensures worn { IfErr result (λ _. (length self.old.list ≡ 2 ^ 63)
            × (self.new.list ≡ self.old.list) × (pass.new.share ≡ pass.old.share)) }
        ensures room { length self.old.list < 2 ^ 63 → IsOk result }
        ensures stays { (self.new.book ≡ self.old.book) × (pass.new.book ≡ pass.old.book)
            × (pass.new.stake ≡ pass.old.stake) }
    {
        if self.count == MAX_ENTRIES {
            self.show(pass);
            return Err(Worn);
        }
        let place = enter_by(self.table, &mut self.seat, &mut pass.seat, entry);
        self.count += 1;
        pass.share += 1;
        pass.seen = place + 1;
        Ok(place)
    }

    /// Shows the pass the whole history.
    pub fn show(&mut self, pass: &mut Pass<'_, E>)
        requires book { pass.old.book ≡ self.old.book }
        ensures begins { IsPrefix pass.old.list self.old.list }
        ensures whole { pass.new ≡ record pass.old { list = self.old.list } }
        ensures same { self.new ≡ self.old }
        ensures share { pass.old.share ≤ length self.old.list }
        ensures alone { pass.old.stake ≡ 2 ^ 63 → pass.old.share ≡ length self.old.list }
    {
        show_to(self.table, &mut self.seat, &mut pass.seat);
        pass.seen = self.count;
    }

    /// The number of entries, at most 2^63.
    pub fn len(&self) -> u64
        ensures value { result ≡ length self.now.list }
        ensures limit { result ≤ 2 ^ 63 }
    {
        self.count
    }

    /// Ends the history, and returns the number of entries.
    pub fn close(self, pass: Pass<'_, E>) -> u64
        requires book { pass.book ≡ self.book }
        ensures entries { result ≡ length self.entry.list }
        ensures alone { pass.entry.stake ≡ 2 ^ 63 → result ≡ pass.entry.share }
    {
        let Keeper {
            table,
            mut seat,
            count: _,
        } = self;
        let Pass {
            table: _,
            seat: other,
            share: _,
            stake: _,
            seen: _,
        } = pass;
        absorb(table, &mut seat, other);
        look(table, &mut seat)
    }
}

// Absorbs the pass's view, appends, and splits the view off again. Returns the entry's place.
fn enter_by<E>(
    table: &BookTable<E>,
    keeper: &mut BookSeat<E>,
    pass: &mut BookSeat<E>,
    entry: &E,
) -> u64
    requires seats { IsSeatOf table.now.table_id keeper.old × IsSeatOf table.now.table_id pass.old }
    requires keeper { IsAtRest (view_of keeper.old) (view_of keeper.old).list }
    requires plain { (view_of pass.old).is_keeper ≡ false }
    requires room { length (view_of keeper.old).list < 2 ^ 63 }
    requires stake { 0 < (view_of pass.old).stake }
    ensures begins { IsPrefix (view_of pass.old).list (view_of keeper.old).list }
    ensures place { result ≡ length (view_of keeper.old).list }
    ensures share { (view_of pass.old).share ≤ length (view_of keeper.old).list }
    ensures seats { IsSeatOf table.now.table_id keeper.new × IsSeatOf table.now.table_id pass.new }
    ensures keeper { IsAtRest (view_of keeper.new) ((view_of keeper.old).list ++ entry.now ∷ []) }
    ensures pass { IsOfPass (view_of pass.new)
        ((view_of keeper.old).list ++ entry.now ∷ [])
        ((view_of pass.old).share + 1)
        (view_of pass.old).stake }
{
    let taken = split_all(table, pass);
    absorb(table, keeper, taken);
    let place = append(table, keeper, entry);
    *pass = split_all(table, keeper);
    place
}

// Absorbs the pass's view, loads the word, and splits the view off again.
fn show_to<E>(table: &BookTable<E>, keeper: &mut BookSeat<E>, pass: &mut BookSeat<E>)
    requires seats { IsSeatOf table.now.table_id keeper.old × IsSeatOf table.now.table_id pass.old }
    requires keeper { IsAtRest (view_of keeper.old) (view_of keeper.old).list }
    requires plain { (view_of pass.old).is_keeper ≡ false }
    ensures begins { IsPrefix (view_of pass.old).list (view_of keeper.old).list }
    ensures share { (view_of pass.old).share ≤ length (view_of keeper.old).list }
    ensures alone { (view_of pass.old).stake ≡ 2 ^ 63 →
        (view_of pass.old).share ≡ length (view_of keeper.old).list }
    ensures seats { IsSeatOf table.now.table_id keeper.new × IsSeatOf table.now.table_id pass.new }
    ensures keeper { IsAtRest (view_of keeper.new) (view_of keeper.old).list }
    ensures pass { IsOfPass (view_of pass.new)
        (view_of keeper.old).list
        (view_of pass.old).share
        (view_of pass.old).stake }
{
    let taken = split_all(table, pass);
    absorb(table, keeper, taken);
    look(table, keeper);
    *pass = split_all(table, keeper);
}

//! The steps on the table's word, each with its effect on the view of its seat.
ghost use Rattle.std.specs.Prelude.{◌≡◌, ◌<◌, ◌^◌, true, false, length, Some};
ghost use Rattle.pass_book.specs.Views.{IsAdded, IsSeen, absorbed, merged, part_of, rest_of};
ghost use Rattle.pass_book.specs.Seats.{IsSeatOf, view_of};

use crate::view::{
    Absorb, All, Append, Look, Merge, NamesEntry, NamesStake, OneHistory, Part, View,
};
use atomic_table::{Seat, Shared};
use std::marker::Brand;

pub type BookTable<E> = Shared<(), View<E>, (), OneHistory>;

pub type BookSeat<E> = Seat<(), View<E>>;

/// Appends the entry, and returns its place.
pub fn append<E>(table: &BookTable<E>, seat: &mut BookSeat<E>, entry: &E) -> u64
    requires seat { IsSeatOf table.now.table_id seat.old }
    requires keeper { (view_of seat.old).is_keeper ≡ true }
    requires room { length (view_of seat.old).list < 2 ^ 63 }
    requires stake { 0 < (view_of seat.old).stake }
    ensures seat { IsSeatOf table.now.table_id seat.new }
    ensures added { IsAdded (view_of seat.old) entry.now result (view_of seat.new) }
{
    append_named::<E, Brand>(table, seat, entry)
}

fn append_named<E, B: NamesEntry<E>>(table: &BookTable<E>, seat: &mut BookSeat<E>, entry: &E) -> u64
    requires entry { B.entry ≡ Some entry.now }
    requires seat { IsSeatOf table.now.table_id seat.old }
    requires keeper { (view_of seat.old).is_keeper ≡ true }
    requires room { length (view_of seat.old).list < 2 ^ 63 }
    requires stake { 0 < (view_of seat.old).stake }
    ensures seat { IsSeatOf table.now.table_id seat.new }
    ensures added { IsAdded (view_of seat.old) entry.now result (view_of seat.new) }
{
    table.fetch_add::<Append<B>>(seat, 0, 1)
}

/// Loads the word, and returns it.
pub fn look<E>(table: &BookTable<E>, seat: &mut BookSeat<E>) -> u64
    requires seat { IsSeatOf table.now.table_id seat.old }
    ensures seat { IsSeatOf table.now.table_id seat.new }
    ensures same { view_of seat.new ≡ view_of seat.old }
    ensures seen { IsSeen (view_of seat.old) result }
{
    table.load::<Look>(seat, 0)
}

/// Splits a seat: the new one gets all of its share and stake.
pub fn split_all<E>(table: &BookTable<E>, seat: &mut BookSeat<E>) -> BookSeat<E>
    requires seat { IsSeatOf table.now.table_id seat.old }
    ensures seat { IsSeatOf table.now.table_id seat.new }
    ensures other { IsSeatOf table.now.table_id result }
    ensures rest { view_of seat.new ≡ rest_of (view_of seat.old) (view_of seat.old).share (view_of seat.old).stake }
    ensures part { view_of result ≡ part_of (view_of seat.old) (view_of seat.old).share (view_of seat.old).stake }
{
    table.split_seat::<All>(seat)
}

/// Splits a seat: the new one gets a part of its stake, and no share.
pub fn split_part<E>(table: &BookTable<E>, seat: &mut BookSeat<E>, part: u64) -> BookSeat<E>
    requires seat { IsSeatOf table.now.table_id seat.old }
    requires part { part < (view_of seat.old).stake }
    ensures seat { IsSeatOf table.now.table_id seat.new }
    ensures other { IsSeatOf table.now.table_id result }
    ensures rest { view_of seat.new ≡ rest_of (view_of seat.old) 0 part }
    ensures part { view_of result ≡ part_of (view_of seat.old) 0 part }
{
    split_named::<E, Brand>(table, seat, part)
}

fn split_named<E, B: NamesStake>(
    table: &BookTable<E>,
    seat: &mut BookSeat<E>,
    part: u64,
) -> BookSeat<E>
    requires stake { B.stake ≡ part }
    requires seat { IsSeatOf table.now.table_id seat.old }
    requires part { part < (view_of seat.old).stake }
    ensures seat { IsSeatOf table.now.table_id seat.new }
    ensures other { IsSeatOf table.now.table_id result }
    ensures rest { view_of seat.new ≡ rest_of (view_of seat.old) 0 part }
    ensures part { view_of result ≡ part_of (view_of seat.old) 0 part }
{
    table.split_seat::<Part<B>>(seat)
}

/// Joins a seat to the keeper's.
pub fn absorb<E>(table: &BookTable<E>, seat: &mut BookSeat<E>, other: BookSeat<E>)
    requires seat { IsSeatOf table.now.table_id seat.old }
    requires other { IsSeatOf table.now.table_id other }
    requires plain { (view_of other).is_keeper ≡ false }
    ensures seat { IsSeatOf table.now.table_id seat.new }
    ensures both { view_of seat.new ≡ absorbed (view_of seat.old) (view_of other) }
{
    table.join_seat::<Absorb>(seat, other);
}

/// Joins a pass's seat to that of another pass.
pub fn merge<E>(table: &BookTable<E>, seat: &mut BookSeat<E>, other: BookSeat<E>)
    requires seat { IsSeatOf table.now.table_id seat.old }
    requires other { IsSeatOf table.now.table_id other }
    requires plain { ((view_of seat.old).is_keeper ≡ false) × ((view_of other).is_keeper ≡ false) }
    ensures seat { IsSeatOf table.now.table_id seat.new }
    ensures both { view_of seat.new ≡ merged (view_of seat.old) (view_of other) }
{
    table.join_seat::<Merge>(seat, other);
}

//! The pass: a caller's view of the history.
ghost use Rattle.std.specs.Prelude.{◌≡◌, ◌+◌, ◌-◌, ◌<◌, ◌≤◌, ◌^◌, false, length};
ghost use mathlib.Core.List.{IsPrefix};
ghost use Rattle.pass_book.specs.States.{longer};
ghost use Rattle.pass_book.specs.Views.{IsOfPass};
ghost use Rattle.pass_book.specs.Seats.{IsSeatOf, view_of};

use crate::steps::{BookSeat, BookTable, look, merge, split_part};
use std::marker::Model;

/// A pass (a caller's view of the history) has seen a prefix of the history, and counts the calls that were made with
/// it: its share. Its stake is its part of the 2^63 stakes of all passes of a keeper: a pass that holds all 2^63 stakes
/// is the only one in existence. Contracts see it as its book, the list of what it has seen, its share and its stake.
#[derive(Drop)]
pub struct Pass<'a, E> {
    pub(crate) table: &'a BookTable<E>,
    pub(crate) seat: BookSeat<E>,
    // The numbers of the seat's view.
    pub(crate) share: u64,
    pub(crate) stake: u64,
    pub(crate) seen: u64,
}

impl<'a, E> Model for Pass<'a, E> {
    ghost use Rattle.pass_book.specs.States.{PassState};
    ghost use Rattle.pass_book.specs.Seats.{IsPassSeat, view_of};

    ghost Value = { PassState E };

    ghost view = { λ p. record {
      book = p.seat.table_id;
      list = (view_of p.seat).list;
      share = p.share;
      stake = p.stake;
    } };

    ghost invariant = { λ p. IsPassSeat p.table.now.table_id p.seat p.share p.stake p.seen };
}

impl<'a, E> Pass<'a, E> {
    /// Moves a part of the stake to a new pass, which has seen the same and made no call.
    pub fn split(&mut self, part: u64) -> Pass<'a, E>
        requires part { (0 < part) × (part < self.old.stake) }
        ensures new { result ≡ record self.old { share = 0; stake = part } }
        ensures rest { self.new ≡ record self.old { stake = self.old.stake - part } }
    {
        let seat = split_part(self.table, &mut self.seat, part);
        self.stake -= part;
        Pass {
            table: self.table,
            seat,
            share: 0,
            stake: part,
            seen: self.seen,
        }
    }

    /// Learns what the other has seen.
    pub fn meet(&mut self, other: &mut Pass<'_, E>)
        requires book { other.old.book ≡ self.old.book }
        ensures longer { self.new ≡ record self.old { list = longer self.old.list other.old.list } }
        ensures one { IsPrefix self.old.list self.new.list }
        ensures other { IsPrefix other.old.list self.new.list }
        ensures same { other.new ≡ other.old }
    {
        let told = split_part(self.table, &mut other.seat, 0);
        take_in(self.table, &mut self.seat, told);
        self.seen = self.seen.max(other.seen);
    }

    /// Absorbs the other, with its share and its stake.
    pub fn join(&mut self, other: Pass<'_, E>)
        requires book { other.book ≡ self.old.book }
        ensures sums { self.new ≡ record self.old {
          list = longer self.old.list other.entry.list;
          share = self.old.share + other.entry.share;
          stake = self.old.stake + other.entry.stake;
        } }
        ensures one { IsPrefix self.old.list self.new.list }
        ensures other { IsPrefix other.entry.list self.new.list }
    {
        let Pass {
            table: _,
            seat,
            share,
            stake,
            seen,
        } = other;
        take_in(self.table, &mut self.seat, seat);
        self.share += share;
        self.stake += stake;
        self.seen = self.seen.max(seen);
    }

    /// The number of calls that were made with it and with the passes that it absorbed, at most 2^63.
    pub fn share(&self) -> u64
        ensures value { result ≡ self.now.share }
        ensures limit { result ≤ 2 ^ 63 }
    {
        self.share
    }

    /// Its part of the 2^63 stakes, at least 1.
    pub fn stake(&self) -> u64
        ensures value { result ≡ self.now.stake }
        ensures limit { (0 < result) × (result ≤ 2 ^ 63) }
    {
        self.stake
    }

    /// The number of entries that it has seen, at most 2^63.
    pub fn seen(&self) -> u64
        ensures value { result ≡ length self.now.list }
        ensures limit { result ≤ 2 ^ 63 }
    {
        self.seen
    }
}

// Joins a seat to that of a pass, and loads: both have seen prefixes of the same history.
fn take_in<E>(table: &BookTable<E>, seat: &mut BookSeat<E>, other: BookSeat<E>)
    requires seats { IsSeatOf table.now.table_id seat.old × IsSeatOf table.now.table_id other }
    requires plain { ((view_of seat.old).is_keeper ≡ false) × ((view_of other).is_keeper ≡ false) }
    ensures seat { IsSeatOf table.now.table_id seat.new }
    ensures both { IsOfPass (view_of seat.new)
        (longer (view_of seat.old).list (view_of other).list)
        ((view_of seat.old).share + (view_of other).share)
        ((view_of seat.old).stake + (view_of other).stake) }
    ensures one { IsPrefix (view_of seat.old).list (view_of seat.new).list }
    ensures other { IsPrefix (view_of other).list (view_of seat.new).list }
    ensures limit { ((view_of seat.new).share ≤ 2 ^ 63) × ((view_of seat.new).stake ≤ 2 ^ 63) }
{
    merge(table, seat, other);
    look(table, seat);
}

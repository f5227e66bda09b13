//! The view of a seat, the rule of the table, and the effect of each kind of step.
use atomic_table::{Join, Play, Split, TableRule};
use std::collections::LinkedList;
use std::marker::{Brand, PhantomData};

/// What a seat knows: a prefix of the history, a second list that a join told it, the number of calls that it made, and
/// its part of the 2^63 stakes. It exists only in proofs: no value of it is ever made.
pub struct View<E> {
    pub is_keeper: bool,
    pub list: LinkedList<E>,
    pub told: LinkedList<E>,
    pub share: u64,
    pub stake: u64,
}

/// The rule of the table, whose one word is the length of the history.
pub struct OneHistory;

impl<E> TableRule<(), View<E>, ()> for OneHistory {
    ghost use Rattle.pass_book.specs.Views.{first_view};
    ghost use Rattle.pass_book.specs.Rule.{IsOneHistory};

    ghost holds = { λ _ s. IsOneHistory s.words s.views };

    ghost first = { λ _. first_view };
}

/// Names the entry that a step appends, because a step takes no value.
pub trait NamesEntry<E> {
    ghost use Rattle.std.specs.Prelude.{Option};

    ghost entry: { Option E };
}

impl<E> NamesEntry<E> for Brand {
    ghost use Rattle.std.specs.Prelude.{None};

    ghost entry = { None };
}

/// Names the stake that a step splits off.
pub trait NamesStake {
    ghost use Rattle.std.specs.Prelude.{ℕ};

    ghost stake: { ℕ };
}

impl NamesStake for Brand {
    ghost stake = { 0 };
}

/// Append.
pub struct Append<B>(PhantomData<B>);

impl<E, B: NamesEntry<E>> Play<(), View<E>> for Append<B> {
    ghost use Rattle.pass_book.specs.Views.{Adds};

    ghost then = { λ _ me found now. Adds B.entry me found now };
}

/// Load.
pub struct Look;

impl<E> Play<(), View<E>> for Look {
    ghost use Rattle.pass_book.specs.Views.{Looks};

    ghost then = { λ _ me found now. Looks me found now };
}

/// Split: the new seat gets everything that the seat has.
pub struct All;

impl<E> Split<View<E>> for All {
    ghost use Rattle.pass_book.specs.Views.{part_of, rest_of};

    ghost left = { λ v. rest_of v v.share v.stake };

    ghost right = { λ v. part_of v v.share v.stake };
}

/// Split: the new seat gets a named stake and no share.
pub struct Part<B>(PhantomData<B>);

impl<E, B: NamesStake> Split<View<E>> for Part<B> {
    ghost use Rattle.pass_book.specs.Views.{part_of, rest_of};

    ghost left = { λ v. rest_of v 0 B.stake };

    ghost right = { λ v. part_of v 0 B.stake };
}

/// Join: the keeper absorbs a pass.
pub struct Absorb;

impl<E> Join<View<E>> for Absorb {
    ghost use Rattle.pass_book.specs.Views.{absorbed, spent};

    ghost both = { absorbed };

    ghost spent = { spent };
}

/// Join: a pass absorbs a pass.
pub struct Merge;

impl<E> Join<View<E>> for Merge {
    ghost use Rattle.pass_book.specs.Views.{merged, spent};

    ghost both = { merged };

    ghost spent = { spent };
}

//! One end with its journal and its history.
ghost use Rattle.std.specs.Prelude.{◌≡◌, ◌≤◌, ◌^◌, IfSome, None, length};
ghost use mathlib.Core.List.{IsPrefix};
ghost use Rattle.as4_disk.specs.Image.{Image};
ghost use Rattle.as4_flow.specs.Flow.{Rose, Told};
ghost use Rattle.msh_recovery.specs.Opens.{KeepsEnd};
ghost use Rattle.msh_state.specs.Totals.{AreTotals};
ghost use Rattle.office.specs.Calls.{stop_of};
ghost use Rattle.office.specs.Left.{IsLeft};
ghost use Rattle.office.specs.State.{machine_of};

use crate::call::Call;
use as4_disk::{Disk, FaultCounts};
use journal::{Frame, Journal};
use msh_core::{Core, Totals};
use pass_book::{Keeper, Pass};
use std::alloc::Global;
use std::marker::Model;

/// An office. Contracts see its disk, its end with the modes, and the list of all calls that were entered.
#[derive(Drop)]
pub struct Office<'a, D: Disk> {
    pub(crate) alloc: Global,
    pub(crate) journal: Journal<D>,
    pub(crate) core: Core,
    pub(crate) keeper: Keeper<'a, Call>,
    // The record of a tick or a confirmation, which has 11 bytes.
    pub(crate) small: Frame,
    // The disk failed, and the office stands still.
    pub(crate) halt: Option<FaultCounts>,
}

impl<'a, D: Disk> Model for Office<'a, D> {
    ghost use Rattle.std.specs.Prelude.{◌≡◌, length};
    ghost use Rattle.office.specs.State.{IsInOrder, OfficeState};

    ghost Value = { OfficeState D };

    ghost view = { λ o. record {
      disk = o.journal.disk;
      end = o.core.end;
      places = o.core.places;
      modes = o.core.modes;
      rooms = o.core.rooms;
      book = o.keeper.book;
      list = o.keeper.list;
    } };

    ghost invariant = { λ o.
        IsInOrder D.Disk o.journal o.core.end o.core.places o.core.modes o.halt o.keeper.list × (length o.small ≡ 11) };
}

impl<'a, D: Disk> Office<'a, D> {
    /// Shows the pass all calls. It takes no memory.
    pub fn show(&mut self, pass: &mut Pass<'_, Call>)
        requires book { pass.old.book ≡ self.old.book }
        ensures begins { IsPrefix pass.old.list self.old.list }
        ensures whole { pass.new ≡ record pass.old { list = self.old.list } }
        ensures same { self.new ≡ self.old }
        ensures share { pass.old.share ≤ length self.old.list }
        ensures alone { pass.old.stake ≡ 2 ^ 63 → pass.old.share ≡ length self.old.list }
    {
        self.keeper.show(pass);
    }

    /// The end with its modes, to be read.
    pub fn core(&self) -> &Core
        ensures { result.now ≡ machine_of self.now }
    {
        &self.core
    }

    /// How many submissions, receipts, failures, refusals and deliveries there are.
    pub fn totals(&self) -> Totals
        ensures { AreTotals self.now.end result }
    {
        self.core.totals()
    }

    /// The fault of the disk since which the office stands still.
    pub fn halt(&self) -> Option<FaultCounts>
        ensures { result ≡ stop_of self.now.list }
    {
        self.halt
    }

    /// Gives the disk back. Without a fault among the calls each crash leaves one that opens to the end; with one, what
    /// that call may have left.
    pub fn into_disk(self) -> D
        ensures disk { result ≡ self.entry.disk }
        ensures safe { stop_of self.entry.list ≡ None → KeepsEnd D.Disk result self.entry.end }
        ensures left { Told (D.seen result) (λ _. (c : Image) → D.may_leave result c
            → IsLeft self.entry.modes self.entry.end self.entry.list c) }
        ensures stopped { IfSome (stop_of self.entry.list) (λ halt. Rose halt.before halt.after
            × (halt.after ≤ D.fault_count result)) }
    {
        let Office {
            alloc: _,
            journal,
            core,
            keeper,
            small,
            halt: _,
        } = self;
        drop(core);
        drop(keeper);
        drop(small);
        journal.into_disk()
    }
}

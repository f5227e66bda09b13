//! An office that several callers share under a lock.
ghost use Rattle.std.specs.Prelude.{◌≡◌, ◌≤◌, IsErrOf, ℕ, List};
ghost use Rattle.std.specs.Option.{option_copied};
ghost use Rattle.as4_doors.specs.WrittenText.{written_text};
ghost use Rattle.sessions.specs.Answering.{IsSamePass};
ghost use Rattle.sessions.specs.Shared.{AnswersUnder, IsLegal, IsOpened, SendsUnder, TicksUnder};

use crate::answering::answer_on;
use crate::ended::Ended;
use crate::naming::Opening;
use crate::sending::{Sending, send_on};
use as4_disk::Disk;
use as4_doors::Written;
use as4_values::{MAX_MOMENT, Text};
use exchange_model::{Event, Reply};
use office::{Call, Office, OfficeFault};
use pass_book::Pass;
use std::alloc::Global;
use std::marker::{Model, PhantomData};

/// An office with the name of its opening. Contracts see it as the office.
pub struct SharedOffice<'a, D: Disk, J: Opening> {
    office: Office<'a, D>,
    of: PhantomData<J>,
}

impl<'a, D: Disk, J: Opening> Model for SharedOffice<'a, D, J> {
    ghost use Rattle.office.specs.State.{OfficeState};
    ghost use Rattle.sessions.specs.Shared.{IsOpened};

    ghost Value = { OfficeState D };

    ghost view = { λ s. s.office };

    ghost invariant = { λ s. IsOpened D.Disk J.Opening s.office };
}

impl<'a, D: Disk, J: Opening> SharedOffice<'a, D, J> {
    pub fn new(office: Office<'a, D>) -> SharedOffice<'a, D, J>
        requires opened { IsOpened D.Disk J.Opening office }
        ensures office { result ≡ office.entry }
    {
        SharedOffice {
            office,
            of: PhantomData,
        }
    }

    pub fn into_office(self) -> Office<'a, D>
        ensures office { result ≡ self.entry }
        ensures opened { IsOpened D.Disk J.Opening result }
    {
        let SharedOffice { office, of: _ } = self;
        office
    }

    /// Makes the event's step and its response.
    pub(crate) fn answer(
        &mut self,
        alloc: Global,
        pass: &mut Pass<'_, Call>,
        event: Event,
        kept: bool,
    ) -> (Ended, Written)
        requires book { pass.old.book ≡ J.book }
        ensures answers { AnswersUnder D.Disk J.Opening pass.old pass.new kept event result.0 (written_text result.1) }
        ensures legal { IsLegal J.Opening pass.old.list → IsLegal J.Opening pass.new.list }
        ensures pass { IsSamePass pass.old pass.new }
    {
        answer_on(alloc, &mut self.office, pass, event, kept)
    }

    /// Makes the event's step, and the request of its reply. An answer goes back to the address `back`. If there is no
    /// memory for the request, nothing is entered.
    pub fn send(
        &mut self,
        alloc: Global,
        pass: &mut Pass<'_, Call>,
        event: Event,
        back: Option<&Text>,
    ) -> Result<Sending, OfficeFault>
        requires book { pass.old.book ≡ J.book }
        ensures sends { SendsUnder D.Disk J.Opening (option_copied back.entry) pass.old pass.new event result }
        ensures legal { IsLegal J.Opening pass.old.list → IsLegal J.Opening pass.new.list }
        ensures pass { IsSamePass pass.old pass.new }
    {
        send_on(alloc, &mut self.office, pass, event, back)
    }

    /// Sets the clock.
    pub(crate) fn tick(
        &mut self,
        pass: &mut Pass<'_, Call>,
        stamp: u64,
    ) -> Result<Reply, OfficeFault>
        requires book { pass.old.book ≡ J.book }
        requires dated { stamp ≤ MAX_MOMENT }
        ensures ticks { TicksUnder D.Disk J.Opening pass.old pass.new stamp result }
        ensures legal { IsLegal J.Opening pass.old.list → IsLegal J.Opening pass.new.list }
        ensures pass { IsSamePass pass.old pass.new }
        ensures memory { IsErrOf result OfficeFault.NoMemory → ⊥ }
    {
        self.office.tick(pass, stamp)
    }
}

//! Two ends with their processing modes, the packages that each has sent, and the count of events.
ghost use Rattle.std.specs.Prelude.{◌≡◌, ℕ, Bool, ◌+◌, ◌<◌, ◌≤◌, ◌∷◌, ◌++◌, IfOk, IfSome, IsTrue, OnErr, OnOk, Option, codes, length, option_copied, true};
ghost use Rattle.std.specs.List.{Contains};
ghost use Rattle.std.specs.Option.{unwrap_or};
ghost use Rattle.drill_world.specs.Endpoints.{MatchFold};
ghost use Rattle.drill_world.specs.Events.{id_at, package_for, site_of};
ghost use Rattle.drill_world.specs.States.{IsCall, endpoint_at, world_with};
ghost use Rattle.drill_world.specs.Transcript.{IsFoldAt, IsStopped, Makes, end_lines, events_limit, new_state};
ghost use Rattle.drill_texts.specs.Texts.{said_line};
ghost use Rattle.exchange_model.specs.Coming.{may_come};
ghost use Rattle.exchange_model.specs.World.{IsHeard, across, folded_at, speaker_at};
ghost use Rattle.exchange_model.specs.declared.what.What.TheVariants.{Came};

use crate::endpoint::{Endpoint, StopAt};
use crate::naming::{new_endpoint, own_modes};
use as4_values::{MAX_MOMENT, Message, MessageId, NoMemory, Octets};
use drill_script::EndName;
use drill_texts::{folded_line, reopened_line};
use exchange_model::Event;
use mode_values::Mode;
use pmodes::Modes;
use std::alloc::Global;
use std::marker::Model;
use std::mem;

/// What a script has led to. Contracts see the two ends, the modes, the count of events, and whether a line was more
/// than a mode.
#[derive(Drop)]
pub struct DrillState {
    pub(crate) alloc: Global,
    pub(crate) modes: Vec<Mode>,
    left: Endpoint,
    right: Endpoint,
    pub(crate) events: u64,
    pub(crate) begun: bool,
}

impl Model for DrillState {
    ghost use Rattle.drill_world.specs.States.{IsSound};
    ghost use Rattle.drill_world.specs.Transcript.{DrillState as StateValue};

    ghost Value = { StateValue };

    ghost view = { λ s. record {
      world = record { left = s.left.speaker; right = s.right.speaker };
      modes = s.modes.items;
      events = s.events;
      begun = s.begun;
    } };

    ghost invariant = { λ s. IsSound s.modes.items s.left s.right s.events s.begun };
}

impl DrillState {
    /// Two ends to which nothing happened yet.
    pub fn new(alloc: Global) -> Result<DrillState, NoMemory>
        ensures { IfOk result (λ state. state ≡ new_state) }
    {
        match (new_endpoint(alloc, &[]), new_endpoint(alloc, &[])) {
            (Ok(left), Ok(right)) => Ok(DrillState {
                alloc,
                modes: Vec::new(alloc),
                left,
                right,
                events: 0,
                begun: false,
            }),
            (left, right) => {
                drop(left);
                drop(right);
                Err(NoMemory)
            }
        }
    }

    /// Both ends have the modes from here on.
    pub(crate) fn begin(&mut self) -> Result<(), NoMemory>
        ensures ok { OnOk result (self.new ≡ record self.old { begun = true }) }
        ensures err { OnErr result (self.old.events ≡ 0) }
    {
        if self.begun {
            return Ok(());
        }
        let modes = self.modes.as_slice();
        match (
            new_endpoint(self.alloc, modes),
            new_endpoint(self.alloc, modes),
        ) {
            (Ok(left), Ok(right)) => {
                drop(mem::replace(&mut self.left, left));
                drop(mem::replace(&mut self.right, right));
                self.begun = true;
                Ok(())
            }
            (left, right) => {
                drop(left);
                drop(right);
                Err(NoMemory)
            }
        }
    }

    /// One more event is made.
    fn count(&mut self)
        requires begun { self.old.begun ≡ true }
        requires few { self.old.events < events_limit }
        ensures { self.new ≡ record self.old { events = self.old.events + 1 } }
    {
        self.events += 1;
    }

    /// The event, whose nonce is its number among all, happens at the end. It gives what is written at a line that names
    /// the number.
    pub(crate) fn meet(
        &mut self,
        end: EndName,
        event: Event,
        number: u64,
        lost: bool,
    ) -> Result<Octets, NoMemory>
        requires begun { self.old.begun ≡ true }
        requires few { self.old.events < events_limit }
        requires nonce { event.nonce ≡ self.old.events }
        requires heard { IsHeard (speaker_at (across (site_of end)) self.old.world).said event.what }
        ensures { IfOk result (λ text. (moment : Option ℕ)
            → event.stamp ≡ unwrap_or moment (speaker_at (site_of end) self.old.world).end.moment
            → Makes (record { end = end; what = event.what; moment = moment; lost = lost; number = number }) self.old text self.new) }
    {
        self.count();
        match end {
            EndName::A => self.left.meet(self.alloc, end, event, number, lost),
            _ => self.right.meet(self.alloc, end, event, number, lost),
        }
    }

    /// The event, whose nonce is its number among all, is stopped at the end. It gives what is written of it.
    pub(crate) fn stop(
        &mut self,
        end: EndName,
        event: Event,
        at: StopAt,
    ) -> Result<Octets, NoMemory>
        requires begun { self.old.begun ≡ true }
        requires few { self.old.events < events_limit }
        requires nonce { event.nonce ≡ self.old.events }
        requires heard { IsHeard (speaker_at (across (site_of end)) self.old.world).said event.what }
        requires call { IsCall at }
        ensures { IfOk result (λ text. (moment : Option ℕ) (lost : Bool) (number : ℕ)
            → event.stamp ≡ unwrap_or moment (speaker_at (site_of end) self.old.world).end.moment
            → IsStopped at.call at.pick (record { end = end; what = event.what; moment = moment; lost = lost; number = number })
            self.old text self.new) }
    {
        self.count();
        let Ok((modes, spare)) = self.spare() else {
            drop(event);
            return Err(NoMemory);
        };
        let stopped = self.put(end, spare).stop(self.alloc, modes, event, at)?;
        drop(self.put(end, stopped));
        reopened_line(self.alloc, end)
    }

    /// The power of the end fails, and its disk is opened again. It gives what is written of that.
    pub(crate) fn crash(&mut self, end: EndName) -> Result<Octets, NoMemory>
        requires { self.old.begun ≡ true }
        ensures { IfOk result (λ text. (text ≡ said_line end (codes "reopened")) × (self.new ≡ self.old)) }
    {
        let (modes, spare) = self.spare()?;
        let opened = self.put(end, spare).crash(self.alloc, modes)?;
        drop(self.put(end, opened));
        reopened_line(self.alloc, end)
    }

    /// A copy of the modes, and an end to which nothing happened yet, for the place of one that is opened again.
    fn spare(&self) -> Result<(Modes, Endpoint), NoMemory>
        ensures { IfOk result (λ spare. (spare.0 ≡ self.now.modes) × (spare.1.modes ≡ self.now.modes)) }
    {
        let modes = self.modes.as_slice();
        match (
            own_modes(self.alloc, modes),
            new_endpoint(self.alloc, modes),
        ) {
            (Ok(modes), Ok(spare)) => Ok((modes, spare)),
            (modes, spare) => {
                drop(modes);
                drop(spare);
                Err(NoMemory)
            }
        }
    }

    /// An end is put in the place of this one, which it gives.
    fn put(&mut self, end: EndName, endpoint: Endpoint) -> Endpoint
        requires begun { self.old.begun ≡ true }
        requires shared { endpoint.modes ≡ self.old.modes }
        ensures was { result ≡ endpoint_at (site_of end) self.old }
        ensures is { self.new ≡ record self.old { world = world_with (site_of end) endpoint.speaker self.old.world } }
    {
        match end {
            EndName::A => mem::replace(&mut self.left, endpoint),
            _ => mem::replace(&mut self.right, endpoint),
        }
    }

    /// The journal of the end is folded where that makes it shorter. It gives what is written of that.
    pub(crate) fn fold(&mut self, end: EndName) -> Result<Octets, NoMemory>
        requires { self.old.begun ≡ true }
        ensures { IfOk result (λ text. IsFoldAt end self.old text self.new) }
    {
        self.fold_at(end)?;
        folded_line(self.alloc, end)
    }

    /// The journal of the end is folded where that makes it shorter.
    fn fold_at(&mut self, end: EndName) -> Result<(), NoMemory>
        requires { self.old.begun ≡ true }
        ensures { OnOk result (MatchFold (speaker_at (site_of end) self.old.world).end
            (λ size. self.new ≡ record self.old { world = folded_at (site_of end) size self.old.world }) (self.new ≡ self.old)) }
    {
        match end {
            EndName::A => self.left.fold(),
            _ => self.right.fold(),
        }
    }

    /// What this end is, with its packages.
    fn endpoint(&self, end: EndName) -> &Endpoint
        ensures { result.now.speaker ≡ speaker_at (site_of end) self.now.world }
    {
        match end {
            EndName::A => &self.left,
            _ => &self.right,
        }
    }

    /// The package of this number that the other end has sent.
    pub(crate) fn package_for(&self, end: EndName, number: u64) -> Option<&Message>
        ensures value { option_copied result ≡ package_for end number self.now.world }
        ensures comes { IfSome result (λ m. IsTrue (may_come (Came m.now))) }
        ensures sent { IfSome result (λ m. Contains (speaker_at (across (site_of end)) self.now.world).said m.now) }
    {
        self.endpoint(other_end(end)).package(number)
    }

    /// The identifier of the submission of this number.
    pub(crate) fn id_at(&self, end: EndName, number: u64) -> Option<&MessageId>
        ensures { option_copied result ≡ id_at end number self.now.world }
    {
        self.endpoint(end).id(number)
    }

    /// The end's clock, in milliseconds since 1970-01-01T00:00:00Z.
    pub(crate) fn moment(&self, end: EndName) -> u64
        ensures value { result ≡ (speaker_at (site_of end) self.now.world).end.moment }
        ensures dated { result ≤ MAX_MOMENT }
    {
        self.endpoint(end).moment()
    }

    /// How many packages the end has sent.
    pub fn said(&self, end: EndName) -> u64
        ensures { result ≡ length (speaker_at (site_of end) self.now.world).said }
    {
        self.endpoint(end).said()
    }

    /// The numbers of both ends.
    pub fn end_lines(&self) -> Result<Octets, NoMemory>
        ensures { IfOk result (λ text. text ≡ end_lines self.now.world) }
    {
        let left = self.left.end_line(self.alloc, EndName::A)?;
        let right = self.right.end_line(self.alloc, EndName::B)?;
        let mut lines = left.into_vec();
        lines.extend_from_slice(right.bytes())?;
        Ok(Octets::of(lines))
    }
}

fn other_end(end: EndName) -> EndName
    ensures { site_of result ≡ across (site_of end) }
{
    match end {
        EndName::A => EndName::B,
        _ => EndName::A,
    }
}

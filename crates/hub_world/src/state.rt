//! Three endpoints in a chain with their processing modes, and the count of events.
ghost use Rattle.std.specs.Prelude.{◌≡◌, ℕ, Bool, ◌+◌, ◌<◌, ◌≤◌, IfOk, IfSome, IsTrue, OnErr, OnOk, Option, Some, codes, option_copied, true};
ghost use Rattle.std.specs.Option.{unwrap_or};
ghost use Rattle.drill_texts.specs.Modes.{sender_of};
ghost use Rattle.drill_texts.specs.Texts.{said_line};
ghost use Rattle.drill_world.specs.States.{IsCall};
ghost use Rattle.drill_world.specs.Transcript.{events_limit};
ghost use Rattle.exchange_model.specs.Coming.{may_come};
ghost use Rattle.exchange_model.specs.declared.what.What.TheVariants.{Came};
ghost use Rattle.hub_world.specs.Ends.{id_at, package_for, speaker_of};
ghost use Rattle.hub_world.specs.Transcript.{IsRelayed, IsStopped, Makes, end_lines, has_mode, is_party, new_state};

use crate::trio::Trio;
use as4_values::{MAX_MOMENT, Message, MessageId, NoMemory, Octets, Party, Text};
use drill_script::{EndName, LinkName};
use drill_world::StopAt;
use exchange_model::Event;
use mode_values::Mode;
use std::alloc::Global;
use std::marker::Model;
use std::mem;

/// What a script of a chain has led to. Contracts see the three endpoints, the modes, the count of events, and whether a
/// line was more than a mode.
#[derive(Drop)]
pub struct HubState {
    pub(crate) alloc: Global,
    pub(crate) modes: Vec<Mode>,
    trio: Trio,
    pub(crate) events: u64,
    pub(crate) begun: bool,
}

impl Model for HubState {
    ghost use Rattle.hub_world.specs.States.{IsSound};
    ghost use Rattle.hub_world.specs.Transcript.{HubState as StateValue};

    ghost Value = { StateValue };

    ghost view = { λ s. record { ends = s.trio.ends; modes = s.modes.items; events = s.events; begun = s.begun } };

    ghost invariant = { λ s. IsSound s.modes.items s.trio s.events s.begun };
}

impl HubState {
    /// Three endpoints to which nothing happened yet.
    pub fn new(alloc: Global) -> Result<HubState, NoMemory>
        ensures { IfOk result (λ state. state ≡ new_state) }
    {
        let trio = Trio::new(alloc, &[])?;
        Ok(HubState {
            alloc,
            modes: Vec::new(alloc),
            trio,
            events: 0,
            begun: false,
        })
    }

    /// All endpoints have the modes from here on.
    pub(crate) fn begin(&mut self) -> Result<(), NoMemory>
        ensures ok { OnOk result (self.new ≡ record self.old { begun = true }) }
        ensures err { OnErr result (self.old.events ≡ 0) }
    {
        if self.begun {
            return Ok(());
        }
        let trio = Trio::new(self.alloc, self.modes.as_slice())?;
        drop(mem::replace(&mut self.trio, trio));
        self.begun = true;
        Ok(())
    }

    /// One more event is made.
    fn count(&mut self)
        requires begun { self.old.begun ≡ true }
        requires few { self.old.events < events_limit }
        ensures { self.new ≡ record self.old { events = self.old.events + 1 } }
    {
        self.events += 1;
    }

    /// The event, whose nonce is its number among all, happens at the endpoint, which meets it on this link. Returns what
    /// is written at a line that names the number.
    pub(crate) fn meet(
        &mut self,
        link: LinkName,
        end: EndName,
        event: Event,
        number: u64,
        lost: bool,
    ) -> Result<Octets, NoMemory>
        requires begun { self.old.begun ≡ true }
        requires few { self.old.events < events_limit }
        requires nonce { event.nonce ≡ self.old.events }
        ensures { IfOk result (λ text. (moment : Option ℕ) → event.stamp ≡ unwrap_or moment (speaker_of end self.old.ends).end.moment
            → Makes link (record { end = end; what = event.what; moment = moment; lost = lost; number = number }) self.old text self.new) }
    {
        self.count();
        self.trio.meet(self.alloc, link, end, event, number, lost)
    }

    /// The event, whose nonce is its number among all, is stopped at the endpoint. Returns what is written of it.
    pub(crate) fn stop(
        &mut self,
        link: LinkName,
        end: EndName,
        event: Event,
        at: StopAt,
    ) -> Result<Octets, NoMemory>
        requires begun { self.old.begun ≡ true }
        requires few { self.old.events < events_limit }
        requires nonce { event.nonce ≡ self.old.events }
        requires call { IsCall at }
        ensures { IfOk result (λ text. (moment : Option ℕ) (lost : Bool) (number : ℕ)
            → event.stamp ≡ unwrap_or moment (speaker_of end self.old.ends).end.moment
            → IsStopped at.call at.pick link (record { end = end; what = event.what; moment = moment; lost = lost; number = number })
            self.old text self.new) }
    {
        self.count();
        self.trio
            .stop(self.alloc, self.modes.as_slice(), end, event, at)
    }

    /// The hub relays the next message of its inbox by the mode of this name. Returns what is written of that.
    pub(crate) fn relay(&mut self, mode: &Text) -> Result<Octets, NoMemory>
        requires begun { self.old.begun ≡ true }
        requires few { self.old.events < events_limit }
        ensures { IfOk result (λ text. IsRelayed mode.now self.old text self.new) }
    {
        let stamp = self.moment(EndName::Hub);
        let nonce = u128::from(self.events);
        self.count();
        self.trio.relay(self.alloc, mode, stamp, nonce)
    }

    /// The power of the endpoint fails, and its disk is opened again. Returns what is written of that.
    pub(crate) fn crash(&mut self, end: EndName) -> Result<Octets, NoMemory>
        requires { self.old.begun ≡ true }
        ensures { IfOk result (λ text. (text ≡ said_line end (codes "reopened")) × (self.new ≡ self.old)) }
    {
        self.trio.crash(self.alloc, self.modes.as_slice(), end)
    }

    /// The package of this number from one endpoint, if it goes to the other.
    pub(crate) fn package_for(&self, end: EndName, from: EndName, number: u64) -> Option<&Message>
        ensures value { option_copied result ≡ package_for end from number self.now.ends }
        ensures comes { IfSome result (λ m. IsTrue (may_come (Came m.now))) }
    {
        self.trio.package_for(end, from, number)
    }

    /// The identifier of the endpoint's submission of this number.
    pub(crate) fn id_at(&self, end: EndName, number: u64) -> Option<&MessageId>
        ensures { option_copied result ≡ id_at end number self.now.ends }
    {
        self.trio.id_at(end, number)
    }

    /// The endpoint's clock, in milliseconds since 1970-01-01T00:00:00Z.
    pub(crate) fn moment(&self, end: EndName) -> u64
        ensures value { result ≡ (speaker_of end self.now.ends).end.moment }
        ensures dated { result ≤ MAX_MOMENT }
    {
        self.trio.moment(end)
    }

    /// Whether a mode of this name is of this link.
    pub(crate) fn has_mode(&self, link: LinkName, name: &Octets) -> bool
        ensures { result ≡ has_mode link name.now self.now.modes }
    {
        has_mode(self.modes.as_slice(), link, name)
    }

    /// The numbers of the three endpoints.
    pub fn end_lines(&self) -> Result<Octets, NoMemory>
        ensures { IfOk result (λ text. text ≡ end_lines self.now.ends) }
    {
        self.trio.end_lines(self.alloc)
    }
}

/// Whether a mode of this name is of this link.
fn has_mode(modes: &[Mode], link: LinkName, name: &Octets) -> bool
    ensures { result ≡ has_mode link name.now modes.now }
{
    modes.iter().any(|mode| mode.name.bytes() == name.bytes()
        && is_party(link, mode.from.parties.items()))
}

/// Whether the first of the parties is the one that sends on this link.
fn is_party(link: LinkName, parties: &[Party]) -> bool
    ensures { result ≡ is_party (sender_of (Some link)) parties.now }
{
    match parties {
        [party, ..] => party.id.bytes() == sender_of(link),
        [] => false,
    }
}

/// The identifier of the party that sends on this link.
fn sender_of(link: LinkName) -> &'static [u8]
    ensures { result.now ≡ sender_of (Some link) }
{
    match link {
        LinkName::Front => b"drill-f",
        LinkName::Rear => b"drill-h",
    }
}

//! Three endpoints in a chain, and the link of each message that the hub has sent.
ghost use Rattle.std.specs.Prelude.{◌≡◌, ◌≤◌, Some, IfOk, IfSome, IsTrue, codes, option_copied};
ghost use Rattle.drill_texts.specs.Modes.{AreDrillModes};
ghost use Rattle.drill_texts.specs.Texts.{said_line};
ghost use Rattle.drill_world.specs.States.{IsCall};
ghost use Rattle.exchange_model.specs.Coming.{may_come};
ghost use Rattle.exchange_model.specs.declared.what.What.TheVariants.{Came};
ghost use Rattle.hub_world.specs.Ends.{endpoint_of, goes_to, id_at, is_inner, is_on, is_outer, is_same_link, new_ends, package_for, speaker_of, with_speaker};
ghost use Rattle.hub_world.specs.Transcript.{end_lines};
ghost use Rattle.hub_world.specs.Trios.{MeetsAtHub, MeetsIn, RelaysIn, StopsIn};

use as4_values::{MAX_MOMENT, Message, MessageId, NoMemory, Octets, Text};
use drill_script::{EndName, LinkName};
use drill_texts::reopened_line;
use drill_world::{Endpoint, StopAt, new_endpoint, own_modes};
use exchange_model::Event;
use mode_values::Mode;
use pmodes::Modes;
use std::alloc::Global;
use std::marker::Model;
use std::mem;

/// Three endpoints in a chain with the same modes. Contracts see what each is and has sent, the link of each message of
/// the hub, and the modes.
#[derive(Drop)]
pub(crate) struct Trio {
    first: Endpoint,
    hub: Endpoint,
    last: Endpoint,
    links: Vec<LinkName>,
}

impl Model for Trio {
    ghost use Rattle.std.specs.Prelude.{◌≡◌};
    ghost use Rattle.hub_world.specs.Ends.{TrioState};

    ghost Value = { TrioState };

    ghost view = { λ t. record {
      ends = record { first = t.first.speaker; hub = t.hub.speaker; last = t.last.speaker; links = t.links.items };
      modes = t.first.modes;
    } };

    ghost invariant = { λ t. (t.hub.modes ≡ t.first.modes) × (t.last.modes ≡ t.first.modes) };
}

impl Trio {
    /// Three endpoints to which nothing happened yet, with these modes.
    pub(crate) fn new(alloc: Global, modes: &[Mode]) -> Result<Trio, NoMemory>
        requires { AreDrillModes modes.now }
        ensures { IfOk result (λ trio. trio ≡ record { ends = new_ends; modes = modes.now }) }
    {
        match (
            new_endpoint(alloc, modes),
            new_endpoint(alloc, modes),
            new_endpoint(alloc, modes),
        ) {
            (Ok(first), Ok(hub), Ok(last)) => Ok(Trio {
                first,
                hub,
                last,
                links: Vec::new(alloc),
            }),
            (first, hub, last) => {
                drop(first);
                drop(hub);
                drop(last);
                Err(NoMemory)
            }
        }
    }

    /// The event happens at the endpoint, which meets it on this link. Returns what is written of the reply, at a line
    /// that names the number.
    pub(crate) fn meet(
        &mut self,
        alloc: Global,
        link: LinkName,
        end: EndName,
        event: Event,
        number: u64,
        lost: bool,
    ) -> Result<Octets, NoMemory>
        ensures meets { IfOk result (λ text. MeetsIn link end event number lost self.old text self.new) }
        ensures modes { self.new.modes ≡ self.old.modes }
    {
        match end {
            EndName::First => self.first.meet(alloc, end, event, number, lost),
            EndName::Last => self.last.meet(alloc, end, event, number, lost),
            _ => self.meet_hub(alloc, link, end, event, number, lost),
        }
    }

    /// The event happens at the hub, which sends its reply on this link.
    fn meet_hub(
        &mut self,
        alloc: Global,
        link: LinkName,
        end: EndName,
        event: Event,
        number: u64,
        lost: bool,
    ) -> Result<Octets, NoMemory>
        requires { speaker_of end self.old.ends ≡ self.old.ends.hub }
        ensures meets { IfOk result (λ text. MeetsAtHub link end event number lost self.old text self.new) }
        ensures modes { self.new.modes ≡ self.old.modes }
    {
        let Ok(()) = self.links.reserve(1) else {
            drop(event);
            return Err(NoMemory);
        };
        let said = self.hub.said();
        let text = self.hub.meet(alloc, end, event, number, lost)?;
        if self.hub.said() > said {
            self.links.push_reserved(link);
        }
        Ok(text)
    }

    /// The event is stopped at the endpoint. Returns what is written of that.
    pub(crate) fn stop(
        &mut self,
        alloc: Global,
        modes: &[Mode],
        end: EndName,
        event: Event,
        at: StopAt,
    ) -> Result<Octets, NoMemory>
        requires made { AreDrillModes modes.now }
        requires shared { modes.now ≡ self.old.modes }
        requires call { IsCall at }
        ensures stops { IfOk result (λ text. StopsIn end event at.call at.pick self.old text self.new) }
        ensures modes { self.new.modes ≡ self.old.modes }
    {
        let Ok((modes, spare)) = spare(alloc, modes) else {
            drop(event);
            return Err(NoMemory);
        };
        let stopped = self.put(end, spare).stop(alloc, modes, event, at)?;
        drop(self.put(end, stopped));
        reopened_line(alloc, end)
    }

    /// The power of the endpoint fails, and its disk is opened again. Returns what is written of that.
    pub(crate) fn crash(
        &mut self,
        alloc: Global,
        modes: &[Mode],
        end: EndName,
    ) -> Result<Octets, NoMemory>
        requires made { AreDrillModes modes.now }
        requires shared { modes.now ≡ self.old.modes }
        ensures opens { IfOk result (λ text. (text ≡ said_line end (codes "reopened")) × (self.new ≡ self.old)) }
        ensures modes { self.new.modes ≡ self.old.modes }
    {
        let (modes, spare) = spare(alloc, modes)?;
        let opened = self.put(end, spare).crash(alloc, modes)?;
        drop(self.put(end, opened));
        reopened_line(alloc, end)
    }

    /// An endpoint takes the place of this one, which is returned.
    fn put(&mut self, end: EndName, endpoint: Endpoint) -> Endpoint
        requires shared { endpoint.modes ≡ self.old.modes }
        ensures was { result ≡ endpoint_of end self.old }
        ensures is { self.new ≡ record self.old { ends = with_speaker end endpoint.speaker self.old.ends } }
    {
        match end {
            EndName::First => mem::replace(&mut self.first, endpoint),
            EndName::Last => mem::replace(&mut self.last, endpoint),
            _ => mem::replace(&mut self.hub, endpoint),
        }
    }

    /// The hub relays the next message of its inbox by the mode of this name. Returns what is written of that.
    pub(crate) fn relay(
        &mut self,
        alloc: Global,
        mode: &Text,
        stamp: u64,
        nonce: u128,
    ) -> Result<Octets, NoMemory>
        requires dated { stamp ≤ MAX_MOMENT }
        ensures relays { IfOk result (λ text. RelaysIn mode.now stamp nonce self.old text self.new) }
        ensures modes { self.new.modes ≡ self.old.modes }
    {
        self.hub.relay(alloc, EndName::Hub, mode, stamp, nonce)
    }

    /// One of the endpoints.
    fn endpoint(&self, end: EndName) -> &Endpoint
        ensures { result.now.speaker ≡ speaker_of end self.now.ends }
    {
        match end {
            EndName::First => &self.first,
            EndName::Last => &self.last,
            _ => &self.hub,
        }
    }

    /// Whether the hub's message of this number was sent on this link.
    fn is_on(&self, link: LinkName, number: u64) -> bool
        ensures { result ≡ is_on link number self.now.ends }
    {
        match self.links.as_slice().get(number as usize) {
            Some(other) => is_same_link(link, *other),
            None => false,
        }
    }

    /// Whether the package of this number from one endpoint goes to another.
    fn goes_to(&self, end: EndName, from: EndName, number: u64) -> bool
        ensures { result ≡ goes_to end from number self.now.ends }
    {
        match end {
            EndName::Hub => is_outer(from),
            EndName::First => is_inner(from) && self.is_on(LinkName::Front, number),
            EndName::Last => is_inner(from) && self.is_on(LinkName::Rear, number),
            _ => false,
        }
    }

    /// The package of this number from one endpoint, if it goes to the other.
    pub(crate) fn package_for(&self, end: EndName, from: EndName, number: u64) -> Option<&Message>
        ensures value { option_copied result ≡ package_for end from number self.now.ends }
        ensures comes { IfSome result (λ m. IsTrue (may_come (Came m.now))) }
    {
        if self.goes_to(end, from, number) {
            self.endpoint(from).package(number)
        } else {
            None
        }
    }

    /// The identifier of the endpoint's submission of this number.
    pub(crate) fn id_at(&self, end: EndName, number: u64) -> Option<&MessageId>
        ensures { option_copied result ≡ id_at end number self.now.ends }
    {
        self.endpoint(end).id(number)
    }

    /// The endpoint's clock, in milliseconds since 1970-01-01T00:00:00Z.
    pub(crate) fn moment(&self, end: EndName) -> u64
        ensures value { result ≡ (speaker_of end self.now.ends).end.moment }
        ensures dated { result ≤ MAX_MOMENT }
    {
        self.endpoint(end).moment()
    }

    /// The numbers of the three endpoints.
    pub(crate) fn end_lines(&self, alloc: Global) -> Result<Octets, NoMemory>
        ensures { IfOk result (λ text. text ≡ end_lines self.now.ends) }
    {
        let first = self.first.end_line(alloc, EndName::First)?;
        let hub = self.hub.end_line(alloc, EndName::Hub)?;
        let last = self.last.end_line(alloc, EndName::Last)?;
        let mut lines = first.into_vec();
        lines.extend_from_slice(hub.bytes())?;
        lines.extend_from_slice(last.bytes())?;
        Ok(Octets::of(lines))
    }
}

/// A copy of the modes, and an endpoint to which nothing happened yet, for the place of one that is opened again.
fn spare(alloc: Global, modes: &[Mode]) -> Result<(Modes, Endpoint), NoMemory>
    requires { AreDrillModes modes.now }
    ensures { IfOk result (λ spare. (spare.0 ≡ modes.now) × (spare.1.modes ≡ modes.now)) }
{
    match (own_modes(alloc, modes), new_endpoint(alloc, modes)) {
        (Ok(modes), Ok(spare)) => Ok((modes, spare)),
        (modes, spare) => {
            drop(modes);
            drop(spare);
            Err(NoMemory)
        }
    }
}

fn is_same_link(link: LinkName, other: LinkName) -> bool
    ensures { result ≡ is_same_link link (Some other) }
{
    match link {
        LinkName::Front => matches!(other, LinkName::Front),
        LinkName::Rear => matches!(other, LinkName::Rear),
    }
}

fn is_outer(end: EndName) -> bool
    ensures { result ≡ is_outer end }
{
    match end {
        EndName::First | EndName::Last => true,
        _ => false,
    }
}

fn is_inner(end: EndName) -> bool
    ensures { result ≡ is_inner end }
{
    matches!(end, EndName::Hub)
}

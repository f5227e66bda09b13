//! One end of a drill, with each package that it has sent.
ghost use Rattle.std.specs.Prelude.{◌≡◌, ◌++◌, ◌<◌, if◌then◌else◌, ◌≤◌, IfOk, IfSome, IsTrue, OnOk, length, option_copied, option_map, slice_get, vec_capacity, vec_len};
ghost use Rattle.std.specs.List.{Contains};
ghost use Rattle.as4_disk.specs.Memory.{picked};
ghost use Rattle.drill_world.specs.Disks.{IsOf};
ghost use Rattle.drill_world.specs.Endpoints.{CanAllCome, FoldsTo, IsStoppedAt, Meets};
ghost use Rattle.drill_world.specs.Relaying.{RelaysAt, reply_of};
ghost use Rattle.drill_world.specs.States.{IsCall};
ghost use Rattle.drill_world.specs.Transcript.{stands};
ghost use Rattle.drill_texts.specs.Texts.{end_line};
ghost use Rattle.exchange_model.specs.Coming.{may_come};
ghost use Rattle.exchange_model.specs.End.{End};
ghost use Rattle.exchange_model.specs.Questions.{sent_at};
ghost use Rattle.exchange_model.specs.World.{new_speaker, sends};
ghost use Rattle.exchange_model.specs.declared.what.What.TheVariants.{Came};

use crate::disks::{disk_of, open_new, reopen, stopped_disk};
use crate::handling::handle;
use as4_disk::{MemoryDisk, Pick};
use as4_hub::{RelayEnd, relay};
use as4_values::{MAX_MOMENT, Message, MessageId, NoMemory, Octets, Text};
use drill_script::EndName;
use drill_texts::{end_line, reply_line};
use exchange_laws::what_is_sent_may_come;
use exchange_model::{Event, Reply};
use office::{Call, Office};
use pass_book::Pass;
use pmodes::Modes;
use std::alloc::Global;
use std::marker::Model;

/// Where a line is stopped: the device call that is the last to act, and which image of the disk is opened then.
#[derive(Clone, Copy, Debug, PartialEq, Eq)]
pub struct StopAt {
    pub call: u8,
    pub pick: Pick,
}

/// An end with its journal on a disk in memory, and the packages that it has sent, by number.
#[derive(Drop)]
pub struct Endpoint {
    office: Office<'static, MemoryDisk>,
    pass: Pass<'static, Call>,
    said: Vec<Message>,
}

impl Model for Endpoint {
    ghost use Rattle.std.specs.Prelude.{◌≡◌};
    ghost use Rattle.drill_world.specs.Endpoints.{CanAllCome, EndpointState};

    ghost Value = { EndpointState };

    ghost view = { λ p. record { speaker = record { end = p.office.end; said = p.said.items }; modes = p.office.modes } };

    ghost invariant = { λ p. CanAllCome p.said.items × (p.pass.book ≡ p.office.book) };
}

impl Endpoint {
    /// An end to which nothing happened yet.
    pub fn new(alloc: Global, modes: Modes) -> Result<Endpoint, NoMemory>
        ensures { IfOk result (λ endpoint. endpoint ≡ record { speaker = new_speaker; modes = modes }) }
    {
        let (office, pass) = open_new(alloc, modes)?;
        Ok(Endpoint {
            office,
            pass,
            said: Vec::new(alloc),
        })
    }

    /// The end takes a step at an event, and the packages get what it replies, unless that is lost. It gives what is
    /// written of the reply at a line that names the number.
    pub fn meet(
        &mut self,
        alloc: Global,
        end: EndName,
        event: Event,
        number: u64,
        lost: bool,
    ) -> Result<Octets, NoMemory>
        ensures meets { IfOk result (λ text. Meets end event number lost self.old text self.new) }
        ensures modes { self.new.modes ≡ self.old.modes }
    {
        what_is_sent_may_come();
        let Ok(()) = self.said.reserve(1) else {
            drop(event);
            return Err(NoMemory);
        };
        let packages = self.said.as_slice().len() as u64;
        let Ok(reply) = handle(alloc, &mut self.office, &mut self.pass, event) else {
            return Err(NoMemory);
        };
        match reply_line(alloc, end, number, lost, packages, &reply) {
            Ok(text) => {
                keep(&mut self.said, lost, reply);
                Ok(text)
            }
            Err(error) => {
                drop(reply);
                Err(error)
            }
        }
    }

    /// The power of the end fails. Its disk, as it was last written, is opened again with these modes.
    pub fn crash(self, alloc: Global, modes: Modes) -> Result<Endpoint, NoMemory>
        requires { modes ≡ self.modes }
        ensures { IfOk result (λ endpoint. endpoint ≡ self) }
    {
        let Endpoint { office, pass, said } = self;
        drop(pass);
        match disk_of(office) {
            Ok(disk) => Endpoint::on(alloc, disk, Pick::New, modes, said),
            Err(error) => {
                drop(modes);
                drop(said);
                Err(error)
            }
        }
    }

    /// The end takes a step at an event; the device call of this number acts and then fails, and all later ones fail. What
    /// it replies is lost, and the image of the pick is opened with these modes.
    pub fn stop(
        self,
        alloc: Global,
        modes: Modes,
        event: Event,
        at: StopAt,
    ) -> Result<Endpoint, NoMemory>
        requires modes { modes ≡ self.modes }
        requires call { IsCall at }
        ensures stops { IfOk result (IsStoppedAt event (stands at.call at.pick) self) }
        ensures modes { IfOk result (λ endpoint. endpoint.modes ≡ self.modes) }
    {
        let Endpoint { office, pass, said } = self;
        match stopped_disk(alloc, office, pass, event, at.call) {
            Ok(disk) => Endpoint::on(alloc, disk, at.pick, modes, said),
            Err(error) => {
                drop(modes);
                drop(said);
                Err(error)
            }
        }
    }

    /// An end that has sent these packages, on the image of a disk that is picked.
    fn on(
        alloc: Global,
        disk: MemoryDisk,
        pick: Pick,
        modes: Modes,
        said: Vec<Message>,
    ) -> Result<Endpoint, NoMemory>
        requires { CanAllCome said.items }
        ensures said { IfOk result (λ endpoint. (endpoint.speaker.said ≡ said.items) × (endpoint.modes ≡ modes)) }
        ensures end { IfOk result (λ endpoint. (end : End) → IsOf end (picked pick disk) → endpoint.speaker.end ≡ end) }
    {
        match reopen(alloc, disk, pick, modes) {
            Ok((office, pass)) => Ok(Endpoint { office, pass, said }),
            Err(error) => {
                drop(said);
                Err(error)
            }
        }
    }

    /// The journal of the end is folded where that makes it shorter.
    pub fn fold(&mut self) -> Result<(), NoMemory>
        ensures folds { OnOk result (FoldsTo self.old self.new) }
        ensures modes { self.new.modes ≡ self.old.modes }
    {
        match self.office.checkpoint(&mut self.pass) {
            Ok(_) => Ok(()),
            Err(_) => Err(NoMemory),
        }
    }

    /// The end relays the next message of its inbox by the mode of this name. Returns what is written of that.
    pub fn relay(
        &mut self,
        alloc: Global,
        end: EndName,
        mode: &Text,
        stamp: u64,
        nonce: u128,
    ) -> Result<Octets, NoMemory>
        requires dated { stamp ≤ MAX_MOMENT }
        ensures relays { IfOk result (λ text. RelaysAt end mode.now stamp nonce self.old text self.new) }
        ensures modes { self.new.modes ≡ self.old.modes }
    {
        let ended = relay(alloc, &mut self.office, &mut self.pass, mode, stamp, nonce);
        let Some(reply) = reply_of(ended) else {
            return Err(NoMemory);
        };
        let text = reply_line(alloc, end, 0, false, 0, &reply);
        drop(reply);
        text
    }

    /// The package of this number.
    pub fn package(&self, number: u64) -> Option<&Message>
        ensures value { option_copied result ≡ slice_get self.now.speaker.said number }
        ensures comes { IfSome result (λ m. IsTrue (may_come (Came m.now))) }
        ensures sent { IfSome result (λ m. Contains self.now.speaker.said m.now) }
    {
        self.said.as_slice().get(number as usize)
    }

    /// The clock, in milliseconds since 1970-01-01T00:00:00Z.
    pub fn moment(&self) -> u64
        ensures value { result ≡ self.now.speaker.end.moment }
        ensures dated { result ≤ MAX_MOMENT }
    {
        self.office.core().moment()
    }

    /// The identifier of the submission of this number.
    pub fn id(&self, number: u64) -> Option<&MessageId>
        ensures { option_copied result ≡ option_map (λ s. s.submission.header.id) (sent_at number self.now.speaker.end.sent) }
    {
        match self.office.core().submission(number) {
            Some(submission) => Some(&submission.header.id),
            None => None,
        }
    }

    /// How many packages it has sent.
    pub fn said(&self) -> u64
        ensures { result ≡ length self.now.speaker.said }
    {
        self.said.as_slice().len() as u64
    }

    /// The numbers of the end.
    pub fn end_line(&self, alloc: Global, name: EndName) -> Result<Octets, NoMemory>
        ensures { IfOk result (λ text. text ≡ end_line name self.now.speaker.end) }
    {
        end_line(alloc, name, self.office.totals())
    }
}

/// What the reply sends becomes a package, unless it is lost. Takes no memory.
fn keep(said: &mut Vec<Message>, lost: bool, reply: Reply)
    requires { vec_len said.old < vec_capacity said.old }
    ensures { said.new.items ≡ (if lost then said.old.items else said.old.items ++ sends reply) }
{
    if lost {
        drop(reply);
        return;
    }
    match reply {
        Reply::Push { message, .. } => said.push_reserved(message),
        Reply::Request { message, .. } => said.push_reserved(message),
        Reply::Answer(message) => said.push_reserved(message),
        other => drop(other),
    }
}

/// The reply that ended a relaying. A hub with nothing to relay replies that nothing is to be sent.
fn reply_of(ended: RelayEnd) -> Option<Reply>
    ensures { result ≡ reply_of ended }
{
    match ended {
        RelayEnd::Relayed { number, id } => Some(Reply::Submitted { number, id }),
        RelayEnd::Nothing => Some(Reply::Nothing),
        RelayEnd::Gone => Some(Reply::Gone),
        RelayEnd::NoMode => Some(Reply::NoMode),
        RelayEnd::OutboxFull => Some(Reply::OutboxFull),
        RelayEnd::TooLarge => Some(Reply::TooLarge),
        RelayEnd::Full { size, need } => Some(Reply::Full { size, need }),
        RelayEnd::DiskFault { .. }
        | RelayEnd::Stopped { .. }
        | RelayEnd::Worn
        | RelayEnd::NoMemory => None,
    }
}

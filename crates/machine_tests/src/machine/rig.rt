//! An endpoint with four modes, for short steps of tests.
ghost use Rattle.std.specs.Prelude.{◌≡◌, ◌≤◌, IfOk, IsSome, IsTrue};
ghost use Rattle.exchange_model.specs.Coming.{may_come};
ghost use Rattle.as4_codes.specs.ErrorCodes.{error_row};
ghost use Rattle.msh_core.specs.Machine.{IsReady};
ghost use Rattle.msh_core.specs.Small.{IsSmallReady};

use super::folded::{have_same_places, is_compacted};
use super::records::Records;
use super::replayed::replays;
use super::said::summary;
use super::steps::{End, Said, Step};
use as4_codes::{error_signal, pull_request, receipt};
use as4_effects::{Effect, delivery_fits};
use as4_values::{
    Load, MAX_MOMENT, Message, MessageId, NoMemory, Payload, PlainData, Seq, Signal, SignalBody,
    Text, UserHeader, pairs, stamp_text,
};
use made_messages::octets;
use msh_core::{Core, Event, Held, Plan, Reply, SmallPlan, What};
use pmodes::Modes;
use std::alloc::Global;

const MODES: &[u8] = b"[[mode]]
name = \"invoice\"
from = { role = \"seller\", party = [ { id = \"acme\" } ] }
to = { role = \"buyer\", party = [ { id = \"bolt\" } ] }
service = \"orders\"
action = \"invoice\"
push = \"http://127.0.0.1:9080/as4\"
retries = 10
period = 3000

[[mode]]
name = \"often\"
from = { role = \"seller\", party = [ { id = \"acme\" } ] }
to = { role = \"buyer\", party = [ { id = \"bolt\" } ] }
service = \"orders\"
action = \"often\"
push = \"http://127.0.0.1:9080/as4\"
retries = 1000
period = 1

[[mode]]
name = \"once\"
from = { role = \"seller\", party = [ { id = \"acme\" } ] }
to = { role = \"buyer\", party = [ { id = \"bolt\" } ] }
service = \"orders\"
action = \"once\"
push = \"http://127.0.0.1:9080/as4\"
retries = 0
period = 1000

[[mode]]
name = \"pulled\"
from = { role = \"seller\", party = [ { id = \"acme\" } ] }
to = { role = \"buyer\", party = [ { id = \"bolt\" } ] }
service = \"orders\"
action = \"pulled\"
pull = \"drill-m\"
address = \"http://127.0.0.1:9080/as4\"
retries = 3
period = 1000
";

/// An endpoint, and the number of events so far.
#[derive(Drop)]
pub struct Rig {
    pub(super) core: Core,
    pub(super) alloc: Global,
    nonce: u128,
    /// The last user message that it sent.
    pub(super) sent: Option<Message>,
    /// The last request that it sent.
    asked: Option<Message>,
    /// An endpoint that replays the same effects from their records.
    pub(super) follower: Option<Core>,
    /// The records with the payloads of its inbox.
    pub(super) records: Option<Records>,
}

/// The number of leading steps that two new endpoints answer right.
pub fn right_steps(alloc: Global, steps: &[(End, Step, Said)]) -> usize {
    match (new_end(alloc), new_end(alloc)) {
        (Some(mut a), Some(mut b)) => {
            let right = right_steps_of(&mut a, &mut b, steps);
            drop(a);
            drop(b);
            right
        }
        (a, b) => {
            drop(a);
            drop(b);
            0
        }
    }
}

/// The number of leading steps that these two answer right.
fn right_steps_of(a: &mut Rig, b: &mut Rig, steps: &[(End, Step, Said)]) -> usize {
    for place in 0..steps.len() {
        let (end, step, said) = steps[place];
        let answer = match end {
            End::A => a.does(step, b),
            End::B => b.does(step, a),
        };
        if answer != Some(said) {
            return place;
        }
    }
    if a.is_well_kept() && b.is_well_kept() {
        steps.len()
    } else {
        0
    }
}

/// An end to which nothing has happened.
pub(super) fn new_end(alloc: Global) -> Option<Rig> {
    match (new_core(alloc), new_core(alloc)) {
        (Some(core), Some(follower)) => Some(Rig {
            core,
            alloc,
            nonce: 0,
            sent: None,
            asked: None,
            follower: Some(follower),
            records: Some(Records::new(alloc)),
        }),
        (core, follower) => {
            drop(core);
            drop(follower);
            None
        }
    }
}

pub fn new_core(alloc: Global) -> Option<Core> {
    let modes = Modes::read(alloc, MODES).ok()?;
    Some(Core::new(alloc, modes))
}

impl Rig {
    /// The reply to a step.
    #[tactic(auto, unfolding(exchange_model::specs::Coming::may_come))]
    pub(super) fn does(&mut self, step: Step, other: &Rig) -> Option<Said> {
        match step {
            Step::Submit(mode) => self.submits(mode, b"hello"),
            Step::SubmitTooMuch(mode) => self.submits_too_much(mode),
            Step::Tick(moment) => self.ticks(moment),
            Step::TickLightly(moment) => self.ticks_lightly(moment),
            Step::Take => self.says(What::Take),
            Step::Ask(mode) => self.asks(mode),
            Step::AskWith(mode, n) => self.asks_with(mode, n),
            Step::Hear => self.hears(&other.sent),
            Step::HearRequest => self.hears(&other.asked),
            Step::HearOfAnotherAction => self.hears_of_another_action(other),
            Step::Fill => self.fills(other),
            Step::Read(n) => self.reads(n),
            Step::ReadBare(n) => self.says(What::Read { n }),
            Step::Confirm(upto) => self.says(What::Confirm { upto }),
            Step::ConfirmLightly(upto) => {
                let plan = self.core.plan_confirm(upto);
                Some(self.makes(plan))
            }
            Step::Status => self.status(),
            Step::StatusOf(id) => self.status_of(id),
            Step::Inbox => Some(Said::Count(self.core.totals().inbox)),
            Step::Receipts => Some(Said::Count(self.core.totals().receipted)),
            Step::Size => Some(Said::Count(self.core.size())),
            signal => self.hears_of(signal),
        }
    }

    /// The reply to a signal.
    #[tactic(auto, unfolding(as4_codes::specs::ErrorCodes::error_row, as4_codes::specs::ErrorCodes::error_table))]
    fn hears_of(&mut self, signal: Step) -> Option<Said> {
        match signal {
            Step::Pull(channel) => self.is_pulled(channel),
            Step::Receipt => self.is_answered(true),
            Step::BareReceipt => self.is_answered(false),
            Step::OtherReceipt => self.is_answered_for_another_action(),
            Step::ReceiptOf(id) => self.is_answered_for(id),
            Step::Warning => self.is_refused(6),
            Step::Failure => self.is_refused(301),
            _ => None,
        }
    }

    /// The reply to an event.
    pub(super) fn says(&mut self, what: What) -> Option<Said>
        requires { IsTrue (may_come what) }
    {
        let stamp = self.core.moment();
        self.says_at(stamp.min(1_000_000), what)
    }

    fn says_at(&mut self, stamp: u64, what: What) -> Option<Said>
        requires coming { IsTrue (may_come what) }
        requires dated { stamp ≤ 1000000 }
    {
        let event = Event {
            stamp,
            nonce: self.next_nonce(),
            what,
        };
        let prepared = self.core.prepare(&event);
        drop(event);
        self.hands_out_if(prepared)
    }

    /// A new nonce.
    pub(super) fn next_nonce(&mut self) -> u128
        ensures { self.new.core ≡ self.old.core }
    {
        let nonce = self.nonce;
        self.nonce = nonce.wrapping_add(1);
        nonce
    }

    pub(super) fn hands_out_if(&mut self, prepared: Result<Plan, NoMemory>) -> Option<Said>
        requires { IfOk prepared (IsReady self.old.core) }
    {
        match prepared {
            Ok(plan) => {
                self.is_followed(plan.effects());
                Some(self.hands_out(plan))
            }
            Err(_) => {
                drop(prepared);
                None
            }
        }
    }

    /// The follower replays the effects, if there are any.
    fn is_followed(&mut self, effects: &Seq<Effect>)
        ensures { self.new.core ≡ self.old.core }
    {
        let Some(follower) = &mut self.follower else {
            return;
        };
        if let Ok(effects) = effects.try_clone(self.alloc) {
            let made = replays(follower, effects);
            drop(made);
        }
    }

    /// Whether the records and the fold lead to the current state, and the journal can be compacted.
    fn is_well_kept(&mut self) -> bool {
        if !self.has_its_follower() {
            return false;
        }
        match &self.records {
            Some(records) => is_compacted(self.alloc, &mut self.core, records),
            None => true,
        }
    }

    /// Whether the follower, if there is one, is in the same state.
    fn has_its_follower(&self) -> bool {
        match &self.follower {
            Some(follower) => {
                self.core.totals() == follower.totals()
                    && self.core.size() == follower.size()
                    && self.core.moment() == follower.moment()
                    && have_same_places(&self.core, follower)
            }
            None => true,
        }
    }

    fn hands_out(&mut self, plan: Plan) -> Said
        requires { IsReady self.old.core plan }
    {
        let gate = self.core.size();
        self.keeps_record(gate, plan.effects());
        let reply = self.core.commit(plan, gate);
        self.drops_records();
        let said = summary(&reply);
        self.keep(reply);
        said
    }

    /// Keeps the record at this gate, if it has payloads.
    fn keeps_record(&mut self, gate: u64, effects: &Seq<Effect>)
        ensures { self.new.core ≡ self.old.core }
    {
        if let Some(records) = &mut self.records {
            records.keep(gate, effects);
        }
    }

    /// Drops the records if the last message of the inbox was confirmed.
    fn drops_records(&mut self) {
        if let Some(records) = &mut self.records {
            let received = self.core.totals().inbox;
            if received > 0 && matches!(self.core.held(received - 1), Held::Gone) {
                records.clear();
            }
        }
    }

    /// Reads the message of this number, with the payloads from its record.
    #[tactic(auto, unfolding(exchange_model::specs::Coming::may_come))]
    fn reads(&mut self, n: u64) -> Option<Said> {
        let event = Event {
            stamp: 0,
            nonce: self.next_nonce(),
            what: What::Read { n },
        };
        let prepared = self.core.prepare(&event);
        drop(event);
        match prepared {
            Ok(plan) => Some(self.hands_out_filled(plan, n)),
            Err(_) => {
                drop(prepared);
                None
            }
        }
    }

    fn hands_out_filled(&mut self, plan: Plan, n: u64) -> Said
        requires { IsReady self.old.core plan }
    {
        let payloads = match self.payloads(n) {
            Some(payloads) => payloads,
            None => Seq::of(Vec::new(self.alloc)),
        };
        self.hands_out(plan.filled(payloads))
    }

    /// The payloads of the message of this number in the inbox, from its record.
    fn payloads(&self, n: u64) -> Option<Seq<Payload>> {
        match self.core.held(n) {
            Held::Entry {
                header,
                gate,
                length,
            } => self.records.as_ref()?.payloads(&header.id, gate, length),
            Held::Gone | Held::NoEntry => None,
        }
    }

    /// Keeps the message or the request of the reply.
    fn keep(&mut self, reply: Reply) {
        match reply {
            Reply::Push { address, message } => {
                drop(address);
                drop(self.sent.replace(message));
            }
            Reply::Request { address, message } => {
                drop(address);
                drop(self.asked.replace(message));
            }
            Reply::Answer(message) if matches!(message, Message::User { .. }) => {
                drop(self.sent.replace(message));
            }
            other => drop(other),
        }
    }

    #[tactic(auto, unfolding(exchange_model::specs::Coming::may_come))]
    fn ticks(&mut self, moment: u64) -> Option<Said> {
        if moment > 1_000_000 {
            return None;
        }
        self.says_at(moment, What::Tick)
    }

    #[tactic(auto, unfolding(exchange_model::specs::Coming::may_come))]
    fn asks(&mut self, mode: &str) -> Option<Said> {
        let mode = Text::read(self.alloc, mode.as_bytes()).ok()?;
        self.says(What::Ask { mode })
    }

    #[tactic(auto, unfolding(exchange_model::specs::Coming::may_come))]
    fn asks_with(&mut self, mode: &str, n: u64) -> Option<Said> {
        let mode = Text::read(self.alloc, mode.as_bytes()).ok()?;
        self.says(What::AskWith { mode, n })
    }

    fn ticks_lightly(&mut self, moment: u64) -> Option<Said> {
        if moment > 1_000_000 {
            return None;
        }
        let plan = self.core.plan_tick(moment);
        Some(self.makes(plan))
    }

    fn makes(&mut self, plan: SmallPlan) -> Said
        requires { IsSmallReady self.old.core plan }
    {
        self.is_followed_lightly(&plan);
        let reply = self.core.commit_small(plan);
        let said = summary(&reply);
        drop(reply);
        said
    }

    /// The follower does the same without memory, before the endpoint does.
    fn is_followed_lightly(&mut self, plan: &SmallPlan)
        ensures { self.new.core ≡ self.old.core }
    {
        let Some(follower) = &mut self.follower else {
            return;
        };
        let reply = match plan {
            SmallPlan::Tick { moment } if *moment <= MAX_MOMENT => {
                let plan = follower.plan_tick(*moment);
                follower.commit_small(plan)
            }
            SmallPlan::Confirm { upto } => {
                let plan = follower.plan_confirm(*upto);
                follower.commit_small(plan)
            }
            _ => Reply::Quiet,
        };
        drop(reply);
    }

    fn submits_too_much(&mut self, mode: &str) -> Option<Said> {
        let bytes = vec![in self.alloc; 0; 62_914_561].ok()?;
        let said = self.submits(mode, bytes.as_slice());
        drop(bytes);
        said
    }

    /// Submits these bytes by this mode.
    #[tactic(auto, unfolding(exchange_model::specs::Coming::may_come))]
    fn submits(&mut self, mode: &str, bytes: &[u8]) -> Option<Said> {
        match (
            Text::read(self.alloc, mode.as_bytes()),
            loads_of(self.alloc, bytes),
        ) {
            (Ok(mode), Some(loads)) => self.says(What::Submit {
                mode,
                conversation: None,
                loads,
            }),
            (mode, loads) => {
                drop(mode);
                drop(loads);
                None
            }
        }
    }
}

impl Rig {
    /// The header of the last message that it sent.
    fn header(&self) -> Option<&UserHeader> {
        match &self.sent {
            Some(Message::User { header, .. }) => Some(header),
            _ => None,
        }
    }

    /// Receives the message, if there is one.
    fn hears(&mut self, message: &Option<Message>) -> Option<Said> {
        match message.as_ref()?.try_clone(self.alloc) {
            Ok(message) => self.hears_message(message),
            Err(error) => {
                drop(error);
                None
            }
        }
    }

    /// Receives the message, if it is a valid event.
    pub(super) fn hears_message(&mut self, message: Message) -> Option<Said> {
        if may_come(self.alloc, &message) {
            return self.says(What::Came(message));
        }
        drop(message);
        None
    }

    /// Receives the signal, if it was made.
    #[tactic(auto, unfolding(exchange_model::specs::Coming::may_come))]
    fn hears_signal(&mut self, made: Result<Signal, NoMemory>) -> Option<Said> {
        match made {
            Ok(signal) => self.says(What::Came(Message::Signal(signal))),
            Err(error) => {
                drop(error);
                None
            }
        }
    }

    fn is_pulled(&mut self, channel: &str) -> Option<Said> {
        let mpc = Text::read(self.alloc, channel.as_bytes()).ok()?;
        let signal = pull_request(self.alloc, &mpc, 0, 1000);
        self.hears_signal(signal)
    }

    /// Receives a receipt for the last message that it sent, with or without a copy of its header.
    fn is_answered(&mut self, with_copy: bool) -> Option<Said> {
        let header = self.header()?;
        let signal = if with_copy {
            receipt(self.alloc, header, 0, 1000)
        } else {
            bare_receipt(self.alloc, &header.id)
        };
        self.hears_signal(signal)
    }

    /// Receives a receipt whose copy has another action.
    fn is_answered_for_another_action(&mut self) -> Option<Said> {
        let header = self.header()?;
        let signal = receipt_for_another_action(self.alloc, header);
        self.hears_signal(signal)
    }

    /// Receives a receipt for a message with this identifier.
    fn is_answered_for(&mut self, id: &str) -> Option<Said> {
        let id = MessageId::read(self.alloc, id.as_bytes()).ok()?;
        let signal = bare_receipt(self.alloc, &id);
        self.hears_signal(signal)
    }

    /// Receives an error with this code, about the last message that it sent.
    fn is_refused(&mut self, code: u16) -> Option<Said>
        requires { IsSome (error_row code) }
    {
        let header = self.header()?;
        let signal = error_signal(self.alloc, code, Some(&header.id), 0, 1000);
        self.hears_signal(signal)
    }

    /// The status of the last message that it sent.
    #[tactic(auto, unfolding(exchange_model::specs::Coming::may_come))]
    fn status(&mut self) -> Option<Said> {
        let id = self.header()?.id.try_clone(self.alloc).ok()?;
        self.says(What::Status { id })
    }

    #[tactic(auto, unfolding(exchange_model::specs::Coming::may_come))]
    fn status_of(&mut self, id: &str) -> Option<Said> {
        let id = MessageId::read(self.alloc, id.as_bytes()).ok()?;
        self.says(What::Status { id })
    }
}

/// A text of these bytes.
fn loads_of(alloc: Global, bytes: &[u8]) -> Option<Seq<Load>> {
    match (octets(alloc, b"text/plain"), octets(alloc, bytes)) {
        (Some(media), Some(content)) => {
            Some(Seq::of(vec![in alloc; Load { media, content }].ok()?))
        }
        (media, content) => {
            drop(media);
            drop(content);
            None
        }
    }
}

/// A receipt for the message with this identifier, without a copy of its header.
fn bare_receipt(alloc: Global, id: &MessageId) -> Result<Signal, NoMemory> {
    let stamp = stamp_text(alloc, 0)?;
    let ref_to = Some(id.try_clone(alloc)?);
    let id = MessageId::of_signal(alloc, 1000)?;
    Ok(Signal {
        stamp,
        id,
        ref_to,
        body: SignalBody::Receipt { copy: None },
    })
}

/// A receipt for the message with this header, with a copy that has another action.
fn receipt_for_another_action(alloc: Global, header: &UserHeader) -> Result<Signal, NoMemory> {
    let Ok(action) = Text::read(alloc, b"order") else {
        return Err(NoMemory);
    };
    match header.try_clone(alloc) {
        Ok(copy) => {
            let mut other = copy;
            other.action = action;
            let signal = receipt(alloc, &other, 0, 1000);
            drop(other);
            signal
        }
        Err(error) => {
            drop(action);
            Err(error)
        }
    }
}

/// Whether the message is a valid event for an endpoint.
#[tactic(auto, unfolding(exchange_model::specs::Coming::may_come, exchange_model::specs::Coming::is_deliverable))]
pub fn may_come(alloc: Global, message: &Message) -> bool
    ensures { IsTrue result → IsTrue (may_come (What.Came message.now)) }
{
    match message {
        Message::User { header, payloads } => {
            let paired = pairs(alloc, header.parts.items(), payloads.items());
            matches!(paired, Ok(true)) && delivery_fits(header, payloads)
        }
        Message::Signal(_) | Message::Pair(_) => true,
    }
}

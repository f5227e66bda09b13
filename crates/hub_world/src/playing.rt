//! What each line of a script of a chain does.
ghost use Rattle.std.specs.Prelude.{◌≡◌, ◌≢◌, ◌<◌, ◌≤◌, ◌∷◌, [], ◌++◌, Err, IfOk, IfSome, IsTrue, Some, codes, false, length, nat_le, true};
ghost use Rattle.std.specs.Option.{unwrap_or};
ghost use Rattle.drill_script.specs.LineText.{is_line, is_load, is_name, is_stoppable, line_limit, line_text};
ghost use Rattle.drill_script.specs.declared.line.LinkName.TheVariants.{Front, Rear};
ghost use Rattle.drill_texts.specs.Loads.{loads_of};
ghost use Rattle.drill_texts.specs.Modes.{IsDrillMode};
ghost use Rattle.drill_texts.specs.Texts.{status_text};
ghost use Rattle.drill_world.specs.States.{IsCall};
ghost use Rattle.drill_world.specs.Transcript.{events_limit, may_be_named};
ghost use Rattle.exchange_model.specs.Coming.{may_come};
ghost use Rattle.exchange_model.specs.declared.what.What.TheVariants as what;
ghost use Rattle.hub_world.specs.Ends.{id_at, link_for, package_for, speaker_of};
ghost use Rattle.hub_world.specs.States.{IsInChain, Performs, until};
ghost use Rattle.hub_world.specs.Transcript.{Does, Plays, arrives, comes, does, doing_of, has_mode, is_right, is_too_many, relays, running_of, submits, tells};
ghost use Rattle.mode_values.specs.declared.mode.Mode.{Mode as ModeValue};

use crate::state::HubState;
use as4_values::{MAX_MOMENT, Octets, PlainData};
use drill_script::{EndName, Line, LinkName, ScriptLoad, Stoppable, Way, is_chain_line};
use drill_texts::{no_mode_line, no_package_line, unknown_line};
use drill_world::{Asked, MAX_EVENTS, Refused, StopAt, name_mode, name_text, submission};
use exchange_model::{Event, What};

impl HubState {
    /// Plays a line, and returns what it writes.
    pub fn play(&mut self, line: &Line) -> Result<Octets, Refused>
        requires spelled { IsTrue (is_line line.now) }
        requires short { length (line_text line.now) ≤ line_limit }
        ensures right { IfOk result (λ _. (is_right line.now self.old ≡ true) × (is_too_many line.now self.old ≡ false)) }
        ensures plays { IfOk result (λ text. Plays line.now (doing_of self.old line.now) self.old text self.new) }
        ensures wrong { result ≡ Err Refused.Wrong → is_right line.now self.old ≡ false }
        ensures too_many { result ≡ Err Refused.TooMany
            → (is_right line.now self.old ≡ true) × (is_too_many line.now self.old ≡ true) }

        // Neither is reported as out of memory.
        ensures told { is_right line.now self.old ≡ false → result ≡ Err Refused.Wrong }
        ensures full { is_right line.now self.old ≡ true → is_too_many line.now self.old ≡ true
            → result ≡ Err Refused.TooMany }
    {
        if !is_chain_line(line) {
            return Err(Refused::Wrong);
        }
        match line {
            Line::Mode {
                name,
                link,
                way,
                retries,
                period,
            } => self.name_mode(*link, name, *way, *retries, *period),
            other => self.play_in_chain(other),
        }
    }

    /// All endpoints get a mode, where the script has only named modes so far.
    fn name_mode(
        &mut self,
        link: Option<LinkName>,
        name: &Octets,
        way: Way,
        retries: u32,
        period: u64,
    ) -> Result<Octets, Refused>
        requires named { IsTrue (is_name name.now) }
        requires retries { retries ≤ 1000 }
        requires begun { 1 ≤ period }
        requires period { period ≤ 1000000000 }
        ensures placed { IfOk result (λ _. may_be_named name.now self.old.modes self.old.begun ≡ true) }
        ensures adds { IfOk result (λ text. (text ≡ []) × ((mode : ModeValue) × IsDrillMode link name.now way retries period mode
            × (self.new ≡ record self.old { modes = self.old.modes ++ mode ∷ [] }))) }
        ensures wrong { result ≡ Err Refused.Wrong → may_be_named name.now self.old.modes self.old.begun ≡ false }
        ensures told { may_be_named name.now self.old.modes self.old.begun ≡ false → result ≡ Err Refused.Wrong }
        ensures few { result ≢ Err Refused.TooMany }
    {
        name_mode(
            self.alloc,
            &mut self.modes,
            self.begun,
            link,
            name,
            way,
            retries,
            period,
        )?;
        Ok(Octets::of(Vec::new(self.alloc)))
    }

    /// What a line does that names no mode.
    #[tactic(auto, using(crate::proofs::StateLemmas::performs_from))]
    fn play_in_chain(&mut self, line: &Line) -> Result<Octets, Refused>
        requires spelled { IsTrue (is_line line.now) }
        requires other { IsInChain line.now }
        ensures { Performs (doing_of self.old line.now) self.old result self.new }
    {
        self.begin()?;
        self.play_begun(line)
    }

    /// What such a line does where all endpoints have their modes.
    #[tactic(auto, unfolding(crate::specs::Transcript::doing_of, drill_script::specs::LineText::is_line, exchange_model::specs::Coming::may_come))]
    fn play_begun(&mut self, line: &Line) -> Result<Octets, Refused>
        requires spelled { IsTrue (is_line line.now) }
        requires other { IsInChain line.now }
        requires begun { self.old.begun ≡ true }
        ensures { Performs (doing_of self.old line.now) self.old result self.new }
    {
        match line {
            Line::Mode { .. } => unreachable!(),
            Line::Run(line) => self.run(line, None),
            Line::Ask { mode, .. } => self.ask(mode),
            Line::Pair { .. } => unreachable!(),
            Line::Relay { mode, .. } => self.relay_by(mode),
            Line::Lost { end, from, package } => self.arrive(*end, *from, *package, true, None),
            Line::Read { end, number } => {
                self.make_at(*end, *number, What::Read { n: *number }, None)
            }
            Line::Status { end, number } => self.tell(*end, *number),
            Line::Crash { end } => Ok(self.crash(*end)?),
            Line::Stop { call, pick, line } => self.run(
                line,
                Some(StopAt {
                    call: *call,
                    pick: *pick,
                }),
            ),
            Line::Fold { .. } => unreachable!(),
        }
    }

    /// What a line does that can be stopped, and may be.
    #[tactic(auto, unfolding(crate::specs::Transcript::running_of, drill_script::specs::LineText::is_stoppable, exchange_model::specs::Coming::may_come))]
    fn run(&mut self, line: &Stoppable, at: Option<StopAt>) -> Result<Octets, Refused>
        requires spelled { IsTrue (is_stoppable line.now) }
        requires begun { self.old.begun ≡ true }
        requires call { IfSome at IsCall }
        ensures { Performs (until at (running_of self.old line.now)) self.old result self.new }
    {
        match line {
            Stoppable::Submit { mode, load, .. } => self.submit(mode, load, at),
            Stoppable::Tick { end, moment } => self.make(
                link_for(*end, None),
                Asked {
                    end: *end,
                    what: What::Tick,
                    moment: Some(*moment),
                    lost: false,
                    number: 0,
                },
                at,
            ),
            Stoppable::Take { end } => self.make_at(*end, 0, What::Take, at),
            Stoppable::Came { end, from, package } => {
                self.arrive(*end, *from, *package, false, at)
            }
            Stoppable::Confirm { end, number } => {
                self.make_at(*end, *number, What::Confirm { upto: *number }, at)
            }
        }
    }

    /// A message is submitted at the first endpoint.
    #[tactic(auto, unfolding(exchange_model::specs::Coming::may_come))]
    fn submit(
        &mut self,
        mode: &Octets,
        load: &ScriptLoad,
        at: Option<StopAt>,
    ) -> Result<Octets, Refused>
        requires named { IsTrue (is_name mode.now) }
        requires loaded { IsTrue (is_load load.now) }
        requires begun { self.old.begun ≡ true }
        requires call { IfSome at IsCall }
        ensures { Performs (until at (submits (has_mode Front mode.now self.old.modes) mode.now load.now)) self.old result self.new }
    {
        if !self.has_mode(LinkName::Front, mode) {
            return Ok(no_mode_line(self.alloc, EndName::First)?);
        }
        self.submit_by(mode, load, at)
    }

    /// A message is submitted at the first endpoint by a mode of its link.
    #[tactic(auto, unfolding(exchange_model::specs::Coming::may_come))]
    fn submit_by(
        &mut self,
        mode: &Octets,
        load: &ScriptLoad,
        at: Option<StopAt>,
    ) -> Result<Octets, Refused>
        requires named { IsTrue (is_name mode.now) }
        requires loaded { IsTrue (is_load load.now) }
        requires begun { self.old.begun ≡ true }
        requires call { IfSome at IsCall }
        ensures { Performs (until at (does EndName.First 0 (what.Submit mode.now (Some (codes "c")) (loads_of load.now)))) self.old result self.new }
    {
        if self.is_full() {
            return Err(Refused::TooMany);
        }
        let what = submission(self.alloc, mode, load)?;
        self.make_at(EndName::First, 0, what, at)
    }

    /// The last endpoint asks for a message of a mode.
    #[tactic(auto, unfolding(exchange_model::specs::Coming::may_come))]
    fn ask(&mut self, mode: &Octets) -> Result<Octets, Refused>
        requires named { IsTrue (is_name mode.now) }
        requires begun { self.old.begun ≡ true }
        ensures { Performs (does EndName.Last 0 (what.Ask mode.now)) self.old result self.new }
    {
        if self.is_full() {
            return Err(Refused::TooMany);
        }
        let mode = name_text(self.alloc, mode)?;
        self.make_at(EndName::Last, 0, What::Ask { mode }, None)
    }

    /// The hub relays the next message of its inbox by a mode.
    fn relay_by(&mut self, mode: &Octets) -> Result<Octets, Refused>
        requires named { IsTrue (is_name mode.now) }
        requires begun { self.old.begun ≡ true }
        ensures { Performs (relays (has_mode Rear mode.now self.old.modes) mode.now) self.old result self.new }
    {
        if !self.has_mode(LinkName::Rear, mode) {
            return Ok(no_mode_line(self.alloc, EndName::Hub)?);
        }
        if self.is_full() {
            return Err(Refused::TooMany);
        }
        let mode = name_text(self.alloc, mode)?;
        let text = self.relay(&mode);
        drop(mode);
        Ok(text?)
    }

    /// The package of this number arrives from an endpoint, if it is named; the reply may be lost.
    fn arrive(
        &mut self,
        end: EndName,
        from: Option<EndName>,
        number: u64,
        lost: bool,
        at: Option<StopAt>,
    ) -> Result<Octets, Refused>
        requires begun { self.old.begun ≡ true }
        requires call { IfSome at IsCall }
        ensures { Performs (until at (arrives end from lost number self.old.ends)) self.old result self.new }
    {
        match from {
            Some(from) => self.receive(end, from, number, lost, at),
            None => Ok(no_package_line(self.alloc, end)?),
        }
    }

    /// The package of this number arrives from an endpoint; the reply may be lost.
    fn receive(
        &mut self,
        end: EndName,
        from: EndName,
        number: u64,
        lost: bool,
        at: Option<StopAt>,
    ) -> Result<Octets, Refused>
        requires begun { self.old.begun ≡ true }
        requires call { IfSome at IsCall }
        ensures { Performs (until at (comes end from lost (package_for end from number self.old.ends))) self.old result self.new }
    {
        match self.package_for(end, from, number) {
            None => Ok(no_package_line(self.alloc, end)?),
            Some(message) => {
                if self.is_full() {
                    return Err(Refused::TooMany);
                }
                let what = What::Came(message.try_clone(self.alloc)?);
                self.make(
                    link_for(end, Some(from)),
                    Asked {
                        end,
                        what,
                        moment: None,
                        lost,
                        number: 0,
                    },
                    at,
                )
            }
        }
    }

    /// The producer asks for the status of the submission of this number.
    #[tactic(auto, unfolding(exchange_model::specs::Coming::may_come))]
    fn tell(&mut self, end: EndName, number: u64) -> Result<Octets, Refused>
        requires { self.old.begun ≡ true }
        ensures { Performs (tells end number (id_at end number self.old.ends)) self.old result self.new }
    {
        match self.id_at(end, number) {
            None => Ok(unknown_line(self.alloc, end, number)?),
            Some(id) => {
                if self.is_full() {
                    return Err(Refused::TooMany);
                }
                let what = What::Status {
                    id: id.try_clone(self.alloc)?,
                };
                self.make_at(end, number, what, None)
            }
        }
    }

    /// Whether one more event is one too many.
    fn is_full(&self) -> bool
        ensures { result ≡ nat_le events_limit self.now.events }
    {
        self.events >= MAX_EVENTS
    }

    /// The event happens or is stopped, at the endpoint's own moment; its reply isn't lost.
    fn make_at(
        &mut self,
        end: EndName,
        number: u64,
        what: What,
        at: Option<StopAt>,
    ) -> Result<Octets, Refused>
        requires begun { self.old.begun ≡ true }
        requires comes { IsTrue (may_come what) }
        requires call { IfSome at IsCall }
        ensures { Performs (until at (does end number what)) self.old result self.new }
    {
        self.make(link_for(end, None), Asked::of(end, number, what), at)
    }

    /// The event happens or is stopped, at the moment that the line sets or else at the endpoint's. Its nonce is its number
    /// among all.
    fn make(&mut self, link: LinkName, ask: Asked, at: Option<StopAt>) -> Result<Octets, Refused>
        requires begun { self.old.begun ≡ true }
        requires dated { IfSome ask.moment (λ m. m ≤ MAX_MOMENT) }
        requires comes { IsTrue (may_come ask.what) }
        requires call { IfSome at IsCall }
        ensures { Performs (until at (Does link ask)) self.old result self.new }
    {
        if self.is_full() {
            drop(ask);
            return Err(Refused::TooMany);
        }
        let Asked {
            end,
            what,
            moment,
            lost,
            number,
        } = ask;
        let event = Event {
            stamp: self.stamp_for(end, moment),
            nonce: u128::from(self.events),
            what,
        };
        match at {
            None => Ok(self.meet(link, end, event, number, lost)?),
            Some(at) => Ok(self.stop(link, end, event, at)?),
        }
    }

    /// The moment that a line sets, or else the endpoint's.
    fn stamp_for(&self, end: EndName, moment: Option<u64>) -> u64
        requires { IfSome moment (λ m. m ≤ MAX_MOMENT) }
        ensures value { result ≡ unwrap_or moment (speaker_of end self.now.ends).end.moment }
        ensures dated { result ≤ MAX_MOMENT }
    {
        match moment {
            Some(moment) => moment,
            None => self.moment(end),
        }
    }
}

/// The link on which an endpoint meets an event: the hub meets on the front link what comes from the first endpoint.
fn link_for(end: EndName, from: Option<EndName>) -> LinkName
    ensures { result ≡ link_for end from }
{
    match end {
        EndName::First => LinkName::Front,
        EndName::Hub => match from {
            Some(EndName::First) => LinkName::Front,
            _ => LinkName::Rear,
        },
        _ => LinkName::Rear,
    }
}

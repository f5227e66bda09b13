//! What each line of a script does.
ghost use Rattle.std.specs.Prelude.{◌≡◌, ◌≢◌, ◌<◌, ◌≤◌, ◌∷◌, [], ◌++◌, Err, IfOk, IfSome, IsTrue, Some, codes, false, length, nat_le, true};
ghost use Rattle.std.specs.Option.{unwrap_or};
ghost use Rattle.mode_values.specs.declared.mode.Mode.{Mode as ModeValue};
ghost use Rattle.drill_world.specs.Events.{Does, asked as asked_at, comes, id_at, package_for, site_of, tells};
ghost use Rattle.drill_world.specs.States.{IsAtEnd, IsCall, Performs, until};
ghost use Rattle.drill_world.specs.Transcript.{Plays, doing_of, events_limit, is_right, is_too_many, may_be_named, running_of};
ghost use Rattle.drill_script.specs.LineText.{is_line, is_load, is_name, is_stoppable, line_limit, line_text};
ghost use Rattle.drill_script.specs.Scripts.{is_pair_line};
ghost use Rattle.drill_texts.specs.Loads.{loads_of};
ghost use Rattle.drill_texts.specs.Modes.{IsDrillMode};
ghost use Rattle.drill_texts.specs.Texts.{status_text};
ghost use Rattle.exchange_model.specs.Coming.{may_come};
ghost use Rattle.exchange_model.specs.World.{IsHeard, across, speaker_at};
ghost use Rattle.exchange_model.specs.declared.what.What.TheVariants as what;

use crate::asked::Asked;
use crate::endpoint::StopAt;
use crate::naming::{name_mode, name_text};
use crate::refused::Refused;
use crate::state::DrillState;
use as4_values::{MAX_MOMENT, NoMemory, Octets, PlainData, Text};
use drill_script::{EndName, Line, LinkName, ScriptLoad, Stoppable, Way, is_pair_line};
use drill_texts::{loads_of, no_package_line, unknown_line};
use exchange_model::{Event, What};
use std::alloc::Global;

/// How many modes a script names at most.
pub const MAX_MODES: usize = 1024;

const _: () = prove!(MAX_MODES == 1024);

/// How many events a script makes at most.
pub const MAX_EVENTS: u64 = 100_000;

const _: () = prove!(MAX_EVENTS == 100000);

impl DrillState {
    /// Plays a line, and gives what it writes.
    pub fn play(&mut self, line: &Line) -> Result<Octets, Refused>
        requires spelled { IsTrue (is_line line.now) }
        requires short { length (line_text line.now) ≤ line_limit }
        ensures right { IfOk result (λ _. (is_right line.now self.old ≡ true) × (is_too_many line.now self.old ≡ false)) }
        ensures plays { IfOk result (λ text. Plays line.now (doing_of self.old.world line.now) self.old text self.new) }
        ensures wrong { result ≡ Err Refused.Wrong → is_right line.now self.old ≡ false }
        ensures too_many { result ≡ Err Refused.TooMany
            → (is_right line.now self.old ≡ true) × (is_too_many line.now self.old ≡ true) }

        // Neither is told as a want of memory.
        ensures told { is_right line.now self.old ≡ false → result ≡ Err Refused.Wrong }
        ensures full { is_right line.now self.old ≡ true → is_too_many line.now self.old ≡ true
            → result ≡ Err Refused.TooMany }
    {
        if !is_pair_line(line) {
            return Err(Refused::Wrong);
        }
        match line {
            Line::Mode {
                name,
                link,
                way,
                retries,
                period,
            } => self.name_mode(*link, name, *way, *retries, *period),
            other => self.play_at_end(other),
        }
    }

    /// Both ends get a mode, where the script has only named modes so far.
    fn name_mode(
        &mut self,
        link: Option<LinkName>,
        name: &Octets,
        way: Way,
        retries: u32,
        period: u64,
    ) -> Result<Octets, Refused>
        requires named { IsTrue (is_name name.now) }
        requires retries { retries ≤ 1000 }
        requires begun { 1 ≤ period }
        requires period { period ≤ 1000000000 }
        ensures placed { IfOk result (λ _. may_be_named name.now self.old.modes self.old.begun ≡ true) }
        ensures adds { IfOk result (λ text. (text ≡ []) × ((mode : ModeValue) × IsDrillMode link name.now way retries period mode
            × (self.new ≡ record self.old { modes = self.old.modes ++ mode ∷ [] }))) }
        ensures wrong { result ≡ Err Refused.Wrong → may_be_named name.now self.old.modes self.old.begun ≡ false }
        ensures told { may_be_named name.now self.old.modes self.old.begun ≡ false → result ≡ Err Refused.Wrong }
        ensures few { result ≢ Err Refused.TooMany }
    {
        name_mode(
            self.alloc,
            &mut self.modes,
            self.begun,
            link,
            name,
            way,
            retries,
            period,
        )?;
        Ok(Octets::of(Vec::new(self.alloc)))
    }

    /// What a line does that names no mode.
    #[tactic(auto, using(crate::proofs::StateLemmas::performs_from))]
    fn play_at_end(&mut self, line: &Line) -> Result<Octets, Refused>
        requires spelled { IsTrue (is_line line.now) }
        requires other { IsAtEnd line.now }
        ensures { Performs (doing_of self.old.world line.now) self.old result self.new }
    {
        self.begin()?;
        self.play_begun(line)
    }

    /// What such a line does where both ends have their modes.
    #[tactic(auto, unfolding(crate::specs::Transcript::doing_of, drill_script::specs::LineText::is_line, exchange_model::specs::Coming::may_come))]
    fn play_begun(&mut self, line: &Line) -> Result<Octets, Refused>
        requires spelled { IsTrue (is_line line.now) }
        requires other { IsAtEnd line.now }
        requires begun { self.old.begun ≡ true }
        ensures { Performs (doing_of self.old.world line.now) self.old result self.new }
    {
        match line {
            Line::Mode { .. } => unreachable!(),
            Line::Run(line) => self.run(line, None),
            Line::Ask { end, mode } => self.ask(*end, mode),
            Line::Pair { end, mode, number } => self.ask_with(*end, mode, *number),
            Line::Relay { .. } => unreachable!(),
            Line::Lost { end, package, .. } => self.receive(*end, *package, true, None),
            Line::Read { end, number } => {
                self.make(Asked::of(*end, *number, What::Read { n: *number }), None)
            }
            Line::Status { end, number } => self.tell(*end, *number),
            Line::Crash { end } => Ok(self.crash(*end)?),
            Line::Stop { call, pick, line } => self.run(
                line,
                Some(StopAt {
                    call: *call,
                    pick: *pick,
                }),
            ),
            Line::Fold { end } => Ok(self.fold(*end)?),
        }
    }

    /// What a line does that can be stopped, and may be.
    #[tactic(auto, unfolding(crate::specs::Transcript::running_of, drill_script::specs::LineText::is_stoppable, exchange_model::specs::Coming::may_come))]
    fn run(&mut self, line: &Stoppable, at: Option<StopAt>) -> Result<Octets, Refused>
        requires spelled { IsTrue (is_stoppable line.now) }
        requires begun { self.old.begun ≡ true }
        requires call { IfSome at IsCall }
        ensures { Performs (until at (running_of self.old.world line.now)) self.old result self.new }
    {
        match line {
            Stoppable::Submit { end, mode, load } => self.submit(*end, mode, load, at),
            Stoppable::Tick { end, moment } => self.make(
                Asked {
                    end: *end,
                    what: What::Tick,
                    moment: Some(*moment),
                    lost: false,
                    number: 0,
                },
                at,
            ),
            Stoppable::Take { end } => self.make(Asked::of(*end, 0, What::Take), at),
            Stoppable::Came { end, package, .. } => self.receive(*end, *package, false, at),
            Stoppable::Confirm { end, number } => self.make(
                Asked::of(*end, *number, What::Confirm { upto: *number }),
                at,
            ),
        }
    }

    /// A message is handed in.
    #[tactic(auto, unfolding(exchange_model::specs::Coming::may_come))]
    fn submit(
        &mut self,
        end: EndName,
        mode: &Octets,
        load: &ScriptLoad,
        at: Option<StopAt>,
    ) -> Result<Octets, Refused>
        requires named { IsTrue (is_name mode.now) }
        requires loaded { IsTrue (is_load load.now) }
        requires begun { self.old.begun ≡ true }
        requires call { IfSome at IsCall }
        ensures { Performs (until at (Does (asked_at end 0 (what.Submit mode.now (Some (codes "c")) (loads_of load.now))))) self.old result self.new }
    {
        if self.is_full() {
            return Err(Refused::TooMany);
        }
        let what = submission(self.alloc, mode, load)?;
        self.make(Asked::of(end, 0, what), at)
    }

    /// A pull request is asked for.
    #[tactic(auto, unfolding(exchange_model::specs::Coming::may_come))]
    fn ask(&mut self, end: EndName, mode: &Octets) -> Result<Octets, Refused>
        requires named { IsTrue (is_name mode.now) }
        requires begun { self.old.begun ≡ true }
        ensures { Performs (Does (asked_at end 0 (what.Ask mode.now))) self.old result self.new }
    {
        if self.is_full() {
            return Err(Refused::TooMany);
        }
        let mode = name_text(self.alloc, mode)?;
        self.make(Asked::of(end, 0, What::Ask { mode }), None)
    }

    /// A pull request is asked for, with the receipt of the message of this number in the inbox.
    #[tactic(auto, unfolding(exchange_model::specs::Coming::may_come))]
    fn ask_with(&mut self, end: EndName, mode: &Octets, number: u64) -> Result<Octets, Refused>
        requires named { IsTrue (is_name mode.now) }
        requires begun { self.old.begun ≡ true }
        ensures { Performs (Does (asked_at end number (what.AskWith mode.now number))) self.old result self.new }
    {
        if self.is_full() {
            return Err(Refused::TooMany);
        }
        let mode = name_text(self.alloc, mode)?;
        self.make(
            Asked::of(end, number, What::AskWith { mode, n: number }),
            None,
        )
    }

    /// The package of this number that the other end sent comes; the reply may be lost.
    fn receive(
        &mut self,
        end: EndName,
        number: u64,
        lost: bool,
        at: Option<StopAt>,
    ) -> Result<Octets, Refused>
        requires begun { self.old.begun ≡ true }
        requires call { IfSome at IsCall }
        ensures { Performs (until at (comes end lost (package_for end number self.old.world))) self.old result self.new }
    {
        match self.package_for(end, number) {
            None => Ok(no_package_line(self.alloc, end)?),
            Some(message) => {
                if self.is_full() {
                    return Err(Refused::TooMany);
                }
                let what = What::Came(message.try_clone(self.alloc)?);
                self.make(
                    Asked {
                        end,
                        what,
                        moment: None,
                        lost,
                        number: 0,
                    },
                    at,
                )
            }
        }
    }

    /// The producer asks what became of the submission of this number.
    #[tactic(auto, unfolding(exchange_model::specs::Coming::may_come))]
    fn tell(&mut self, end: EndName, number: u64) -> Result<Octets, Refused>
        requires { self.old.begun ≡ true }
        ensures { Performs (tells end number (status_text number (codes "unknown")) (id_at end number self.old.world)) self.old result self.new }
    {
        match self.id_at(end, number) {
            None => Ok(unknown_line(self.alloc, end, number)?),
            Some(id) => {
                if self.is_full() {
                    return Err(Refused::TooMany);
                }
                let what = What::Status {
                    id: id.try_clone(self.alloc)?,
                };
                self.make(Asked::of(end, number, what), None)
            }
        }
    }

    /// Whether one more event is one too many.
    fn is_full(&self) -> bool
        ensures { result ≡ nat_le events_limit self.now.events }
    {
        self.events >= MAX_EVENTS
    }

    /// The moment that a line sets, or else the end's.
    fn stamp_for(&self, end: EndName, moment: Option<u64>) -> u64
        requires { IfSome moment (λ m. m ≤ MAX_MOMENT) }
        ensures value { result ≡ unwrap_or moment (speaker_at (site_of end) self.now.world).end.moment }
        ensures dated { result ≤ MAX_MOMENT }
    {
        match moment {
            Some(moment) => moment,
            None => self.moment(end),
        }
    }

    /// The event happens or is stopped, at the moment that the line sets or else at the end's. Its nonce is its number
    /// among all.
    fn make(&mut self, ask: Asked, at: Option<StopAt>) -> Result<Octets, Refused>
        requires begun { self.old.begun ≡ true }
        requires dated { IfSome ask.moment (λ m. m ≤ MAX_MOMENT) }
        requires comes { IsTrue (may_come ask.what) }
        requires heard { IsHeard (speaker_at (across (site_of ask.end)) self.old.world).said ask.what }
        requires call { IfSome at IsCall }
        ensures { Performs (until at (Does ask)) self.old result self.new }
    {
        if self.is_full() {
            drop(ask);
            return Err(Refused::TooMany);
        }
        let Asked {
            end,
            what,
            moment,
            lost,
            number,
        } = ask;
        let event = Event {
            stamp: self.stamp_for(end, moment),
            nonce: u128::from(self.events),
            what,
        };
        match at {
            None => Ok(self.meet(end, event, number, lost)?),
            Some(at) => Ok(self.stop(end, event, at)?),
        }
    }
}

/// The event of a message that is submitted, in the conversation `c`.
#[tactic(auto, using(crate::proofs::NameLemmas::c_is_plain))]
pub fn submission(alloc: Global, mode: &Octets, load: &ScriptLoad) -> Result<What, NoMemory>
    requires named { IsTrue (is_name mode.now) }
    requires loaded { IsTrue (is_load load.now) }
    ensures { IfOk result (λ w. w ≡ what.Submit mode.now (Some (codes "c")) (loads_of load.now)) }
{
    let mode = name_text(alloc, mode)?;
    let conversation = Text::plain(alloc, b"c")?;
    let loads = loads_of(alloc, load)?;
    Ok(What::Submit {
        mode,
        conversation: Some(conversation),
        loads,
    })
}

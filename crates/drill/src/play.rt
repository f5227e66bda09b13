//! What a script is played on: a pair of endpoints, or a chain of three.
ghost use Rattle.std.specs.Prelude.{◌≡◌, ◌≤◌, ℕ, Bool, List, [], ◌∷◌, ◌++◌, Err, IfOk, IsTrue, false, length, true};
ghost use Rattle.drill_script.specs.LineText.{is_line, line_limit, line_text};
ghost use Rattle.drill_script.specs.declared.line.Line.{Line as LineValue};
ghost use Rattle.drill_world.specs.Transcript as pair;
ghost use Rattle.exchange_model.specs.DeliveredOnce.{HasDeliveredOnce};
ghost use Rattle.hub_world.specs.Delivered.{HasDeliveredThrough};
ghost use Rattle.hub_world.specs.Transcript as chain;

use as4_values::{NoMemory, Octets};
use drill_script::Line;
use drill_world::{DrillState, Refused, a_drill_delivers_once};
use hub_world::{HubState, a_chain_drill_delivers_once};

/// What a script is played on.
pub trait Play {
    /// The state before the first line.
    ghost first: { Self };

    /// Whether the line is one of such a script, in its place.
    ghost right: { LineValue → Self → Bool };

    /// Whether the line would make one event too many.
    ghost too_many: { LineValue → Self → Bool };

    /// What the line leads to, and what it writes.
    ghost plays: { LineValue → Self → List ℕ → Self → Type 0 };

    /// The same of lines, one after another.
    ghost plays_all: { List LineValue → Self → List ℕ → Self → Type 0 };

    /// The numbers of the endpoints.
    ghost end_lines: { Self → List ℕ };

    /// Each message was delivered once.
    ghost delivers: { Self → Type 0 };

    /// Plays a line, and returns what it writes.
    fn play_line(&mut self, line: &Line) -> Result<Octets, Refused>
        requires spelled { IsTrue (is_line line.now) }
        requires short { length (line_text line.now) ≤ line_limit }
        ensures right { IfOk result (λ _. (right line.now self.old ≡ true) × (too_many line.now self.old ≡ false)) }
        ensures plays { IfOk result (λ text. plays line.now self.old text self.new) }
        ensures wrong { result ≡ Err Refused.Wrong → right line.now self.old ≡ false }
        ensures too_many { result ≡ Err Refused.TooMany
            → (right line.now self.old ≡ true) × (too_many line.now self.old ≡ true) }
        ensures told { right line.now self.old ≡ false → result ≡ Err Refused.Wrong }
        ensures full { right line.now self.old ≡ true → too_many line.now self.old ≡ true
            → result ≡ Err Refused.TooMany };

    /// The numbers of the endpoints.
    fn last_lines(&self) -> Result<Octets, NoMemory>
        ensures { IfOk result (λ text. text ≡ end_lines self.now) };

    /// What holds of every script.
    fn laws(&self)
        ensures none { (s : Self) → plays_all [] s [] s }
        ensures more { (lines : List LineValue) (l : LineValue) (text words : List ℕ) (a b c : Self) → plays_all lines a text b
            → right l b ≡ true → too_many l b ≡ false → plays l b words c → plays_all (lines ++ l ∷ []) a (text ++ words) c }
        ensures spelled { (l : LineValue) (s : Self) → right l s ≡ true → IsTrue (is_line l) × (length (line_text l) ≤ line_limit) }
        ensures delivers { (lines : List LineValue) (text : List ℕ) (s : Self) → plays_all lines first text s → delivers s };
}

impl Play for DrillState {
    ghost first = { pair.new_state };

    ghost right = { λ l s. pair.is_right l s };

    ghost too_many = { λ l s. pair.is_too_many l s };

    ghost plays = { λ l old text new. pair.Plays l (pair.doing_of old.world l) old text new };

    ghost plays_all = { λ lines old text new. pair.PlaysAll lines old text new };

    ghost end_lines = { λ s. pair.end_lines s.world };

    ghost delivers = { λ s. HasDeliveredOnce s.world };

    fn play_line(&mut self, line: &Line) -> Result<Octets, Refused> {
        self.play(line)
    }

    fn last_lines(&self) -> Result<Octets, NoMemory> {
        self.end_lines()
    }

    fn laws(&self) {
        a_drill_delivers_once();
    }
}

impl Play for HubState {
    ghost first = { chain.new_state };

    ghost right = { λ l s. chain.is_right l s };

    ghost too_many = { λ l s. chain.is_too_many l s };

    ghost plays = { λ l old text new. chain.Plays l (chain.doing_of old l) old text new };

    ghost plays_all = { λ lines old text new. chain.PlaysAll lines old text new };

    ghost end_lines = { λ s. chain.end_lines s.ends };

    ghost delivers = { λ s. HasDeliveredThrough s.ends };

    fn play_line(&mut self, line: &Line) -> Result<Octets, Refused> {
        self.play(line)
    }

    fn last_lines(&self) -> Result<Octets, NoMemory> {
        self.end_lines()
    }

    fn laws(&self) {
        a_chain_drill_delivers_once();
    }
}

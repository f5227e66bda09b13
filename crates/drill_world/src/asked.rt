//! What a line of a script asks of an end.
ghost use Rattle.std.specs.Prelude.{◌≡◌};
ghost use Rattle.drill_world.specs.Events.{asked as asked_at};

use drill_script::EndName;
use exchange_model::What;

/// What a line asks of an end: an event, the moment that it sets, whether the reply is lost, and the number that the line
/// names.
#[derive(Drop)]
pub struct Asked {
    pub end: EndName,
    pub what: What,
    pub moment: Option<u64>,
    pub lost: bool,
    pub number: u64,
}

impl Asked {
    /// An event at the end's own moment, whose reply isn't lost.
    pub fn of(end: EndName, number: u64, what: What) -> Asked
        ensures { result ≡ asked_at end number what }
    {
        Asked {
            end,
            what,
            moment: None,
            lost: false,
            number,
        }
    }
}

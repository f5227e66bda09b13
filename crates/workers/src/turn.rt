//! How turns go on.
ghost use Rattle.std.specs.Prelude.{◌≡◌};
ghost use Rattle.workers.specs.Endings.{after_pull, after_push, after_session};

use rounds::{Pulled, RoundEnd};
use sessions::Ended;

/// How a turn ended.
#[derive(Clone, Copy, Debug, PartialEq, Eq)]
pub enum Turn {
    /// There may be more to do at once.
    Worked,
    /// There was nothing to do, or nothing can be done now: the worker rests.
    Idle,
    /// Memory ran out: the turn is counted, and the worker rests.
    Starved,
    /// The door is closed.
    Closed,
}

/// After a session.
pub(crate) fn after_session(ended: Ended) -> Turn
    ensures { result ≡ after_session ended }
{
    match ended {
        Ended::NoMemory => Turn::Starved,
        other => {
            drop(other);
            Turn::Worked
        }
    }
}

/// After a round that pushes: if no message was taken, or the endpoint can't go on, there is nothing to do.
pub(crate) fn after_push(end: RoundEnd) -> Turn
    ensures { result ≡ after_push end }
{
    match end {
        RoundEnd::NoMemory => Turn::Starved,
        RoundEnd::Nothing
        | RoundEnd::DiskFault { .. }
        | RoundEnd::Stopped { .. }
        | RoundEnd::Full { .. }
        | RoundEnd::Worn => Turn::Idle,
        other => {
            drop(other);
            Turn::Worked
        }
    }
}

/// After a round that pulls: if no message came that was answered, there is nothing more to do.
pub(crate) fn after_pull(pulled: Pulled) -> Turn
    ensures { result ≡ after_pull pulled }
{
    let Pulled { end, received } = pulled;
    match end {
        RoundEnd::NoMemory => Turn::Starved,
        other => {
            drop(other);
            if received { Turn::Worked } else { Turn::Idle }
        }
    }
}

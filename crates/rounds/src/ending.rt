//! How rounds end.
ghost use Rattle.std.specs.Prelude.{◌≡◌};
ghost use Rattle.rounds.specs.Endings.{end_by, end_halted, end_lost};

use as4_http::HttpRefusal;
use exchange_model::Reply;
use link_exchange::Lost;
use office::OfficeFault;
use sessions::RoundEnd;

/// How a round ends with this reply.
pub(crate) fn ended_by(reply: Reply) -> RoundEnd
    ensures { result ≡ end_by reply }
{
    match reply {
        Reply::Nothing => RoundEnd::Nothing,
        Reply::NoMode => RoundEnd::NoMode,
        Reply::Full { size, need } => RoundEnd::Full { size, need },
        other => {
            drop(other);
            RoundEnd::Done
        }
    }
}

/// How a round ends without a reply.
pub(crate) fn halted(fault: OfficeFault) -> RoundEnd
    ensures { result ≡ end_halted fault }
{
    match fault {
        OfficeFault::Disk { before, after } => RoundEnd::DiskFault { before, after },
        OfficeFault::Stopped { before, after } => RoundEnd::Stopped { before, after },
        OfficeFault::Worn => RoundEnd::Worn,
        OfficeFault::NoMemory => RoundEnd::NoMemory,
    }
}

/// How a round ends without a response.
pub(crate) fn lost(lost: Lost) -> RoundEnd
    ensures { result ≡ end_lost lost }
{
    match lost {
        Lost::Unreached => RoundEnd::LinkFault,
        Lost::Unsent => RoundEnd::WriteFault,
        Lost::Unread(HttpRefusal::Cut) => RoundEnd::Cut,
        Lost::Unread(HttpRefusal::Bad) => RoundEnd::Bad,
        Lost::Unread(HttpRefusal::TooLong) => RoundEnd::TooLong,
        Lost::Unread(HttpRefusal::ReadFault) => RoundEnd::ReadFault,
        Lost::Unread(HttpRefusal::NoMemory) => RoundEnd::NoMemory,
        Lost::NoMemory => RoundEnd::NoMemory,
    }
}

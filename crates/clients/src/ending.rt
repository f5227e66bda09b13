//! How calls end.
ghost use Rattle.std.specs.Prelude.{◌≡◌};
ghost use Rattle.clients.specs.Endings.{collect_lost, submit_lost, visit_by};

use as4_http::HttpRefusal;
use as4_values::Octets;
use link_exchange::Lost;

/// How a submission ended.
#[derive(Drop)]
pub enum SubmitEnd {
    /// The handler has the document: it responded with status 200, and with this text.
    Accepted(Octets),
    /// The handler responded with another status, and with this text.
    Refused { status: u16, text: Octets },
    /// What came ended inside a response, is none, or is over a limit.
    BadResponse,
    /// No connection was opened.
    LinkFault,
    /// The request wasn't sent whole.
    WriteFault,
    /// The response couldn't be read.
    ReadFault,
    /// Memory ran out.
    NoMemory,
}

/// How a collection ended.
#[derive(Clone, Copy, Debug, PartialEq, Eq)]
pub enum CollectEnd {
    /// All numbers were asked for.
    Done,
    /// The inbox has no entry of this number, status 404: what was received is collected.
    NoEntry,
    /// The handler responded with this status, which is none of 200, 404 and 410.
    Refused { status: u16 },
    /// What came ended inside a response, is none, or is over a limit.
    BadResponse,
    /// No connection was opened.
    LinkFault,
    /// A request wasn't sent whole.
    WriteFault,
    /// A response couldn't be read.
    ReadFault,
    /// A file couldn't be written. Its entry wasn't confirmed.
    FileFault,
    /// A line couldn't be written.
    OutputFault,
    /// Memory ran out.
    NoMemory,
}

/// What became of one number.
#[derive(Clone, Copy, Debug, PartialEq, Eq)]
pub(crate) enum Visit {
    /// Its file was written, and then it was confirmed.
    Collected,
    /// The entry was confirmed before, and the handler doesn't have its document any more.
    Gone,
    /// The collection ends.
    Ends(CollectEnd),
}

/// What a response of this status says of a number.
pub(crate) fn visit_by(status: u16) -> Visit
    ensures { result ≡ visit_by status }
{
    match status {
        200 => Visit::Collected,
        410 => Visit::Gone,
        404 => Visit::Ends(CollectEnd::NoEntry),
        _ => Visit::Ends(CollectEnd::Refused { status }),
    }
}

/// How a submission ends without a response.
pub(crate) fn submit_lost(lost: Lost) -> SubmitEnd
    ensures { result ≡ submit_lost lost }
{
    match lost {
        Lost::Unreached => SubmitEnd::LinkFault,
        Lost::Unsent => SubmitEnd::WriteFault,
        Lost::Unread(HttpRefusal::ReadFault) => SubmitEnd::ReadFault,
        Lost::Unread(HttpRefusal::NoMemory) => SubmitEnd::NoMemory,
        Lost::Unread(HttpRefusal::Cut | HttpRefusal::Bad | HttpRefusal::TooLong) => {
            SubmitEnd::BadResponse
        }
        Lost::NoMemory => SubmitEnd::NoMemory,
    }
}

/// How a collection ends without a response.
pub(crate) fn collect_lost(lost: Lost) -> CollectEnd
    ensures { result ≡ collect_lost lost }
{
    match lost {
        Lost::Unreached => CollectEnd::LinkFault,
        Lost::Unsent => CollectEnd::WriteFault,
        Lost::Unread(HttpRefusal::ReadFault) => CollectEnd::ReadFault,
        Lost::Unread(HttpRefusal::NoMemory) => CollectEnd::NoMemory,
        Lost::Unread(HttpRefusal::Cut | HttpRefusal::Bad | HttpRefusal::TooLong) => {
            CollectEnd::BadResponse
        }
        Lost::NoMemory => CollectEnd::NoMemory,
    }
}

//! How a connection goes on after a request.
ghost use Rattle.std.specs.Prelude.{◌≡◌, ◌&&◌, not};
ghost use Rattle.as4_keep.specs.Parts.{FollowsEnd};

use as4_http::Intake;
use sessions::Ended;

/// How a connection goes on.
#[derive(Drop)]
pub(crate) enum Next {
    /// A further request may follow. The intake holds the bytes that were read past this one.
    GoesOn(Intake),
    /// The response closed the connection.
    Closes,
    /// The source ended where a request would begin.
    Ended,
    /// The request wasn't answered in full, or its response wasn't written whole.
    Breaks(Ended),
}

/// Whether a connection may go on after a request: the request allows that, and isn't the last that may be served.
pub(crate) fn may_go_on(allows: bool, is_last: bool) -> bool
    ensures { result ≡ allows && not is_last }
{
    allows && !is_last
}

/// After a request that ended so. The connection breaks unless the request was answered in full.
pub(crate) fn after_request(ended: Ended, goes_on: bool, intake: Intake) -> Next
    ensures { FollowsEnd ended goes_on intake result }
{
    match ended {
        Ended::Answered => after_response(goes_on, intake),
        Ended::Refused(refusal) => {
            drop(refusal);
            after_response(goes_on, intake)
        }
        other => {
            drop(intake);
            Next::Breaks(other)
        }
    }
}

fn after_response(goes_on: bool, intake: Intake) -> Next
    ensures { FollowsEnd Ended.Answered goes_on intake result }
{
    if goes_on {
        Next::GoesOn(intake)
    } else {
        drop(intake);
        Next::Closes
    }
}

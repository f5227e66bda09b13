//! Whether fields make a submission or a delivery.

ghost use Rattle.std.specs.Prelude.{◌↔◌, IsTrue, IfOk};
ghost use Rattle.as4_effects.specs.Whole.{AreNumbers, AreMatched, IsSubmission, IsDelivery};

use as4_effects::{delivery_fits, is_id_of, is_route, submission_fits};
use as4_values::{MAX_MOMENT, NoMemory, Payload, Route, Seq, UserHeader, pairs};
use std::alloc::Global;

/// The most submissions of an endpoint.
const MAX_SUBMISSIONS: u64 = 1_048_576;

/// The most times that a message is sent again.
const MAX_RETRIES: u32 = 1000;

/// The longest time between two tries, in milliseconds.
const MAX_PERIOD: u64 = 1_000_000_000;

/// Number, header, payloads and route, and then retries, period and moment.
pub type Sent = (
    ((u64, UserHeader), (Seq<Payload>, Route)),
    (u32, (u64, u64)),
);

/// Whether these are the fields of a submission.
pub fn is_submission(alloc: Global, sent: &Sent) -> Result<bool, NoMemory>
    ensures { IfOk result (λ whole. IsTrue whole ↔ IsSubmission sent.now.0.0.0 sent.now.0.0.1 sent.now.0.1.0 sent.now.0.1.1
        sent.now.1.0 sent.now.1.1.0 sent.now.1.1.1) }
{
    let (((number, header), (payloads, route)), (retries, (period, moment))) = sent;
    if !are_numbers(*number, *retries, *period, *moment) {
        return Ok(false);
    }
    if !submission_fits(header, payloads, route) {
        return Ok(false);
    }
    are_matched(alloc, *number, header, payloads, route)
}

fn are_numbers(number: u64, retries: u32, period: u64, moment: u64) -> bool
    ensures { IsTrue result ↔ AreNumbers number retries period moment }
{
    number < MAX_SUBMISSIONS
        && retries <= MAX_RETRIES
        && period >= 1
        && period <= MAX_PERIOD
        && moment <= MAX_MOMENT
}

fn are_matched(
    alloc: Global,
    number: u64,
    header: &UserHeader,
    payloads: &Seq<Payload>,
    route: &Route,
) -> Result<bool, NoMemory>
    ensures { IfOk result (λ matched. IsTrue matched ↔ AreMatched number header.now payloads.now route.now) }
{
    let identified = is_id_of(alloc, number, &header.id)?;
    let paired = pairs(alloc, header.parts.items(), payloads.items())?;
    Ok(identified && paired && is_route(route))
}

/// Whether these are the fields of a delivery.
pub fn is_delivery(alloc: Global, came: &(UserHeader, Seq<Payload>)) -> Result<bool, NoMemory>
    ensures { IfOk result (λ whole. IsTrue whole ↔ IsDelivery came.now.0 came.now.1) }
{
    let (header, payloads) = came;
    let paired = pairs(alloc, header.parts.items(), payloads.items())?;
    Ok(paired && delivery_fits(header, payloads))
}

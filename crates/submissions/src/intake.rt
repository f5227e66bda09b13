//! Makes submissions.

ghost use Rattle.std.specs.Prelude.{◌≡◌, ◌<◌, ◌≤◌, false, IfOk};
ghost use Rattle.exchange_model.specs.Submitting.{IsSubmissionOf, are_too_large};

use crate::header::{conversation_is_limited, header_of};
use crate::payloads::payloads_of;
use as4_effects::Submission;
use as4_values::{Load, MAX_MOMENT, MessageId, NoMemory, PlainData, Seq, Text};
use mode_values::Mode;
use std::alloc::Global;

/// The number of the submission to make, and its moments.
#[derive(Clone, Copy, Debug)]
pub struct Intake {
    /// The number of submissions before it.
    pub number: u64,
    /// When it is submitted, by the endpoint's clock, in milliseconds since 1970-01-01T00:00:00Z.
    pub now: u64,
    /// The moment of the event, written into the header, in milliseconds since 1970-01-01T00:00:00Z.
    pub stamp: u64,
    /// Makes the identifier, together with the number.
    pub nonce: u128,
}

/// The submission of the loads by a mode.
pub fn submission(
    alloc: Global,
    mode: &Mode,
    intake: Intake,
    conversation: &Option<Text>,
    loads: &Seq<Load>,
) -> Result<Submission, NoMemory>
    requires numbered { intake.number < 1048576 }
    requires now { intake.now ≤ MAX_MOMENT }
    requires stamped { intake.stamp ≤ MAX_MOMENT }
    requires small { are_too_large loads.now ≡ false }
    ensures { IfOk result (IsSubmissionOf mode.now intake.number intake.now intake.stamp intake.nonce conversation.now loads.now) }
{
    // Laws: the conversation is short enough for an effect.
    conversation_is_limited(conversation);
    let id = MessageId::of_submission(alloc, intake.number, intake.nonce)?;
    let loads = loads.items();
    match (
        payloads_of(alloc, &id, loads),
        header_of(alloc, mode, id, intake.stamp, conversation, loads.len()),
        mode.route.try_clone(alloc),
    ) {
        (Ok(payloads), Ok(header), Ok(route)) => Ok(Submission {
            number: intake.number,
            header,
            payloads,
            route,
            retries: mode.retries,
            period: mode.period,
            moment: intake.now,
        }),
        (payloads, header, route) => {
            drop(payloads);
            drop(header);
            drop(route);
            Err(NoMemory)
        }
    }
}

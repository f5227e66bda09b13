//! The header of a user message by a processing mode (ebMS 3.0 Core, section 4 and appendix D).

ghost use Rattle.std.specs.Prelude.{◌≡◌, ◌≤◌, IfOk, IfSome, length};
ghost use Rattle.as4_values.specs.Moment.{IsStampOf};
ghost use Rattle.exchange_model.specs.Submitting.{IsHeaderOf, channel_of};
ghost use Rattle.submissions.specs.Names.{IsStem};

use crate::parts::parts_of;
use as4_values::{
    Agreement, MAX_MOMENT, MessageId, NoMemory, PlainData, Route, Seq, Service, Side, StampText,
    Text, UserHeader, stamp_text,
};
use mode_values::Mode;
use std::alloc::Global;

/// The header of the message with this identifier, made at a moment, for this number of payloads.
pub fn header_of(
    alloc: Global,
    mode: &Mode,
    id: MessageId,
    stamp: u64,
    conversation: &Option<Text>,
    count: usize,
) -> Result<UserHeader, NoMemory>
    requires moment { stamp ≤ MAX_MOMENT }
    requires few { count ≤ 64 }
    requires stem { IsStem id }
    ensures { IfOk result (IsHeaderOf mode.now id stamp conversation.now count) }
{
    match (
        marks_of(alloc, &mode.route, stamp),
        sides_of(alloc, mode),
        business_of(alloc, mode),
        conversation.try_clone(alloc),
        parts_of(alloc, &id, count),
    ) {
        (Ok(marks), Ok(sides), Ok(business), Ok(conversation), Ok(parts)) => {
            let (mpc, stamp) = marks;
            let (from, to) = sides;
            let (agreement, service, action) = business;
            Ok(UserHeader {
                mpc,
                stamp,
                id,
                ref_to: None,
                from,
                to,
                agreement,
                service,
                action,
                conversation,
                properties: Seq::of(Vec::new(alloc)),
                parts,
            })
        }
        (marks, sides, business, conversation, parts) => {
            drop(id);
            drop(marks);
            drop(sides);
            drop(business);
            drop(conversation);
            drop(parts);
            Err(NoMemory)
        }
    }
}

/// The message partition channel and the stamp.
fn marks_of(alloc: Global, route: &Route, stamp: u64) -> Result<(Option<Text>, StampText), NoMemory>
    requires { stamp ≤ MAX_MOMENT }
    ensures { IfOk result (λ marks. (marks.0 ≡ channel_of route.now) × (IsStampOf stamp marks.1)) }
{
    let mpc = channel_of(alloc, route)?;
    match stamp_text(alloc, stamp) {
        Ok(stamp) => Ok((mpc, stamp)),
        Err(error) => {
            drop(mpc);
            Err(error)
        }
    }
}

fn sides_of(alloc: Global, mode: &Mode) -> Result<(Side, Side), NoMemory>
    ensures { IfOk result (λ sides. (sides.0 ≡ mode.now.from) × (sides.1 ≡ mode.now.to)) }
{
    let from = mode.from.try_clone(alloc)?;
    let to = mode.to.try_clone(alloc)?;
    Ok((from, to))
}

/// The agreement, the service and the action.
fn business_of(alloc: Global, mode: &Mode) -> Result<(Option<Agreement>, Service, Text), NoMemory>
    ensures { IfOk result (λ copies. (copies.0 ≡ mode.now.agreement) × (copies.1 ≡ mode.now.service)
        × (copies.2 ≡ mode.now.action)) }
{
    match (
        mode.agreement.try_clone(alloc),
        mode.service.try_clone(alloc),
        mode.action.try_clone(alloc),
    ) {
        (Ok(agreement), Ok(service), Ok(action)) => Ok((agreement, service, action)),
        (agreement, service, action) => {
            drop(agreement);
            drop(service);
            drop(action);
            Err(NoMemory)
        }
    }
}

/// The message partition channel of a pull.
fn channel_of(alloc: Global, route: &Route) -> Result<Option<Text>, NoMemory>
    ensures { IfOk result (λ mpc. mpc ≡ channel_of route.now) }
{
    match route {
        Route::Push { .. } => Ok(None),
        Route::Pull { mpc, .. } => Ok(Some(mpc.try_clone(alloc)?)),
    }
}

/// A law: the identifier of a conversation has at most 65,536 bytes, as any text.
pub fn conversation_is_limited(conversation: &Option<Text>)
    ensures { IfSome conversation.now (λ text. length text ≤ 65536) }
{
    if let Some(text) = conversation {
        prove!(text.bytes().len() <= 65_536);
    }
}

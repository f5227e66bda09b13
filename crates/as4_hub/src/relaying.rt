//! How a hub relays one received message.
//!
//!     read      the message whose place is the number of submissions so far
//!     submit    the same conversation and payloads, by the given mode
//!
//! The number of submissions is the only cursor. So a crash needs no record of its own: where the submission is on the
//! disk, the next relaying reads the next message, and else the same one again.
ghost use Rattle.std.specs.Prelude.{◌≡◌, ◌≤◌, None, Ok};
ghost use Rattle.as4_disk.specs.Leaving.{LeavesOnly};
ghost use Rattle.as4_flow.specs.Flow.{Told};
ghost use Rattle.as4_hub.specs.Relaying.{IsSameUnless, OpensOn, RelaysOnwards, Submits, FollowsRead};
ghost use Rattle.hub_laws.specs.DeliveredThrough.{GoesOn};
ghost use Rattle.hub_laws.specs.Replies.{IsFirst};
ghost use Rattle.office.specs.Calls.{stop_of};
ghost use Rattle.office.specs.Steps.{Keeps};

use crate::ended::{RelayEnd, end_of_fault, end_of_reply};
use crate::onwards::submission;
use as4_disk::Disk;
use as4_values::{MAX_MOMENT, Payload, Seq, Text, UserHeader};
use exchange_model::{Event, Reply, What};
use office::{Call, Office};
use pass_book::Pass;
use std::alloc::Global;

/// Relays the next message of the inbox by the mode of this name, in two events of this stamp and nonce: reads it, and
/// submits its conversation and its payloads. Where there is nothing to relay, or the message can't be submitted, the state
/// stays as it was.
#[tactic(auto, unfolding(exchange_model::specs::Coming::may_come))]
pub fn relay<D: Disk>(
    alloc: Global,
    office: &mut Office<'_, D>,
    pass: &mut Pass<'_, Call>,
    mode: &Text,
    stamp: u64,
    nonce: u128,
) -> RelayEnd
    requires book { pass.old.book ≡ office.old.book }
    requires dated { stamp ≤ MAX_MOMENT }
    ensures relays { RelaysOnwards D.Disk office.old office.new pass.old pass.new mode.now stamp nonce result }
    // Where the content of the disk is observable, so that the payloads that are read are known: each chain whose hub is
    // this endpoint goes on so, and delivers each message once.
    ensures goes { Told (D.seen office.old.disk) (λ _. GoesOn office.old.end office.new.end) }
    // A power failure inside the call leaves a disk that opens to an endpoint to which they go on.
    ensures any_moment { stop_of office.old.list ≡ None → Told (D.seen office.old.disk) (λ _.
        LeavesOnly D.Disk office.old.disk office.new.disk (OpensOn office.old.end)) }
    ensures same { IsSameUnless result office.old.end office.new.end }
    ensures keeps { Keeps D.Disk office.old office.new pass.old pass.new }
{
    let event = Event {
        stamp,
        nonce,
        what: What::Read {
            n: office.totals().submitted,
        },
    };
    match office.step(pass, event) {
        Ok(reply) => go_on(alloc, office, pass, mode, stamp, nonce, reply),
        Err(fault) => end_of_fault(fault),
    }
}

/// Submits what was read, if a message was read.
fn go_on<D: Disk>(
    alloc: Global,
    office: &mut Office<'_, D>,
    pass: &mut Pass<'_, Call>,
    mode: &Text,
    stamp: u64,
    nonce: u128,
    reply: Reply,
) -> RelayEnd
    requires book { pass.old.book ≡ office.old.book }
    requires dated { stamp ≤ MAX_MOMENT }
    requires first { IsFirst reply }
    ensures follows { FollowsRead D.Disk office.old office.new pass.old pass.new mode.now stamp nonce (Ok reply) result }
{
    match reply {
        Reply::Entry { header, payloads } => {
            submit(alloc, office, pass, mode, stamp, nonce, header, payloads)
        }
        Reply::NoEntry => RelayEnd::Nothing,
        Reply::Gone => RelayEnd::Gone,
        _ => unreachable!(),
    }
}

/// Submits the message.
#[tactic(auto, unfolding(exchange_model::specs::Coming::may_come))]
fn submit<D: Disk>(
    alloc: Global,
    office: &mut Office<'_, D>,
    pass: &mut Pass<'_, Call>,
    mode: &Text,
    stamp: u64,
    nonce: u128,
    header: UserHeader,
    payloads: Seq<Payload>,
) -> RelayEnd
    requires book { pass.old.book ≡ office.old.book }
    requires dated { stamp ≤ MAX_MOMENT }
    ensures submits { Submits D.Disk office.old office.new pass.old pass.new mode.now stamp nonce header payloads result }
{
    let what = match submission(alloc, mode, header, payloads) {
        Ok(what) => what,
        Err(_) => return RelayEnd::NoMemory,
    };
    match office.step(pass, Event { stamp, nonce, what }) {
        Ok(reply) => end_of_reply(reply),
        Err(fault) => end_of_fault(fault),
    }
}

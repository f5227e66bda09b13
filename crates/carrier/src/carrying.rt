//! A message is carried to an endpoint, and its reply is carried back.
ghost use Rattle.std.specs.Prelude.{◌≡◌, ◌≤◌, IsTrue};
ghost use Rattle.as4_disk.specs.MemoryMeaning.{memory_meaning};
ghost use Rattle.carrier.specs.Carrying.{GoesInBytes, IsCarried};
ghost use Rattle.exchange_model.specs.Coming.{may_come};
ghost use Rattle.exchange_model.specs.declared.event.Event.{Event};
ghost use Rattle.exchange_model.specs.declared.what.What.TheVariants.{Came};
ghost use Rattle.office.specs.Steps.{Handles};
ghost use Rattle.sessions.specs.Answering.{Answers, IsSamePass};

use crate::replies::told;
use crate::requests::request_of;
use crate::serving::serve;
use answer_laws::{a_message_is_read_as_itself, its_answer_is_read_as_itself};
use as4_disk::{MemoryDisk, leaves_all_that_may_be};
use as4_http::{one_request, request_read_back};
use as4_values::{MAX_MOMENT, Message};
use exchange_model::Reply;
use office::{Call, Office, OfficeFault};
use pass_book::Pass;
use std::alloc::Global;

/// Carries a message to an office as an HTTP request, and reads the reply from the bytes of the response: a session over
/// the office handles the event of this moment and nonce in which the message comes. After `NoMemory` the event was
/// handled, or nothing was done.
pub fn carry(
    alloc: Global,
    office: &mut Office<'_, MemoryDisk>,
    pass: &mut Pass<'_, Call>,
    message: &Message,
    stamp: u64,
    nonce: u128,
) -> Result<Reply, OfficeFault>
    requires book { pass.old.book ≡ office.old.book }
    requires dated { stamp ≤ MAX_MOMENT }
    requires comes { IsTrue (may_come (Came message.now)) }
    ensures carried { (event : Event) → event.stamp ≡ stamp → event.nonce ≡ nonce → event.what ≡ Came message.now
        → IsCarried result (Handles memory_meaning office.old office.new pass.old pass.new event result) }
    ensures bytes { IsCarried result
        (GoesInBytes (Answers memory_meaning office.old office.new pass.old pass.new) message.now stamp nonce result) }
    ensures modes { office.new.modes ≡ office.old.modes }
    ensures book { office.new.book ≡ office.old.book }
    ensures pass { IsSamePass pass.old pass.new }
{
    // Laws: the request is read back, its message is the one that is carried, and so with the answer.
    one_request();
    request_read_back();
    a_message_is_read_as_itself(message);
    its_answer_is_read_as_itself(message);
    leaves_all_that_may_be();
    let Ok(request) = request_of(alloc, message) else {
        return Err(OfficeFault::NoMemory);
    };
    let (ended, response) = serve(alloc, office, pass, request, stamp, nonce);
    told(alloc, ended, response)
}

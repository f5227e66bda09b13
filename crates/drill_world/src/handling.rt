//! What an office does with an event of a drill.
ghost use Rattle.std.specs.Prelude.{◌≡◌};
ghost use Rattle.as4_disk.specs.MemoryMeaning.{memory_meaning};
ghost use Rattle.carrier.specs.Carrying.{GoesInBytes, IsCarried};
ghost use Rattle.as4_values.specs.declared.message.Message.{Message};
ghost use Rattle.exchange_model.specs.declared.what.What.TheVariants.{Came};
ghost use Rattle.office.specs.Steps.{Handles};
ghost use Rattle.sessions.specs.Answering.{Answers, IsSamePass};

use as4_disk::MemoryDisk;
use carrier::carry;
use exchange_model::{Event, Reply, What};
use office::{Call, Office, OfficeFault};
use pass_book::Pass;
use std::alloc::Global;

/// The office handles the event. A message that comes is carried to it as an HTTP request, and its reply is read from the
/// bytes of the response.
pub(crate) fn handle(
    alloc: Global,
    office: &mut Office<'static, MemoryDisk>,
    pass: &mut Pass<'static, Call>,
    event: Event,
) -> Result<Reply, OfficeFault>
    requires book { pass.old.book ≡ office.old.book }
    ensures handles { IsCarried result (Handles memory_meaning office.old office.new pass.old pass.new event result) }
    ensures bytes { (message : Message) → event.what ≡ Came message → IsCarried result
        (GoesInBytes (Answers memory_meaning office.old office.new pass.old pass.new) message event.stamp event.nonce result) }
    ensures modes { office.new.modes ≡ office.old.modes }
    ensures book { office.new.book ≡ office.old.book }
    ensures pass { IsSamePass pass.old pass.new }
{
    match &event.what {
        What::Came(message) => {
            let reply = carry(alloc, office, pass, message, event.stamp, event.nonce);
            drop(event);
            reply
        }
        _ => office.step(pass, event),
    }
}

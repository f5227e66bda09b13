//! Relays the messages of an office, one after another.
ghost use Rattle.std.specs.Prelude.{◌≡◌, ◌++◌, ◌≤◌, ℕ, List, [], OnOk, OnErr, codes};
ghost use Rattle.as4_flow.specs.Flow.{Rose, TakesFront, Told, appended};
ghost use Rattle.hub_laws.specs.DeliveredThrough.{GoesOn};
ghost use Rattle.relayer.specs.Relaying.{KeepsAll, RelaysAll, TellsFaults, line_of, moment};

use crate::ending::{RelayerEnd, end_of};
use as4_disk::Disk;
use as4_flow::{Clock, Nonces, SendFailed, Sink, send_all};
use as4_hub::{RelayEnd, relay};
use as4_values::{MessageId, Text};
use itoa::Buffer;
use office::{Call, Office};
use pass_book::Pass;
use std::alloc::Global;

/// Relays at most `count` messages by the mode of this name, each with the clock's moment and a nonce of its own, and
/// writes a line for each.
pub(crate) fn relay_all<D: Disk, C: Clock, N: Nonces, O: Sink>(
    alloc: Global,
    office: &mut Office<'_, D>,
    pass: &mut Pass<'_, Call>,
    clock: &mut C,
    nonces: &mut N,
    mode: &Text,
    count: u64,
    output: &mut O,
) -> RelayerEnd
    requires book { pass.old.book ≡ office.old.book }
    ensures relays { RelaysAll D.Disk C.Clock N.Nonces mode.now count (moment office.old pass.old clock.old nonces.old)
        (moment office.new pass.new clock.new nonces.new)
        (O.taken output.old) (O.taken output.new) result }
    ensures keeps { KeepsAll D.Disk (moment office.old pass.old clock.old nonces.old) (moment office.new pass.new clock.new nonces.new) }
    ensures goes { Told (D.seen office.old.disk) (λ _. GoesOn office.old.end office.new.end) }
    ensures faults { TellsFaults result (O.faults output.old) (O.faults output.new) }
{
    for _ in 0..count {
        let stamp = clock.now();
        let nonce = nonces.next();
        match relay(alloc, office, pass, mode, stamp, nonce) {
            RelayEnd::Relayed { number, id } => {
                let told = tell(output, number, &id);
                drop(id);
                if told.is_err() {
                    return RelayerEnd::WriteFault;
                }
            }
            other => return end_of(other),
        }
    }
    RelayerEnd::Done
}

// Writes the line of a message that was relayed.
fn tell<O: Sink>(output: &mut O, number: u64, id: &MessageId) -> Result<(), SendFailed>
    ensures ok { OnOk result (O.taken output.new ≡ appended (O.taken output.old) (line_of number id.now)) }
    ensures front { TakesFront (line_of number id.now) (O.taken output.old) (O.taken output.new) }
    ensures quiet { OnOk result (O.faults output.new ≡ O.faults output.old) }
    ensures err { OnErr result (Rose (O.faults output.old) (O.faults output.new)) }
{
    let mut buffer = Buffer::new();
    send_all(output, b"relayed ")?;
    send_all(output, buffer.format(number).as_bytes())?;
    send_all(output, b" ")?;
    send_all(output, id.bytes())?;
    send_all(output, b"\n")
}

//! Reads messages.
ghost use Rattle.std.specs.Prelude.{◌≡◌, Err, IfOk, IsSome, map};
ghost use Rattle.as4_codes.specs.ErrorCodes.{error_row};
ghost use Rattle.as4_message.specs.declared.received.Refusal.{Refusal as RefusalValue};
ghost use Rattle.as4_message.specs.Attached.{attached_value};
ghost use Rattle.as4_message.specs.Meaning.{AnswersBy, ArePaired, Copies, Means, IsMessage, payload_value, received_value};

use crate::attachment::Attachment;
use crate::received::{MessageRefusal, Received, lend_message};
use as4_values::{Message, NoMemory, Octets, Payload, PlainData, Seq};
use std::alloc::Global;

/// Reads a message from its media text and body (AS4 Profile, section 2.1): from a bare envelope, or from a package
/// whose root is an envelope.
pub fn read_message(alloc: Global, media: &[u8], body: &[u8]) -> Result<Message, MessageRefusal>
    ensures meaning { AnswersBy (λ message. message) result (Copies (Means media.now body.now)) }
    ensures known { (refusal : RefusalValue) → result ≡ Err (MessageRefusal.Refused refusal) → IsSome (error_row refusal.code) }
    ensures paired { IfOk result ArePaired }
{
    match lend_message(alloc, media, body) {
        Ok(received) => match message_of(alloc, received) {
            Ok(message) => Ok(message),
            Err(NoMemory) => Err(MessageRefusal::NoMemory),
        },
        Err(refusal) => Err(refusal),
    }
}

/// The message, with copies of the borrowed contents.
fn message_of(alloc: Global, received: Received<'_>) -> Result<Message, NoMemory>
    ensures { IfOk result (IsMessage (received_value received.entry)) }
{
    match received {
        Received::User(header, parts) => {
            let payloads = payloads_of(alloc, parts.as_slice());
            drop(parts);
            match payloads {
                Ok(payloads) => Ok(Message::User {
                    header,
                    payloads: Seq::of(payloads),
                }),
                Err(NoMemory) => {
                    drop(header);
                    Err(NoMemory)
                }
            }
        }
        Received::Signal(signal) => Ok(Message::Signal(signal)),
        Received::Pair(pair) => Ok(Message::Pair(pair)),
    }
}

fn payloads_of(alloc: Global, parts: &[Attachment<'_>]) -> Result<Vec<Payload>, NoMemory>
    ensures { IfOk result (λ payloads. map payload_value payloads.items ≡ map attached_value parts.now) }
{
    let mut payloads = Vec::with_capacity(alloc, parts.len())?;
    for part in parts {
        payloads.push(payload_of(alloc, part)?)?;
    }
    Ok(payloads)
}

fn payload_of(alloc: Global, part: &Attachment<'_>) -> Result<Payload, NoMemory>
    ensures { IfOk result (λ payload. payload_value payload ≡ attached_value part.now) }
{
    Ok(Payload {
        cid: part.cid.try_clone(alloc)?,
        media: part.media.try_clone(alloc)?,
        content: Octets::of(Vec::from_slice(alloc, part.content)?),
    })
}

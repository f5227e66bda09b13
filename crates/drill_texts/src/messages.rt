//! The texts of messages, and of messages in an inbox.

ghost use Rattle.std.specs.Prelude.{◌≡◌, ◌++◌, OnOk, length};
ghost use Rattle.std.specs.List.{sum_by};
ghost use Rattle.as4_values.specs.declared.payload.Payload.{Payload as Part};
ghost use Rattle.drill_texts.specs.Texts.{channel_text, entry_text, first_code, message_text, pair_summary, reference_text, signal_summary, summary};

use crate::pieces::{add, add_counted, add_named, add_wide};
use as4_values::{
    ErrorItem, Message, MessageId, NoMemory, Pair, Payload, Signal, SignalBody, UserHeader,
};

/// Adds the text of a message that an endpoint sent as its package of this number, or that was lost.
pub(crate) fn add_message(
    out: &mut Vec<u8>,
    lost: bool,
    place: u64,
    message: &Message,
) -> Result<(), NoMemory>
    ensures { OnOk result (out.new.items ≡ out.old.items ++ message_text lost place message.now) }
{
    if lost {
        add(out, b"lost ")?;
    } else {
        add_counted(out, b"sent ", place)?;
        add(out, b" ")?;
    }
    add_summary(out, message)
}

fn add_summary(out: &mut Vec<u8>, message: &Message) -> Result<(), NoMemory>
    ensures { OnOk result (out.new.items ≡ out.old.items ++ summary message.now) }
{
    match message {
        Message::User { header, .. } => add_named(out, b"user ", header.id.bytes()),
        Message::Signal(signal) => add_signal(out, signal),
        Message::Pair(pair) => add_pair(out, pair),
    }
}

fn add_pair(out: &mut Vec<u8>, pair: &Pair) -> Result<(), NoMemory>
    ensures { OnOk result (out.new.items ≡ out.old.items ++ pair_summary pair.now.receipt.ref_to pair.now.pull.body) }
{
    add_named(out, b"pair ", reference_bytes(&pair.receipt.ref_to))?;
    add_named(out, b" ", channel_bytes(&pair.pull.body))
}

fn add_signal(out: &mut Vec<u8>, signal: &Signal) -> Result<(), NoMemory>
    ensures { OnOk result (out.new.items ≡ out.old.items ++ signal_summary signal.now.ref_to signal.now.body) }
{
    match &signal.body {
        SignalBody::Pull { mpc } => add_named(out, b"pull ", mpc.bytes()),
        SignalBody::Receipt { .. } => add_named(out, b"receipt ", reference_bytes(&signal.ref_to)),
        SignalBody::Errors { items } => add_named(out, b"error ", first_code(items.items())),
    }
}

/// The bytes of a reference; empty if there is none.
fn reference_bytes(reference: &Option<MessageId>) -> &[u8]
    ensures { result.now ≡ reference_text reference.now }
{
    match reference {
        Some(id) => id.bytes(),
        None => &[],
    }
}

/// The channel of a pull request; empty for other signals.
fn channel_bytes(body: &SignalBody) -> &[u8]
    ensures { result.now ≡ channel_text body.now }
{
    match body {
        SignalBody::Pull { mpc } => mpc.bytes(),
        _ => &[],
    }
}

/// The code of the first error; empty if there is none.
fn first_code(items: &[ErrorItem]) -> &[u8]
    ensures { result.now ≡ first_code items.now }
{
    match items {
        [item, ..] => item.code.bytes(),
        [] => &[],
    }
}

/// Adds the text of a message in an inbox that is read under this number.
pub(crate) fn add_entry(
    out: &mut Vec<u8>,
    number: u64,
    header: &UserHeader,
    payloads: &[Payload],
) -> Result<(), NoMemory>
    ensures { OnOk result (out.new.items ≡ out.old.items ++ entry_text number header.now payloads.now) }
{
    add_counted(out, b"entry ", number)?;
    add_named(out, b" ", header.id.bytes())?;
    add_counted(out, b" ", payloads.len() as u64)?;
    add(out, b" ")?;
    add_wide(out, size_of(payloads))
}

/// The number of bytes of all payloads together.
fn size_of(payloads: &[Payload]) -> u128
    ensures { result ≡ sum_by (λ (payload : Part). length payload.content) payloads.now }
{
    let mut size: u128 = 0;
    for payload in payloads {
        size += payload.content.bytes().len() as u128;
    }
    size
}

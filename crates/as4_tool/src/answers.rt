//! Replies to a message file: the receipt of a message or the error signal of its refusal, and the check line of
//! either.
ghost use Rattle.std.specs.Prelude.{◌≡◌, ◌≤◌, Ok, None, Some, IfOk, MatchOption};
ghost use Rattle.as4_values.specs.declared.signal.Signal.{Signal as SignalValue};
ghost use Rattle.message_model.specs.Wire.{IsFile};
ghost use Rattle.as4_message.specs.Meaning.{received_value, AnswersBy};
ghost use Rattle.as4_tool.specs.Answer.{FileMeans, IsReply, IsAnswer, IsSignal, IsSignalFile, IsFileLine};

use as4_codes::{error_signal, receipt};
use as4_message::{
    Line, MessageRefusal, Received, check_line, lend_message, split_file, write_message_file,
};
use as4_values::{MAX_MOMENT, Message, NoMemory, Octets, Signal};
use std::alloc::Global;

/// The answer to a message file: the message file of the reply. `None` if the message is a signal or a pair.
pub fn answer_file(
    alloc: Global,
    stamp: u64,
    nonce: u128,
    file: &[u8],
) -> Result<Option<Octets>, NoMemory>
    requires { stamp ≤ MAX_MOMENT }
    ensures { IfOk result (λ answer. MatchOption answer (IsSignalFile file.now) (IsAnswer stamp nonce file.now)) }
{
    let (media, body) = split_file(file);
    match lend_message(alloc, media, body) {
        Ok(received) => {
            let reply = receipt_of(alloc, stamp, nonce, &received);
            drop(received);
            file_of(alloc, reply?)
        }
        Err(MessageRefusal::Refused(refusal)) => {
            let reply = error_signal(alloc, refusal.code, refusal.about.as_ref(), stamp, nonce);
            drop(refusal);
            file_of(alloc, Some(reply?))
        }
        Err(MessageRefusal::NoMemory) => Err(NoMemory),
    }
}

// The receipt of a user message.
fn receipt_of(
    alloc: Global,
    stamp: u64,
    nonce: u128,
    received: &Received<'_>,
) -> Result<Option<Signal>, NoMemory>
    requires { stamp ≤ MAX_MOMENT }
    ensures reply { IfOk result (λ reply. MatchOption reply (IsSignal (Ok (received_value received.now)))
        (IsReply stamp nonce (Ok (received_value received.now)))) }
    ensures none { IsSignal (Ok (received_value received.now)) → result ≡ Ok None }
{
    match received {
        Received::User(header, _) => Ok(Some(receipt(alloc, header, stamp, nonce)?)),
        Received::Signal(_) | Received::Pair(_) => Ok(None),
    }
}

// The message file of a signal, if there is one.
fn file_of(alloc: Global, reply: Option<Signal>) -> Result<Option<Octets>, NoMemory>
    ensures none { reply ≡ None → result ≡ Ok None }
    ensures file { IfOk result (λ file. MatchOption file (reply ≡ None) (λ bytes. (signal : SignalValue) × (reply ≡ Some signal) × IsFile (Message.Signal signal) bytes)) }
{
    let Some(signal) = reply else {
        return Ok(None);
    };
    let reply = Message::Signal(signal);
    let file = write_message_file(alloc, &reply);
    drop(reply);
    Ok(Some(file?))
}

/// The check line of a message file.
pub fn check_file(alloc: Global, file: &[u8]) -> Result<Line, NoMemory>
    ensures { IfOk result (λ line. IsFileLine file.now line.text line.refused) }
{
    let (media, body) = split_file(file);
    check_line(alloc, media, body)
}

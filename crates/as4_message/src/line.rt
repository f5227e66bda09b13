//! The check line, which says what a message is:
//!
//!     user ID                   a user message of this identifier
//!     pull CHANNEL              a pull request for this channel
//!     receipt ID                a receipt of this message
//!     errors COUNT              COUNT errors
//!     pair ID CHANNEL           a receipt of this message, bundled with a pull request for this channel
//!     refused EBMS:CODE         refused with this code
//!     refused EBMS:CODE ID      the same, about the message with this identifier

ghost use Rattle.std.specs.Prelude.{◌≡◌, ◌++◌, OnOk, IfOk, codes, Ok, Err};
ghost use Rattle.as4_codes.specs.ErrorCodes.{code_text};
ghost use Rattle.as4_values.specs.Moment.{digits};
ghost use Rattle.as4_message.specs.Meaning.{Means, received_value};
ghost use Rattle.as4_message.specs.Line.{reference, channel, signal_words, received_words, about_words, refusal_words, line_of, IsLine};

use crate::received::{MessageRefusal, Received, Refusal, lend_message};
use as4_values::{MessageId, NoMemory, Octets, Signal, SignalBody};
use itoa::Buffer;
use std::alloc::Global;

/// The check line of a message.
#[derive(Drop)]
pub struct Line {
    /// Ends in LF.
    pub text: Octets,
    /// Whether the input is refused.
    pub refused: bool,
}

/// The check line of a media text and a body.
pub fn check_line(alloc: Global, media: &[u8], body: &[u8]) -> Result<Line, NoMemory>
    ensures { IfOk result (λ line. IsLine (Means media.now body.now) line.text line.refused) }
{
    match lend_message(alloc, media, body) {
        Ok(received) => {
            let text = received_line(alloc, &received);
            drop(received);
            Ok(Line {
                text: text?,
                refused: false,
            })
        }
        Err(MessageRefusal::Refused(refusal)) => {
            let text = refusal_line(alloc, &refusal);
            drop(refusal);
            Ok(Line {
                text: text?,
                refused: true,
            })
        }
        Err(MessageRefusal::NoMemory) => Err(NoMemory),
    }
}

fn received_line(alloc: Global, received: &Received<'_>) -> Result<Octets, NoMemory>
    ensures { IfOk result (λ text. text ≡ line_of (Ok (received_value received.now))) }
{
    let mut out = Vec::new(alloc);
    push_received(&mut out, received)?;
    out.push(b'\n')?;
    Ok(Octets::of(out))
}

fn push_received(out: &mut Vec<u8>, received: &Received<'_>) -> Result<(), NoMemory>
    ensures { OnOk result (out.new.items ≡ out.old.items ++ received_words (received_value received.now)) }
{
    match received {
        Received::User(header, _) => {
            out.extend_from_slice(b"user ")?;
            out.extend_from_slice(header.id.bytes())?;
            Ok(())
        }
        Received::Signal(signal) => push_signal(out, signal),
        Received::Pair(pair) => {
            out.extend_from_slice(b"pair ")?;
            out.extend_from_slice(reference(&pair.receipt))?;
            out.extend_from_slice(b" ")?;
            out.extend_from_slice(channel(&pair.pull))?;
            Ok(())
        }
    }
}

fn push_signal(out: &mut Vec<u8>, signal: &Signal) -> Result<(), NoMemory>
    ensures { OnOk result (out.new.items ≡ out.old.items ++ signal_words signal.now signal.now.body) }
{
    match &signal.body {
        SignalBody::Pull { mpc } => {
            out.extend_from_slice(b"pull ")?;
            out.extend_from_slice(mpc.bytes())?;
            Ok(())
        }
        SignalBody::Receipt { .. } => {
            out.extend_from_slice(b"receipt ")?;
            out.extend_from_slice(reference(signal))?;
            Ok(())
        }
        SignalBody::Errors { items } => {
            let mut buffer = Buffer::new();
            out.extend_from_slice(b"errors ")?;
            out.extend_from_slice(buffer.format(items.items().len()).as_bytes())?;
            Ok(())
        }
    }
}

/// The message that a receipt acknowledges.
fn reference(signal: &Signal) -> &[u8]
    ensures { result.now ≡ reference signal.now }
{
    match &signal.ref_to {
        Some(id) => id.bytes(),
        None => b"",
    }
}

/// The channel that a pull request asks for.
fn channel(signal: &Signal) -> &[u8]
    ensures { result.now ≡ channel signal.now.body }
{
    match &signal.body {
        SignalBody::Pull { mpc } => mpc.bytes(),
        SignalBody::Receipt { .. } => b"",
        SignalBody::Errors { .. } => b"",
    }
}

fn refusal_line(alloc: Global, refusal: &Refusal) -> Result<Octets, NoMemory>
    ensures { IfOk result (λ text. text ≡ line_of (Err refusal.now)) }
{
    let mut out = Vec::new(alloc);
    push_refusal(&mut out, refusal)?;
    out.push(b'\n')?;
    Ok(Octets::of(out))
}

fn push_refusal(out: &mut Vec<u8>, refusal: &Refusal) -> Result<(), NoMemory>
    ensures { OnOk result (out.new.items ≡ out.old.items ++ refusal_words refusal.now) }
{
    out.extend_from_slice(b"refused ")?;
    push_code(out, refusal.code)?;
    push_about(out, &refusal.about)
}

/// Appends an error code as it is sent.
#[tactic(auto, unfolding(as4_codes::specs::ErrorCodes::code_text))]
fn push_code(out: &mut Vec<u8>, code: u16) -> Result<(), NoMemory>
    ensures { OnOk result (out.new.items ≡ out.old.items ++ code_text code) }
{
    out.extend_from_slice(b"EBMS:")?;
    push_digits(out, 4, code)
}

fn push_about(out: &mut Vec<u8>, about: &Option<MessageId>) -> Result<(), NoMemory>
    ensures { OnOk result (out.new.items ≡ out.old.items ++ about_words about.now) }
{
    if let Some(id) = about {
        out.extend_from_slice(b" ")?;
        out.extend_from_slice(id.bytes())?;
    }
    Ok(())
}

/// Appends `places` decimal digits of the number.
#[tactic(auto, using(crate::proofs::DigitLemmas::push_digit), unfolding(as4_values::specs::Moment::digits))]
fn push_digits(out: &mut Vec<u8>, places: u32, number: u16) -> Result<(), NoMemory>
    ensures { OnOk result (out.new.items ≡ out.old.items ++ digits places number) }
{
    if places == 0 {
        return Ok(());
    }
    push_digits(out, places - 1, number / 10)?;
    out.push(b'0' + (number % 10) as u8)?;
    Ok(())
}
